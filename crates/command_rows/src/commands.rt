//! Whole commands over a store, a source and sinks in memory.

use crate::values::assert_same;
use fc_base::{End, MemSink, MemSource, MemStore, NoMemory, Place, Refusal, Rule, Words};
use fort_driver::{Outcome, fort};
use std::alloc::Global;
use std::process::Abort;
use std::test::Fail;

const OVERFLOW: &[u8] = b"*** buffer overflow detected ***: terminated\n";

const NOT_THIS_FORM: Outcome = Outcome::Refused(Refusal {
    rule: Rule::NotThisForm,
    place: Place { line: 1, col: 1 },
});

fn words_of(alloc: Global, list: &[&str]) -> Result<Words, NoMemory> {
    let mut words = Words::new(alloc);
    for word in list {
        words.push(word)?;
    }
    Ok(words)
}

/// What the words come to over the store, the input and err. Asserts that out is left empty.
fn outcome_of_input(
    rt: &impl Abort,
    alloc: Global,
    words: &Words,
    store: &mut MemStore,
    input: &mut MemSource,
    err: &mut MemSink,
) -> Result<Outcome, NoMemory> {
    let mut out = MemSink::sized(alloc, 0)?;
    let outcome = fort(alloc, words, store, input, &mut out, err);
    assert_same(rt, out.bytes().len(), 0);
    Ok(outcome)
}

/// What the words come to over an input that nothing is to take from.
fn outcome_of_words(
    rt: &impl Abort,
    alloc: Global,
    words: &Words,
    store: &mut MemStore,
    err: &mut MemSink,
) -> Result<Outcome, NoMemory> {
    let mut input = MemSource::new(alloc, b"unread")?;
    outcome_of_input(rt, alloc, words, store, &mut input, err)
}

/// What the words of this list come to.
fn outcome_of(
    rt: &impl Abort,
    alloc: Global,
    list: &[&str],
    store: &mut MemStore,
    err: &mut MemSink,
) -> Result<Outcome, NoMemory> {
    let words = words_of(alloc, list)?;
    outcome_of_words(rt, alloc, &words, store, err)
}

/// Asserts what the words come to with an err that has no room.
pub fn assert_outcome(
    rt: &impl Abort,
    alloc: Global,
    list: &[&str],
    store: &mut MemStore,
    outcome: Outcome,
) -> Result<(), NoMemory> {
    let mut err = MemSink::sized(alloc, 0)?;
    let found = outcome_of(rt, alloc, list, store, &mut err);
    drop(err);
    assert_same(rt, found?, outcome);
    Ok(())
}

/// The outcome, what err then holds, and whether an image is kept.
type Answer = (Outcome, &'static [u8], bool);

/// Asserts the answer of `run a.c a.img` over the store and err.
fn assert_answer(
    rt: &impl Abort,
    alloc: Global,
    store: &mut MemStore,
    err: &mut MemSink,
    answer: Answer,
) -> Result<(), NoMemory> {
    let outcome = outcome_of(rt, alloc, &["run", "a.c", "a.img"], store, err)?;
    let found = (outcome, err.bytes(), store.bytes("a.img").is_some());
    assert_same(rt, found, answer);
    Ok(())
}

/// Asserts the answer of `run a.c a.img` over the store and an err of that room.
fn assert_run(
    rt: &impl Abort,
    alloc: Global,
    store: &mut MemStore,
    room: usize,
    answer: Answer,
) -> Result<(), NoMemory> {
    let mut err = MemSink::sized(alloc, room)?;
    assert_answer(rt, alloc, store, &mut err, answer)
}

/// Asserts the answer of `run a.c a.img` where a.c holds the source.
fn assert_run_of(
    rt: &impl Abort,
    alloc: Global,
    store: &mut MemStore,
    source: &[u8],
    room: usize,
    answer: Answer,
) -> Result<(), NoMemory> {
    store.put("a.c", source)?;
    assert_run(rt, alloc, store, room, answer)
}

/// Asserts the answer of `run a.c a.img` on a fresh store, of which a.c holds the source.
fn assert_source(
    rt: &impl Abort,
    alloc: Global,
    source: &[u8],
    room: usize,
    answer: Answer,
) -> Result<(), NoMemory> {
    let mut store = MemStore::new(alloc);
    assert_run_of(rt, alloc, &mut store, source, room, answer)
}

/// Asserts the answer of `run a.c a.img` for the form with these numbers.
fn assert_form(
    rt: &impl Abort,
    alloc: Global,
    numbers: (u32, u32, u32, u32),
    answer: Answer,
) -> Result<(), Fail> {
    let (size, byte, count, result) = numbers;
    let source = format!(in alloc;
        "#include <string.h>\nint main(void) {{ char b[{size}]; memset(b, {byte}, {count}); return {result}; }}\n"
    )?;
    assert_source(rt, alloc, source.as_bytes(), 100, answer)?;
    Ok(())
}

const FORMS: &[((u32, u32, u32, u32), Answer)] = &[
    ((8, 65, 8, 3), (Outcome::Ran(End::Exit(3)), b"", true)),
    ((8, 65, 9, 3), (Outcome::Ran(End::Overflow), OVERFLOW, true)),
    ((1, 0, 0, 255), (Outcome::Ran(End::Exit(255)), b"", true)),
    ((4096, 1, 4096, 7), (Outcome::Ran(End::Exit(7)), b"", true)),
    (
        (4096, 1, 4097, 7),
        (Outcome::Ran(End::Overflow), OVERFLOW, true),
    ),
    ((0, 1, 0, 7), (NOT_THIS_FORM, b"", false)),
];

/// Other sources of a form that ends with 3.
const SOURCES: &[&[u8]] = &[
    b"#include <string.h>\nint main(void) { char  b[8]; memset(b, 65, 8); return 3; }",
    b"#include <string.h>\nint main(void) { char b[8]; memset(b, 65, 8); return _FORTIFY_SOURCE; }",
];

#[test]
fn forms_run_to_their_ends(rt: HostRuntime) -> Result<(), Fail> {
    let alloc = rt.alloc();
    for &(numbers, answer) in FORMS {
        assert_form(&rt, alloc, numbers, answer)?;
    }
    for &source in SOURCES {
        let answer = (Outcome::Ran(End::Exit(3)), b"".as_slice(), true);
        assert_source(&rt, alloc, source, 100, answer)?;
    }
    Ok(())
}

const REFUSALS: &[(&[u8], Rule, u32, u32)] = &[
    (b"", Rule::NotThisForm, 1, 1),
    (b"int main(void) { return 0; }", Rule::NotThisForm, 1, 1),
    (b"'\\400'", Rule::BadEscape, 1, 2),
    (b"#error x\n\"a\n", Rule::OpenText, 2, 1),
    (b"int x;\n@", Rule::BadByte, 2, 1),
    (b"#define f(x) x x\nf(1, 2)", Rule::MacroArguments, 2, 1),
    (b"int x;\n#if 1", Rule::OpenConditional, 2, 1),
    (b"#define a 1\n#define a 2\n#error", Rule::Redefined, 2, 1),
    (
        b"int main(void) {\n  goto x;\n}",
        Rule::LeftOutKeyword,
        2,
        3,
    ),
    (b"int x;\nint main(void) { return 0 }", Rule::Syntax, 2, 1),
];

/// A byte that is repeated so often, and what that comes to.
const LENGTHS: &[(u8, usize, Outcome)] = &[
    (b'@', 1_048_577, Outcome::TooLong),
    (b' ', 1_048_576, NOT_THIS_FORM),
];

/// Asserts what a source of the one byte comes to.
fn assert_length(
    rt: &impl Abort,
    alloc: Global,
    &(byte, length, outcome): &(u8, usize, Outcome),
) -> Result<(), NoMemory> {
    let source = vec![in alloc; byte; length]?;
    assert_source(rt, alloc, &source, 100, (outcome, b"", false))
}

#[test]
fn refusals_keep_nothing(rt: HostRuntime) -> Result<(), Fail> {
    let alloc = rt.alloc();
    for &(source, rule, line, col) in REFUSALS {
        let refused = Outcome::Refused(Refusal {
            rule,
            place: Place { line, col },
        });
        assert_source(&rt, alloc, source, 100, (refused, b"", false))?;
    }
    for row in LENGTHS {
        assert_length(&rt, alloc, row)?;
    }
    Ok(())
}

/// A form that overflows.
const OVER: &[u8] =
    b"#include <string.h>\nint main(void) { char b[8]; memset(b, 65, 9); return 3; }";

const STORE_FAULT: Answer = (Outcome::StoreFault, b"", false);

/// Asserts that a store which fails this call is told apart.
fn assert_store_fault(rt: &impl Abort, alloc: Global, call: u64) -> Result<(), NoMemory> {
    let mut store = MemStore::failing(alloc, &[call])?;
    assert_run_of(rt, alloc, &mut store, OVER, 100, STORE_FAULT)
}

/// Asserts what the form comes to with an err of that room.
fn assert_room(rt: &impl Abort, alloc: Global, room: usize) -> Result<(), NoMemory> {
    let outcome = if room < 45 {
        Outcome::ErrFault
    } else {
        Outcome::Ran(End::Overflow)
    };
    let written = &OVERFLOW[..room.min(OVERFLOW.len())];
    assert_source(rt, alloc, OVER, room, (outcome, written, true))
}

#[test]
fn faults_of_the_outside_are_told_apart(rt: HostRuntime) -> Result<(), Fail> {
    let alloc = rt.alloc();
    let mut missing = MemStore::new(alloc);
    let asserted = assert_run(&rt, alloc, &mut missing, 100, STORE_FAULT);
    drop(missing);
    asserted?;
    for call in 0..2 {
        assert_store_fault(&rt, alloc, call)?;
    }
    for room in 0..46 {
        assert_room(&rt, alloc, room)?;
    }
    Ok(())
}

/// Words that are no command.
const USAGE: &[&[&str]] = &[
    &[],
    &["run", "a"],
    &["run", "a", "a"],
    &["run", "-a", "b"],
    &["run", "a", "-b"],
    &["run", "", "b"],
    &["run", "a", "b", "c"],
    &["run", "a", "b", "--steps", "5"],
    &["run", "--steps", "0", "a", "b"],
    &["run", "--steps", "1099511627777", "a", "b"],
    &["build", "a", "b"],
    &["run", "--level", "3", "a", "b"],
    &["run", "--sizes", "--steps", "5", "a", "b"],
    &["exec"],
    &["exec", "--steps", "5"],
    &["exec", "--steps", "05", "a"],
    &["exec", "--steps", "+5", "a"],
    &["exec", "-a"],
    &["exec", ""],
    &["exec", "a", "b"],
    &["exec", "--level", "3", "a"],
];

fn assert_usage(rt: &impl Abort, alloc: Global, list: &[&str]) -> Result<(), NoMemory> {
    let mut store = MemStore::new(alloc);
    assert_outcome(rt, alloc, list, &mut store, Outcome::Usage)
}

#[test]
fn words_that_are_no_command(rt: HostRuntime) -> Result<(), Fail> {
    for &list in USAGE {
        assert_usage(&rt, rt.alloc(), list)?;
    }
    Ok(())
}

/// The form with 8, 65, 7 and 3.
const FORM: &[u8] =
    b"#include <string.h>\nint main(void) { char b[8]; memset(b, 65, 7); return 3; }";

/// Its image: the header, the record of main, and eleven instructions.
const IMAGE: &[u8] = b"FC3IMAGE\x01\0\0\0\x01\0\0\0\x0b\0\0\0\0\0\0\0\0\0\0\0\0\0\0\0\
    \0\0\0\0\0\0\0\0\x04\0\0\0\xa0\x02\0\0\x10\0\0\0\
    \x02\0\0\0\0\0\0\0\0\0\0\0\0\0\0\0\
    \0\0\0\0\x01\0\0\0\x41\0\0\0\0\0\0\0\
    \0\0\0\0\x02\0\0\0\x07\0\0\0\0\0\0\0\
    \0\0\0\0\x03\0\0\0\x08\0\0\0\0\0\0\0\
    \x25\0\0\0\0\0\0\0\0\0\0\0\0\0\0\0\
    \x25\0\0\0\x01\0\0\0\x01\0\0\0\0\0\0\0\
    \x25\0\0\0\x02\0\0\0\x02\0\0\0\0\0\0\0\
    \x25\0\0\0\x03\0\0\0\x03\0\0\0\0\0\0\0\
    \x28\0\0\0\0\0\0\0\x49\0\0\0\x04\0\0\0\
    \0\0\0\0\0\0\0\0\x03\0\0\0\0\0\0\0\
    \x27\0\0\0\0\0\0\0\0\0\0\0\0\0\0\0";

fn assert_kept(rt: &impl Abort, store: &MemStore, name: &str, bytes: &[u8]) {
    assert_same(rt, store.bytes(name), Some(bytes));
}

/// Asserts that `run a b` keeps the image of what stands under the first name under the second.
fn assert_image(rt: &impl Abort, alloc: Global, store: &mut MemStore) -> Result<(), NoMemory> {
    store.put("a", FORM)?;
    let exits = Outcome::Ran(End::Exit(3));
    assert_outcome(rt, alloc, &["run", "a", "b"], store, exits)?;
    assert_kept(rt, store, "b", IMAGE);
    Ok(())
}

/// Keeps the image of a form that overflows under b: the call that does so is its ninth instruction.
fn keep_overflow(rt: &impl Abort, alloc: Global, store: &mut MemStore) -> Result<(), NoMemory> {
    store.put("a", OVER)?;
    let words = &["run", "--steps", "8", "a", "b", "--", "c"];
    assert_outcome(rt, alloc, words, store, Outcome::OutOfSteps)
}

/// Asserts what the image under b comes to with an err of that room.
fn assert_executed(
    rt: &impl Abort,
    alloc: Global,
    store: &mut MemStore,
    room: usize,
    outcome: Outcome,
) -> Result<(), NoMemory> {
    let mut err = MemSink::sized(alloc, room)?;
    let found = outcome_of(rt, alloc, &["exec", "--steps", "9", "b"], store, &mut err)?;
    let written = &OVERFLOW[..room.min(OVERFLOW.len())];
    assert_same(rt, (found, err.bytes()), (outcome, written));
    Ok(())
}

/// Asserts what comes of an image that was kept.
fn assert_kept_runs(rt: &impl Abort, alloc: Global, store: &mut MemStore) -> Result<(), NoMemory> {
    keep_overflow(rt, alloc, store)?;
    assert_executed(rt, alloc, store, 45, Outcome::Ran(End::Overflow))?;
    assert_executed(rt, alloc, store, 44, Outcome::ErrFault)
}

#[test]
fn what_is_kept_is_executed(rt: HostRuntime) -> Result<(), Fail> {
    let alloc = rt.alloc();
    let mut store = MemStore::new(alloc);
    let asserted = assert_kept_runs(&rt, alloc, &mut store);
    drop(store);
    asserted?;
    Ok(())
}

#[test]
fn an_image_is_spelled(rt: HostRuntime) -> Result<(), Fail> {
    let alloc = rt.alloc();
    let mut store = MemStore::new(alloc);
    let asserted = assert_image(&rt, alloc, &mut store);
    drop(store);
    asserted?;
    Ok(())
}
