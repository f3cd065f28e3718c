//! The top call.

ghost use Rattle.std.specs.Prelude.{◌≡◌, [], IfOk, unwrap_or};
ghost use Rattle.run_meaning.specs.Objects.{stream, streams, stored, outside};
ghost use Rattle.run_meaning.specs.Worlds.{ArgumentsFit};
ghost use Rattle.fort_forms.specs.Forms.{IsForm};
ghost use Rattle.bm_image.specs.Images.{plain_image, IsImage};
ghost use Rattle.bm_image.specs.Spelling.{bm_image};
ghost use Rattle.fort_words.specs.Commands.{served, args_of, plain_args, plain_exec, plain_run, plain_command};
ghost use Rattle.fort_driver.specs.Compiled.{form_image};
ghost use Rattle.fort_driver.specs.Fort.{HasNotRun, Promise};
ghost use Rattle.fort_driver.specs.Preparing.{IsAtStart, IsOpened, Prepares, Loads, Readies, Runs};

use crate::compiled::compile;
use bm_image::{Image, read_image, write_image};
use byte_machine::{Machine, Stop};
use c_front::read_form_of;
use fc_base::{Level, NoMemory, Sink, Source, Store, Words};
use fort_forms::Form;
use fort_words::{
    Arguments, Command, ExecCommand, Outcome, RunCommand, argument_list, read_command,
};
use std::alloc::Global;

/// The longest source, in bytes.
const LONGEST_SOURCE: usize = 1_048_576;

/// The longest image, in bytes.
const LONGEST_IMAGE: usize = 134_217_728;

/// An image and its bytes.
#[derive(Drop)]
struct Built {
    image: Image,
    bytes: Vec<u8>,
}

/// The image of a form and its bytes.
fn build(alloc: Global, form: &Form) -> Result<Built, NoMemory>
    requires { IsForm form.now }
    ensures image { IfOk result (λ built. plain_image built.image ≡ form_image form.now) }
    ensures bytes { IfOk result (λ built. built.bytes.items ≡ bm_image (form_image form.now)) }
{
    let image = compile(alloc, form)?;
    let bytes = write_image(alloc, &image)?;
    Ok(Built { image, bytes })
}

/// A machine on the image, with the program's arguments.
fn open(alloc: Global, image: &Image, args: Option<Arguments<'_>>) -> Result<Machine, NoMemory>
    requires image { IsImage (plain_image image.now) }
    requires fit { ArgumentsFit (unwrap_or (plain_args args) []) }
    ensures { IfOk result (IsOpened (plain_image image.now) (unwrap_or (plain_args args.entry) [])) }
{
    let args = argument_list(alloc, args)?;
    Machine::open(alloc, image, &args)
}

/// Fetches the source, keeps its image, and opens a machine on that image.
fn prepare<S: Store>(
    alloc: Global,
    store: &mut S,
    command: &RunCommand<'_>,
) -> Result<Machine, Outcome>
    requires fit { ArgumentsFit (args_of (plain_run command.now)) }
    ensures { let before =
        stored (S.files store.old) (S.fetch_count store.old) (S.keep_count store.old) in
        let after =
        stored (S.files store.new) (S.fetch_count store.new) (S.keep_count store.new) in
        Prepares (plain_run command.now) result before after }
{
    let source = store.fetch(alloc, command.file, LONGEST_SOURCE)?;
    let form = read_form_of(alloc, &source, Level::Three)?;
    let built = build(alloc, &form)?;
    store.keep(alloc, command.image, &built.bytes)?;
    let machine = open(alloc, &built.image, command.args)?;
    Ok(machine)
}

/// Fetches the image, and opens a machine on it.
fn load<S: Store>(
    alloc: Global,
    store: &mut S,
    command: &ExecCommand<'_>,
) -> Result<Machine, Outcome>
    requires fit { ArgumentsFit (args_of (plain_exec command.now)) }
    ensures { let before =
        stored (S.files store.old) (S.fetch_count store.old) (S.keep_count store.old) in
        let after =
        stored (S.files store.new) (S.fetch_count store.new) (S.keep_count store.new) in
        Loads (plain_exec command.now) result before after }
{
    let bytes = store.fetch(alloc, command.image, LONGEST_IMAGE)?;
    let image = read_image(alloc, &bytes)?;
    let machine = open(alloc, &image, command.args)?;
    Ok(machine)
}

/// Makes a machine ready for the command.
fn ready<S: Store>(alloc: Global, store: &mut S, command: &Command<'_>) -> Result<Machine, Outcome>
    requires fit { ArgumentsFit (args_of (plain_command command.now)) }
    ensures { let before =
        stored (S.files store.old) (S.fetch_count store.old) (S.keep_count store.old) in
        let after =
        stored (S.files store.new) (S.fetch_count store.new) (S.keep_count store.new) in
        Readies (plain_command command.now) result before after }
{
    match command {
        Command::Exec(command) => load(alloc, store, command),
        Command::Run(command) => prepare(alloc, store, command),
    }
}

/// Runs the machine to its outcome, for that many instructions at most.
fn run_machine<I: Source, O: Sink, E: Sink>(
    machine: &mut Machine,
    input: &mut I,
    out: &mut O,
    err: &mut E,
    steps: u64,
) -> Outcome
    requires { IsAtStart machine.old }
    ensures { let before = streams (stream (I.left input.old) (I.count input.old))
        (stream (O.written out.old) (O.count out.old))
        (stream (E.written err.old) (E.count err.old)) in
        let after = streams (stream (I.left input.new) (I.count input.new))
        (stream (O.written out.new) (O.count out.new))
        (stream (E.written err.new) (E.count err.new)) in
        Runs result steps machine.old before after }
{
    match machine.run(input, out, err, steps) {
        Stop::Ended(end) => Outcome::Ran(end),
        Stop::OutOfSteps => Outcome::OutOfSteps,
        Stop::InputFault => Outcome::InputFault,
        Stop::OutFault => Outcome::OutFault,
        Stop::ErrFault => Outcome::ErrFault,
    }
}

/// Carries out the command of the words over the store, the source and the two sinks.
pub fn fort<S: Store, I: Source, O: Sink, E: Sink>(
    alloc: Global,
    words: &Words,
    store: &mut S,
    input: &mut I,
    out: &mut O,
    err: &mut E,
) -> Outcome
    // What the command and its outcome say of the outside before and after the call.
    ensures promise { let store_before =
        stored (S.files store.old) (S.fetch_count store.old) (S.keep_count store.old) in
        let store_after =
        stored (S.files store.new) (S.fetch_count store.new) (S.keep_count store.new) in
        let before = streams (stream (I.left input.old) (I.count input.old))
        (stream (O.written out.old) (O.count out.old))
        (stream (E.written err.old) (E.count err.old)) in
        let after = streams (stream (I.left input.new) (I.count input.new))
        (stream (O.written out.new) (O.count out.new))
        (stream (E.written err.new) (E.count err.new)) in
        Promise (served words.now) result
        (outside store_before before) (outside store_after after) }
    // Which objects are as they were, and not only as they tell.
    ensures usage_touches_nothing { result ≡ Outcome.Usage → store.new ≡ store.old }
    ensures not_run { HasNotRun (served words.now) result →
        (input.new ≡ input.old) × (out.new ≡ out.old) × (err.new ≡ err.old) }
{
    match read_command(words) {
        Some(command) => match ready(alloc, store, &command) {
            Ok(mut machine) => run_machine(&mut machine, input, out, err, command.steps()),
            Err(outcome) => outcome,
        },
        None => Outcome::Usage,
    }
}
