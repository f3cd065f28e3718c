//! An image out of its bytes.

ghost use Rattle.std.specs.Prelude.{◌≡◌, ℕ, ◌^◌, ◌≤◌, ◌<◌, ◌+◌, ◌*◌, ◌++◌, List, [], ◌∷◌, length, vec_len, true, Option, Some, None, Ok, Err, IfOk, IfErr, take, drop};
ghost use Rattle.std.specs.List.{flat_map};
ghost use Rattle.bm_isa.specs.Decoding.{word_at};
ghost use Rattle.bm_image.specs.Images.{PlainImage, plain_image, bounds_of, fits, ends_function, host_takes};
ghost use Rattle.bm_image.specs.Spelling.{SpellsImage};
ghost use Rattle.bm_image.specs.Parts.{Part, Judges, Accepts, Refuses, Magic, Word, Record, Instruction, Data, End, header_parts, records, instructions, image_parts, functions_count, code_count, data_count, entry_in, record_offset, code_offset, data_offset, record_at, records_at, functions_in, record_before, is_between, numbers_fit, record_fits, IsIn};
ghost use Rattle.bm_image.specs.Reading.{stands, AreInOrder, IsNear, IsRead, AreRead};
ghost use Rattle.bm_image.specs.declared.images.FnRec.{FnRec};
ghost use Rattle.bm_image.specs.declared.faults.ImageFault.{ImageFault};
ghost use Rattle.bm_image.specs.declared.faults.ReadFault.TheVariants.{Refused};

use crate::faults::{ImageFault, ImageKind, ReadFault};
use crate::fitting::{ends_function, fits};
use crate::images::{Bounds, FnRec, Image};
use bm_isa::{Instr, decode, word_at};
use std::alloc::Global;

/// What the header says.
#[derive(Clone, Copy)]
struct Header {
    functions: u32,
    code: u32,
    bytes: u32,
    entry: u32,
}

/// The image that the bytes spell, in time linear in their number.
pub fn read_image(alloc: Global, bytes: &[u8]) -> Result<Image, ReadFault>
    ensures spelled { IfOk result (λ image. SpellsImage bytes.now (plain_image image)) }
    ensures one { IfOk result (λ image. (other : PlainImage) → SpellsImage bytes.now other → other ≡ plain_image image) }
    ensures refused { (fault : ImageFault) → result ≡ Err (Refused fault) → Judges bytes.now (image_parts bytes.now) (Some fault) }
    ensures none { (fault : ImageFault) → result ≡ Err (Refused fault) → (image : PlainImage) → SpellsImage bytes.now image → ⊥ }
{
    let header = read_header(bytes)?;
    let functions = read_functions(alloc, bytes, &header)?;
    let code = read_code(alloc, bytes, header.code, &functions)?;
    let at = 32 + 20 * header.functions as usize + 16 * header.code as usize;
    let rest = read_data(alloc, bytes, at, header.bytes)?;
    Ok(Image {
        functions,
        code,
        bytes: rest,
        entry: header.entry,
    })
}

/// So many bytes stand at an offset.
fn whole(bytes: &[u8], at: usize, count: usize) -> Result<(), ImageFault>
    requires { at + count < 2 ^ 64 }
    ensures whole { IfOk result (λ _. at + count ≤ length bytes.now) }
    ensures short { IfErr result (λ fault. (length bytes.now < at + count)
        × (fault ≡ record { kind = ImageKind.Short; offset = length bytes.now })) }
{
    let end = at + count;
    if bytes.len() < end {
        return Err(ImageFault {
            kind: ImageKind::Short,
            offset: bytes.len() as u64,
        });
    }
    Ok(())
}

/// The bytes that an image begins with.
fn read_magic(bytes: &[u8]) -> Result<(), ImageFault>
    ensures accepted { IfOk result (λ _. Accepts bytes.now Magic) }
    ensures refused { IfErr result (Refuses bytes.now Magic) }
{
    whole(bytes, 0, 8)?;
    if &bytes[..8] != b"FC3IMAGE".as_slice() {
        return Err(ImageFault {
            kind: ImageKind::Magic,
            offset: 0,
        });
    }
    Ok(())
}

/// A word of the header, from a least number to a greatest.
fn header_word(
    bytes: &[u8],
    at: usize,
    least: u32,
    most: u32,
    kind: ImageKind,
) -> Result<u32, ImageFault>
    requires { at ≤ 28 }
    ensures word { IfOk result (λ word. word ≡ word_at bytes.now at) }
    ensures bounds { IfOk result (λ word. (least ≤ word) × (word ≤ most)) }
    ensures accepted { IfOk result (λ _. Accepts bytes.now (Word at least most kind)) }
    ensures refused { IfErr result (Refuses bytes.now (Word at least most kind)) }
{
    whole(bytes, at, 4)?;
    let word = word_at(bytes, at);
    if !is_between(least, most, word) {
        return Err(ImageFault {
            kind,
            offset: at as u64,
        });
    }
    Ok(word)
}

/// Whether a number is from a least to a greatest.
fn is_between(least: u32, most: u32, n: u32) -> bool
    ensures { result ≡ is_between least most n }
{
    least <= n && n <= most
}

fn read_header(bytes: &[u8]) -> Result<Header, ImageFault>
    ensures functions { IfOk result (λ header. header.functions ≡ functions_count bytes.now) }
    ensures code { IfOk result (λ header. header.code ≡ code_count bytes.now) }
    ensures bytes { IfOk result (λ header. header.bytes ≡ data_count bytes.now) }
    ensures entry { IfOk result (λ header. header.entry ≡ entry_in bytes.now) }
    ensures few { IfOk result (λ header. header.functions ≤ 4096) }
    ensures small { IfOk result (λ header. header.code ≤ 4194304) }
    ensures accepted { IfOk result (λ _. Judges bytes.now (header_parts bytes.now) None) }
    ensures refused { IfErr result (λ fault. Judges bytes.now (header_parts bytes.now) (Some fault)) }
{
    read_magic(bytes)?;
    header_word(bytes, 8, 1, 1, ImageKind::Version)?;
    let functions = header_word(bytes, 12, 1, 4096, ImageKind::Count)?;
    let code = header_word(bytes, 16, 1, 4_194_304, ImageKind::Count)?;
    let size = header_word(bytes, 20, 0, 4_194_304, ImageKind::Count)?;
    let entry = header_word(bytes, 24, 0, functions - 1, ImageKind::Count)?;
    header_word(bytes, 28, 0, 0, ImageKind::Count)?;
    Ok(Header {
        functions,
        code,
        bytes: size,
        entry,
    })
}

/// The record at an offset.
fn record_at(bytes: &[u8], at: usize) -> FnRec
    requires { at + 20 ≤ length bytes.now }
    ensures { result ≡ record_at bytes.now at }
{
    FnRec {
        first: word_at(bytes, at),
        params: word_at(bytes, at + 4),
        regs: word_at(bytes, at + 8),
        weight: word_at(bytes, at + 12),
        frame: word_at(bytes, at + 16),
    }
}

/// Whether a function's numbers are within their bounds.
fn numbers_fit(f: &FnRec) -> bool
    ensures { result ≡ numbers_fit f.now }
{
    f.params <= 60
        && f.params <= f.regs
        && f.regs >= 1
        && f.regs <= f.weight
        && f.weight <= 4_194_304
        && f.frame <= 4_194_320
        && f.frame % 16 == 0
}

/// Whether a record stands rightly behind the one before, of so many instructions in all, and may be the entry's.
fn record_fits(before: Option<FnRec>, size: u32, is_entry: bool, f: &FnRec) -> bool
    ensures { result ≡ record_fits before size is_entry f.now }
{
    let rises = match before {
        None => f.first == 0,
        Some(before) => before.first < f.first,
    };
    rises && f.first < size && numbers_fit(f) && (!is_entry || f.params == 0 || f.params == 2)
}

/// The record of function k.
fn read_record(
    bytes: &[u8],
    header: &Header,
    k: u32,
    before: Option<FnRec>,
) -> Result<FnRec, ImageFault>
    requires small { k < 4096 }
    requires code { header.now.code ≡ code_count bytes.now }
    requires entry { header.now.entry ≡ entry_in bytes.now }
    requires before { before ≡ record_before bytes.now k }
    ensures record { IfOk result (λ f. f ≡ record_at bytes.now (record_offset k)) }
    ensures accepted { IfOk result (λ _. Accepts bytes.now (Record k)) }
    ensures refused { IfErr result (Refuses bytes.now (Record k)) }
{
    let at = 32 + 20 * k as usize;
    whole(bytes, at, 20)?;
    let f = record_at(bytes, at);
    if !record_fits(before, header.code, k == header.entry, &f) {
        return Err(ImageFault {
            kind: ImageKind::Function,
            offset: at as u64,
        });
    }
    Ok(f)
}

/// The records of all functions.
fn read_functions(alloc: Global, bytes: &[u8], header: &Header) -> Result<Vec<FnRec>, ReadFault>
    requires functions { header.now.functions ≡ functions_count bytes.now }
    requires few { header.now.functions ≤ 4096 }
    requires code { header.now.code ≡ code_count bytes.now }
    requires entry { header.now.entry ≡ entry_in bytes.now }
    ensures functions { IfOk result (λ functions. functions.items ≡ functions_in bytes.now) }
    ensures accepted { IfOk result (λ _. Judges bytes.now (records 0 (functions_count bytes.now)) None) }
    ensures refused { (fault : ImageFault) → result ≡ Err (Refused fault)
        → Judges bytes.now (records 0 (functions_count bytes.now)) (Some fault) }
{
    let mut functions = Vec::new(alloc);
    let mut before = None;
    for k in 0..header.functions {
        let f = read_record(bytes, header, k, before)?;
        functions.push(f)?;
        before = Some(f);
    }
    Ok(functions)
}

/// What the instructions of function k may name, of so many instructions in all.
fn bounds_of(functions: &[FnRec], size: u32, k: usize) -> Bounds
    requires inside { k < length functions.now }
    requires few { length functions.now ≤ 4096 }
    ensures { result ≡ bounds_of functions.now size k }
{
    let f = functions[k];
    let end = if k + 1 < functions.len() {
        functions[k + 1].first
    } else {
        size
    };
    Bounds {
        registers: f.regs,
        frame: f.frame,
        first: f.first,
        end,
        functions: functions.len() as u32,
    }
}

/// The sixteen bytes at a place.
fn sixteen(bytes: &[u8], at: usize) -> [u8; 16]
    requires { at + 16 ≤ length bytes.now }
    ensures { result ≡ take 16 (drop at bytes.now) }
{
    match bytes[at..].first_chunk::<16>() {
        Some(chunk) => *chunk,
        None => unreachable!(),
    }
}

/// Whether an instruction may stand at place i of the code of a function with these bounds.
fn stands(bounds: &Bounds, i: u32, instruction: &Instr) -> bool
    requires { i < 2 ^ 31 }
    ensures { result ≡ stands bounds.now i instruction.now }
{
    fits(bounds, instruction) && (i + 1 != bounds.end || ends_function(instruction))
}

/// Instruction i, which is in the code of the function with these bounds.
fn read_instruction(
    bytes: &[u8],
    functions: u32,
    bounds: &Bounds,
    i: u32,
) -> Result<Instr, ImageFault>
    requires functions { functions ≡ functions_count bytes.now }
    requires few { functions ≤ 4096 }
    requires small { i < 4194304 }
    requires inside { (k : ℕ) × IsIn (functions_in bytes.now) (code_count bytes.now) k i
        × (bounds.now ≡ bounds_of (functions_in bytes.now) (code_count bytes.now) k) }
    requires order { AreInOrder (functions_in bytes.now) (code_count bytes.now) }
    ensures read { IfOk result (IsRead bytes.now i) }
    ensures accepted { IfOk result (λ _. Accepts bytes.now (Instruction i)) }
    ensures refused { IfErr result (Refuses bytes.now (Instruction i)) }
{
    let at = 32 + 20 * functions as usize + 16 * i as usize;
    whole(bytes, at, 16)?;
    let wrong = ImageFault {
        kind: ImageKind::Instruction,
        offset: at as u64,
    };
    match decode(&sixteen(bytes, at)) {
        Err(_) => Err(wrong),
        Ok(instruction) => {
            if !stands(bounds, i, &instruction) {
                return Err(wrong);
            }
            Ok(instruction)
        }
    }
}

/// The number of the function whose code instruction i is in, where that is function k or the one behind it.
fn function_of(functions: &[FnRec], size: u32, k: usize, i: u32) -> usize
    requires few { length functions.now ≤ 4096 }
    requires order { AreInOrder functions.now size }
    requires near { IsNear functions.now size k i }
    requires inside { i < size }
    ensures { IsIn functions.now size result i }
{
    if k + 1 < functions.len() && functions[k + 1].first == i {
        return k + 1;
    }
    k
}

/// The instructions.
fn read_code(
    alloc: Global,
    bytes: &[u8],
    size: u32,
    functions: &[FnRec],
) -> Result<Vec<Instr>, ReadFault>
    requires size { size ≡ code_count bytes.now }
    requires small { size ≤ 4194304 }
    requires functions { functions.now ≡ functions_in bytes.now }
    requires some { 0 < length functions.now }
    requires few { length functions.now ≤ 4096 }
    requires count { length functions.now ≡ functions_count bytes.now }
    requires order { AreInOrder functions.now size }
    ensures read { IfOk result (λ code. AreRead bytes.now code.items) }
    ensures count { IfOk result (λ code. length code.items ≡ code_count bytes.now) }
    ensures accepted { IfOk result (λ _. Judges bytes.now (instructions 0 (code_count bytes.now)) None) }
    ensures refused { (fault : ImageFault) → result ≡ Err (Refused fault)
        → Judges bytes.now (instructions 0 (code_count bytes.now)) (Some fault) }
{
    let mut code = Vec::new(alloc);
    let mut k = 0;
    for i in 0..size {
        k = function_of(functions, size, k, i);
        let bounds = bounds_of(functions, size, k);
        let instruction = read_instruction(bytes, functions.len() as u32, &bounds, i)?;
        code.push(instruction)?;
    }
    Ok(code)
}

/// The data, with nothing behind them.
fn read_data(alloc: Global, bytes: &[u8], at: usize, size: u32) -> Result<Vec<u8>, ReadFault>
    requires at { at ≡ data_offset bytes.now }
    requires small { at < 2 ^ 32 }
    requires size { size ≡ data_count bytes.now }
    ensures items { IfOk result (λ items. items.items ≡ drop (data_offset bytes.now) bytes.now) }
    ensures accepted { IfOk result (λ _. Judges bytes.now (Data ∷ End ∷ []) None) }
    ensures refused { (fault : ImageFault) → result ≡ Err (Refused fault) → Judges bytes.now (Data ∷ End ∷ []) (Some fault) }
{
    whole(bytes, at, size as usize)?;
    let end = at + size as usize;
    if bytes.len() > end {
        return Err(ReadFault::Refused(ImageFault {
            kind: ImageKind::Extra,
            offset: end as u64,
        }));
    }
    Ok(Vec::from_slice(alloc, &bytes[at..])?)
}
