//! The bytes of an image.

ghost use Rattle.std.specs.Prelude.{◌≡◌, ◌++◌, IfOk, OnOk};
ghost use Rattle.std.specs.List.{flat_map};
ghost use Rattle.bm_isa.specs.Encoding.{instruction_bytes};
ghost use Rattle.bm_image.specs.Images.{plain_image, IsImage};
ghost use Rattle.bm_image.specs.Spelling.{word, record_bytes, header_bytes, bm_image};

use crate::images::{FnRec, Image};
use bm_isa::{Instr, encode};
use fc_base::NoMemory;
use std::alloc::Global;

fn write_words(bytes: &mut Vec<u8>, words: &[u32]) -> Result<(), NoMemory>
    ensures { OnOk result (bytes.new.items ≡ bytes.old.items ++ flat_map word words.now) }
{
    for word in words {
        bytes.extend_from_slice(&word.to_le_bytes())?;
    }
    Ok(())
}

fn write_records(bytes: &mut Vec<u8>, functions: &[FnRec]) -> Result<(), NoMemory>
    ensures { OnOk result (bytes.new.items ≡ bytes.old.items ++ flat_map record_bytes functions.now) }
{
    for f in functions {
        write_words(bytes, &[f.first, f.params, f.regs, f.weight, f.frame])?;
    }
    Ok(())
}

fn write_code(bytes: &mut Vec<u8>, code: &[Instr]) -> Result<(), NoMemory>
    ensures { OnOk result (bytes.new.items ≡ bytes.old.items ++ flat_map instruction_bytes code.now) }
{
    for instruction in code {
        bytes.extend_from_slice(&encode(instruction))?;
    }
    Ok(())
}

/// The header, in a vector with room for the whole image.
fn write_header(alloc: Global, image: &Image) -> Result<Vec<u8>, NoMemory>
    requires { IsImage (plain_image image.now) }
    ensures { IfOk result (λ bytes. bytes.items ≡ header_bytes (plain_image image.now)) }
{
    let functions = image.functions.len();
    let code = image.code.len();
    let data = image.bytes.len();
    let mut bytes = Vec::with_capacity(alloc, 32 + 20 * functions + 16 * code + data)?;
    bytes.extend_from_slice(b"FC3IMAGE")?;
    let counts = [functions as u32, code as u32, data as u32];
    write_words(&mut bytes, &[1])?;
    write_words(&mut bytes, &counts)?;
    write_words(&mut bytes, &[image.entry, 0])?;
    Ok(bytes)
}

/// The image's bytes: the header, the functions' records, the instructions, and the data.
#[tactic(auto, unfolding(crate::specs::Spelling::bm_image))]
pub fn write_image(alloc: Global, image: &Image) -> Result<Vec<u8>, NoMemory>
    requires { IsImage (plain_image image.now) }
    ensures { IfOk result (λ bytes. bytes.items ≡ bm_image (plain_image image.now)) }
{
    let mut bytes = write_header(alloc, image)?;
    write_records(&mut bytes, image.functions.as_slice())?;
    write_code(&mut bytes, image.code.as_slice())?;
    bytes.extend_from_slice(image.bytes.as_slice())?;
    Ok(bytes)
}
