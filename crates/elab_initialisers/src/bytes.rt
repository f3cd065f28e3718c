//! Bytes that are stored in an object's.

ghost use Rattle.std.specs.Prelude.{◌≡◌, take, OnOk};
ghost use Rattle.fc_base.specs.Widths.{width_bytes};
ghost use Rattle.elab_meaning.specs.Initialisers.{low_bytes, stored};

use fc_base::{NoMemory, Width};

/// Puts bytes in the place of those from an offset on.
pub fn store(bytes: &mut Vec<u8>, offset: usize, new: &[u8]) -> Result<(), NoMemory>
    ensures { OnOk result (bytes.new.items ≡ stored offset new.now bytes.old.items) }
{
    if offset <= bytes.len() && new.len() <= bytes.len() - offset {
        bytes[offset..offset + new.len()].copy_from_slice(new);
    } else {
        bytes.truncate(offset);
        bytes.extend_from_slice(new)?;
    }
    Ok(())
}

/// Puts the low bytes of a number there, the lowest first.
pub fn store_number(
    bytes: &mut Vec<u8>,
    offset: usize,
    width: Width,
    value: u64,
) -> Result<(), NoMemory>
    ensures { OnOk result (bytes.new.items ≡ stored offset (low_bytes (width_bytes width) value) bytes.old.items) }
{
    let all = value.to_le_bytes();
    match width {
        Width::W1 => store(bytes, offset, &all[..1]),
        Width::W2 => store(bytes, offset, &all[..2]),
        Width::W4 => store(bytes, offset, &all[..4]),
        Width::W8 => store(bytes, offset, &all),
    }
}
