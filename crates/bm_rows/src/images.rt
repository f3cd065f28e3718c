//! Images and what is no image.

use bm_image::{ImageFault, ImageKind, ReadFault, read_image, write_image};
use std::alloc::Global;
use std::process::Abort;
use std::test::Fail;

/// One function without parameters, of one register: the constant 3 into it, and its return.
const EXITS_WITH_3: &[u8; 84] = &[
    b'F', b'C', b'3', b'I', b'M', b'A', b'G', b'E', 1, 0, 0, 0, 1, 0, 0, 0, 2, 0, 0, 0, 0, 0, 0, 0,
    0, 0, 0, 0, 0, 0, 0, 0, 0, 0, 0, 0, 0, 0, 0, 0, 1, 0, 0, 0, 1, 0, 0, 0, 0, 0, 0, 0, 0, 0, 0, 0,
    0, 0, 0, 0, 3, 0, 0, 0, 0, 0, 0, 0, 39, 0, 0, 0, 0, 0, 0, 0, 0, 0, 0, 0, 0, 0, 0, 0,
];

/// A byte of that image, another in its place, and what is then wrong where: each word of the header; a record that begins late,
/// an entry of one parameter, no register, more registers than weight, a frame that isn't a multiple of 16; an instruction of no
/// number, of another width, of no such register; and a last instruction that goes on.
const WRONG: &[(usize, u8, ImageKind, u64)] = &[
    (0, 0, ImageKind::Magic, 0),
    (8, 2, ImageKind::Version, 8),
    (12, 0, ImageKind::Count, 12),
    (14, 1, ImageKind::Count, 12),
    (16, 0, ImageKind::Count, 16),
    (18, 65, ImageKind::Count, 16),
    (22, 65, ImageKind::Count, 20),
    (24, 1, ImageKind::Count, 24),
    (28, 1, ImageKind::Count, 28),
    (32, 1, ImageKind::Function, 32),
    (36, 1, ImageKind::Function, 32),
    (40, 0, ImageKind::Function, 32),
    (44, 0, ImageKind::Function, 32),
    (48, 8, ImageKind::Function, 32),
    (52, 41, ImageKind::Instruction, 52),
    (53, 1, ImageKind::Instruction, 52),
    (56, 1, ImageKind::Instruction, 52),
    (68, 0, ImageKind::Instruction, 68),
];

/// How many of its bytes are there, and where they end.
const SHORT: &[usize] = &[0, 7, 8, 31, 32, 51, 52, 83];

/// What is wrong with the bytes; none where they spell an image, or where no memory is left.
fn fault(alloc: Global, bytes: &[u8]) -> Option<ImageFault> {
    match read_image(alloc, bytes) {
        Ok(_) => None,
        Err(ReadFault::Refused(fault)) => Some(fault),
        Err(ReadFault::NoMemory) => None,
    }
}

fn assert_fault(rt: &impl Abort, found: Option<ImageFault>, kind: ImageKind, offset: u64) {
    let same = match found {
        Some(fault) => fault.kind == kind && fault.offset == offset,
        None => false,
    };
    assert!(rt; same);
}

/// The bytes of the image that the bytes spell.
fn written_again(alloc: Global, bytes: &[u8]) -> Result<Vec<u8>, ReadFault> {
    let image = read_image(alloc, bytes)?;
    Ok(write_image(alloc, &image)?)
}

/// An image is read, and written as the same bytes.
#[test]
fn an_image_comes_back(rt: HostRuntime) -> Result<(), Fail> {
    let same = match written_again(rt.alloc(), EXITS_WITH_3) {
        Ok(bytes) => bytes.as_slice() == EXITS_WITH_3.as_slice(),
        Err(_) => false,
    };
    assert!(&rt; same);
    Ok(())
}

/// The first part that is refused, with its offset.
#[test]
fn wrong_parts_are_refused(rt: HostRuntime) -> Result<(), Fail> {
    for &(at, byte, kind, offset) in WRONG {
        let mut bytes = *EXITS_WITH_3;
        if at < 84 {
            bytes[at] = byte;
        }
        assert_fault(&rt, fault(rt.alloc(), &bytes), kind, offset);
    }
    Ok(())
}

/// Bytes that end within a part are refused where they end, and bytes behind the data where these begin.
#[test]
fn other_lengths_are_refused(rt: HostRuntime) -> Result<(), Fail> {
    for &count in SHORT {
        if count < 84 {
            let found = fault(rt.alloc(), &EXITS_WITH_3[..count]);
            assert_fault(&rt, found, ImageKind::Short, count as u64);
        }
    }
    let mut bytes = Vec::from_slice(rt.alloc(), EXITS_WITH_3)?;
    bytes.push(0)?;
    assert_fault(&rt, fault(rt.alloc(), &bytes), ImageKind::Extra, 84);
    Ok(())
}
