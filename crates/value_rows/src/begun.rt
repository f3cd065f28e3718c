//! A variable of a block that begins and ends again and again.

use fc_base::NoMemory;
use src_values::Memory;
use std::test::Fail;

const TIMES: u64 = 1_000_000;

/// An object of the file, and then many that begin and end: each number is a new one, and the first object is there as it was.
fn begins_and_ends(memory: &mut Memory, times: u64) -> Result<bool, NoMemory> {
    let file = memory.add(8, true, true)?;
    let mut fresh = true;
    for i in 0..times {
        let block = memory.add(16, true, false)?;
        fresh = fresh && block > i && memory.is_live(block);
        if memory.is_live(block) {
            memory.finish(block);
        }
        fresh = fresh && !memory.is_live(block);
    }
    Ok(fresh && memory.is_live(file) && memory.object_size(file) == 8)
}

#[test]
fn a_block_a_million_times(rt: HostRuntime) -> Result<(), Fail> {
    let mut memory = Memory::new(rt.alloc());
    let held = begins_and_ends(&mut memory, TIMES)?;
    assert!(&rt; held);
    Ok(())
}
