//! What a machine that is opened does when it runs.

use crate::programs::ended;
use crate::values::assert_same;
use bm_image::{FnRec, Image};
use bm_isa::Instr;
use byte_machine::Machine;
use fc_base::{End, MemSink, MemSource, Words};
use std::test::Fail;

/// A program that returns 3 ends with it.
#[test]
fn exits_with_what_it_returns(rt: HostRuntime) -> Result<(), Fail> {
    let alloc = rt.alloc();
    let image = Image {
        functions: vec![in alloc;
            FnRec {
                first: 0,
                params: 2,
                regs: 4,
                weight: 10,
                frame: 0,
            },
        ]?,
        code: vec![in alloc;
            Instr::Const { to: 0, number: 3 },
            Instr::Return { from: 0 },
        ]?,
        bytes: Vec::new(alloc),
        entry: 0,
    };
    let mut machine = Machine::open(alloc, &image, &Words::new(alloc))?;
    let mut input = MemSource::new(alloc, b"")?;
    let mut out = MemSink::sized(alloc, 0)?;
    let mut err = MemSink::sized(alloc, 0)?;
    let end = ended(machine.run(&mut input, &mut out, &mut err, 10));
    assert_same(&rt, 0, end, Some(End::Exit(3)));
    Ok(())
}
