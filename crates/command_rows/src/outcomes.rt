//! The outcomes of commands with their statuses and lines.

use crate::values::assert_same;
use bm_image::{ImageFault, ImageKind};
use fc_base::{End, NoMemory, Place, Refusal, Rule, UndefKind};
use fort_driver::{Outcome, fault_line, status};
use std::alloc::Global;
use std::process::Abort;
use std::test::Fail;

/// Asserts the status of the outcome and its line.
fn assert_outcome(
    rt: &impl Abort,
    alloc: Global,
    &(outcome, code, line): &(Outcome, u8, &str),
) -> Result<(), NoMemory> {
    let text = fault_line(alloc, &outcome)?;
    let wanted = (code, line.as_bytes());
    assert_same(rt, (status(&outcome), text.bytes()), wanted);
    Ok(())
}

const OUTCOMES: &[(Outcome, u8, &str)] = &[
    (Outcome::Done, 0, ""),
    (Outcome::Ran(End::Exit(0)), 0, ""),
    (Outcome::Ran(End::Exit(255)), 255, ""),
    (Outcome::Ran(End::Abort), 134, ""),
    (Outcome::Ran(End::Overflow), 134, ""),
    (Outcome::Ran(End::Fpe), 136, ""),
    (Outcome::Ran(End::StackFull), 139, ""),
    (Outcome::Ran(End::BadAddress), 139, ""),
    (Outcome::Ran(End::BadFormat), 139, ""),
    (Outcome::Usage, 116, "fortc: usage\n"),
    (Outcome::StoreFault, 117, "fortc: store fault\n"),
    (Outcome::InputFault, 118, "fortc: input fault\n"),
    (Outcome::OutFault, 119, "fortc: output fault\n"),
    (Outcome::ErrFault, 120, "fortc: error output fault\n"),
    (Outcome::TooLong, 121, "fortc: too long\n"),
    (
        Outcome::Refused(Refusal {
            rule: Rule::NotThisForm,
            place: Place { line: 1, col: 1 },
        }),
        122,
        "fortc: 1:1: refused: not-this-form\n",
    ),
    (
        Outcome::Refused(Refusal {
            rule: Rule::MacroArguments,
            place: Place { line: 2, col: 401 },
        }),
        122,
        "fortc: 2:401: refused: macro-arguments\n",
    ),
    (
        Outcome::ImageRefused(ImageFault {
            kind: ImageKind::Instruction,
            offset: 52,
        }),
        123,
        "fortc: image refused: instruction at 52\n",
    ),
    (
        Outcome::ImageRefused(ImageFault {
            kind: ImageKind::Short,
            offset: 134_217_728,
        }),
        123,
        "fortc: image refused: short at 134217728\n",
    ),
    (Outcome::OutOfSteps, 124, "fortc: out of steps\n"),
    (Outcome::NoMemory, 125, "fortc: no memory\n"),
    (
        Outcome::Undefined {
            kind: UndefKind::OutOfObject,
            place: Place { line: 12, col: 305 },
        },
        126,
        "fortc: undefined out-of-object at 12:305\n",
    ),
];

#[test]
fn outcomes_have_a_status_and_a_line(rt: HostRuntime) -> Result<(), Fail> {
    for row in OUTCOMES {
        assert_outcome(&rt, rt.alloc(), row)?;
    }
    Ok(())
}
