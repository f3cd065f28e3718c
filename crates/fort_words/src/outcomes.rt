//! What a command comes to.

ghost use Rattle.std.specs.Prelude.{◌≡◌, IfOk};
ghost use Rattle.fort_words.specs.Outcomes.{end_status, status_of, fault_text, image_kind_text, after_fetch, after_keep, after_fault, after_read};
ghost use Rattle.fort_words.specs.declared.outcomes.Outcome.TheVariants.{NoMemory as MemoryOutcome};

use bm_image::{ImageFault, ImageKind, ReadFault};
use fc_base::{End, Fault, FetchFault, KeepFault, NoMemory, Place, Refusal, Text, UndefKind};
use std::alloc::{AllocError, Global};

/// What a command comes to: it is done or has run to an end, or why not.
#[derive(Clone, Copy, Debug, PartialEq, Eq)]
pub enum Outcome {
    Done,
    Ran(End),
    Usage,
    StoreFault,
    InputFault,
    OutFault,
    ErrFault,
    TooLong,
    Refused(Refusal),
    ImageRefused(ImageFault),
    OutOfSteps,
    Undefined { kind: UndefKind, place: Place },
    NoMemory,
}

impl From<FetchFault> for Outcome {
    ghost from_gives = { λ fault outcome. outcome ≡ after_fetch fault };

    fn from(fault: FetchFault) -> Outcome {
        match fault {
            FetchFault::Failed => Outcome::StoreFault,
            FetchFault::TooLong => Outcome::TooLong,
            FetchFault::NoMemory => Outcome::NoMemory,
        }
    }
}

impl From<KeepFault> for Outcome {
    ghost from_gives = { λ fault outcome. outcome ≡ after_keep fault };

    fn from(fault: KeepFault) -> Outcome {
        match fault {
            KeepFault::Failed => Outcome::StoreFault,
            KeepFault::NoMemory => Outcome::NoMemory,
        }
    }
}

impl From<Fault> for Outcome {
    ghost from_gives = { λ fault outcome. outcome ≡ after_fault fault };

    fn from(fault: Fault) -> Outcome {
        match fault {
            Fault::Refused(refusal) => Outcome::Refused(refusal),
            Fault::NoMemory => Outcome::NoMemory,
        }
    }
}

impl From<ReadFault> for Outcome {
    ghost from_gives = { λ fault outcome. outcome ≡ after_read fault };

    fn from(fault: ReadFault) -> Outcome {
        match fault {
            ReadFault::Refused(fault) => Outcome::ImageRefused(fault),
            ReadFault::NoMemory => Outcome::NoMemory,
        }
    }
}

impl From<NoMemory> for Outcome {
    ghost from_gives = { λ _ outcome. outcome ≡ MemoryOutcome };

    fn from(_: NoMemory) -> Outcome {
        Outcome::NoMemory
    }
}

impl From<AllocError> for Outcome {
    ghost from_gives = { λ _ outcome. outcome ≡ MemoryOutcome };

    fn from(_: AllocError) -> Outcome {
        Outcome::NoMemory
    }
}

fn end_status(end: End) -> u8
    ensures { result ≡ end_status end }
{
    match end {
        End::Exit(status) => status,
        End::Abort | End::Overflow => 134,
        End::Fpe => 136,
        End::StackFull | End::BadAddress | End::BadFormat => 139,
    }
}

/// The exit status of the program.
pub fn status(outcome: &Outcome) -> u8
    ensures { result ≡ status_of outcome.now }
{
    match *outcome {
        Outcome::Done => 0,
        Outcome::Ran(end) => end_status(end),
        Outcome::Usage => 116,
        Outcome::StoreFault => 117,
        Outcome::InputFault => 118,
        Outcome::OutFault => 119,
        Outcome::ErrFault => 120,
        Outcome::TooLong => 121,
        Outcome::Refused(_) => 122,
        Outcome::ImageRefused(_) => 123,
        Outcome::OutOfSteps => 124,
        Outcome::NoMemory => 125,
        Outcome::Undefined { .. } => 126,
    }
}

/// The line that the program prints on standard error, with its newline. It is empty for a command that was done and
/// for one that ran to an end.
pub fn fault_line(alloc: Global, outcome: &Outcome) -> Result<Text, NoMemory>
    ensures { IfOk result (λ text. text ≡ fault_text outcome.now) }
{
    let line = match *outcome {
        Outcome::Done | Outcome::Ran(_) => "",
        Outcome::Usage => "fortc: usage\n",
        Outcome::StoreFault => "fortc: store fault\n",
        Outcome::InputFault => "fortc: input fault\n",
        Outcome::OutFault => "fortc: output fault\n",
        Outcome::ErrFault => "fortc: error output fault\n",
        Outcome::TooLong => "fortc: too long\n",
        Outcome::Refused(refusal) => return refusal_line(alloc, refusal),
        Outcome::ImageRefused(fault) => return image_line(alloc, fault),
        Outcome::OutOfSteps => "fortc: out of steps\n",
        Outcome::NoMemory => "fortc: no memory\n",
        Outcome::Undefined { kind, place } => return undefined_line(alloc, kind, place),
    };
    Text::from_bytes(alloc, line.as_bytes())
}

#[tactic(auto, using(crate::proofs::Lines::refused_line))]
fn refusal_line(alloc: Global, refusal: Refusal) -> Result<Text, NoMemory>
    ensures { IfOk result (λ text. text ≡ fault_text (Outcome.Refused refusal)) }
{
    let Place { line, col } = refusal.place;
    let rule = refusal.rule.name();
    let text = format!(in alloc; "fortc: {line}:{col}: refused: {rule}\n")?;
    Text::from_bytes(alloc, text.as_bytes())
}

fn image_kind_name(kind: ImageKind) -> &'static str
    ensures { result.now ≡ image_kind_text kind }
{
    match kind {
        ImageKind::Short => "short",
        ImageKind::Magic => "magic",
        ImageKind::Version => "version",
        ImageKind::Count => "count",
        ImageKind::Function => "function",
        ImageKind::Instruction => "instruction",
        ImageKind::Extra => "extra",
    }
}

fn image_line(alloc: Global, fault: ImageFault) -> Result<Text, NoMemory>
    ensures { IfOk result (λ text. text ≡ fault_text (Outcome.ImageRefused fault)) }
{
    let ImageFault { kind, offset } = fault;
    let kind = image_kind_name(kind);
    let text = format!(in alloc; "fortc: image refused: {kind} at {offset}\n")?;
    Text::from_bytes(alloc, text.as_bytes())
}

fn undefined_line(alloc: Global, kind: UndefKind, place: Place) -> Result<Text, NoMemory>
    ensures { IfOk result (λ text. text ≡ fault_text (Outcome.Undefined kind place)) }
{
    let Place { line, col } = place;
    let kind = kind.name();
    let text = format!(in alloc; "fortc: undefined {kind} at {line}:{col}\n")?;
    Text::from_bytes(alloc, text.as_bytes())
}
