//! Size expressions (GCC manual, "Object Size Checking").

ghost use Rattle.std.specs.Prelude.{◌≡◌};
ghost use Rattle.std.specs.Option.{option_map_or};
ghost use Rattle.elab_conversions.specs.Answers.{Gives};
ghost use Rattle.elab_meaning.specs.Typing.{judged};
ghost use Rattle.elab_expressions.specs.Words.{mode_checks, sized, sized_with};

use c_layout::{Tags, is_pointer};
use c_tree::{Rank, TypedExpr, constant_of, ranked};
use elab_conversions::judge;
use fc_base::{Fault, Place, Rule};
use std::alloc::Global;
use tree_drops::{both, typed_size_call};

/// The rules of a mode: an integer constant expression from 0 to 3.
fn judge_mode(tags: &Tags, mode: &TypedExpr, at: Place) -> Result<(), Fault>
    ensures { Gives result (judged at (mode_checks tags.now mode.now) tt) }
{
    match constant_of(tags, mode) {
        None => Err(Fault::refused(Rule::NotConstant, at)),
        Some(value) if value > 3 => Err(Fault::refused(Rule::SizeMode, at)),
        Some(_) => Ok(()),
    }
}

/// A size expression whose mode is one.
fn sized_with(
    alloc: Global,
    pointer: TypedExpr,
    mode: TypedExpr,
    at: Place,
) -> Result<TypedExpr, Fault>
    ensures { Gives result (sized_with pointer mode at) }
{
    let judged = judge(at, &[(Rule::BadOperands, !is_pointer(&pointer.ctype))]);
    let ((pointer, mode), _) = both((pointer, mode), judged)?;
    let size = ranked(Rank::Long, false);
    Ok(typed_size_call(alloc, pointer, mode, size, at)?)
}

/// A size expression by its typed parts.
pub fn sized(
    alloc: Global,
    tags: &Tags,
    pointer: TypedExpr,
    mode: TypedExpr,
    mode_at: Place,
    at: Place,
) -> Result<TypedExpr, Fault>
    ensures { Gives result (sized tags.now pointer mode mode_at at) }
{
    let judged = judge_mode(tags, &mode, mode_at);
    let ((pointer, mode), _) = both((pointer, mode), judged)?;
    sized_with(alloc, pointer, mode, at)
}
