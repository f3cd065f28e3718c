//! What is known between two directives.

ghost use Rattle.std.specs.Prelude.{◌≡◌, OnOk, reverse, Some, None};
ghost use Rattle.macro_meaning.specs.Macros.{with_macro};
ghost use Rattle.macro_meaning.specs.Moves.{is_taken, takes};
ghost use Rattle.macro_items.specs.Views.{table, meaning_view};

use c_tokens::HeaderId;
use macro_items::{Macro, Macros};
use macro_lines::Builtins;
use macro_meaning::{Group, GroupState};
use std::alloc::{AllocError, Global};

/// The macros, the open conditionals, and the headers so far; the allocator, and the tokens of which the macros of headers
/// are made.
#[derive(Drop)]
pub struct State<'a> {
    pub alloc: Global,
    pub tokens: &'a Builtins,
    pub macros: Macros<'a>,
    pub groups: Vec<Group>,
    pub headers: Vec<HeaderId>,
}

fn is_taken(state: GroupState) -> bool
    ensures { result ≡ is_taken state }
{
    matches!(state, GroupState::Taken)
}

/// The innermost open group is taken, or none is open.
pub fn takes(groups: &[Group]) -> bool
    ensures { result ≡ takes (reverse groups.now) }
{
    match groups {
        [.., group] => is_taken(group.state),
        [] => true,
    }
}

/// Lets a name stand for this.
pub fn set_macro<'a>(
    macros: &mut Macros<'a>,
    name: &'a [u8],
    meaning: Macro<'a>,
) -> Result<(), AllocError>
    ensures { OnOk result (table macros.new ≡ with_macro name.now (Some (meaning_view meaning.entry)) (table macros.old)) }
{
    macros.insert(name, meaning)?;
    Ok(())
}

/// Takes a name out. The last macro goes to its place in the table, so that no other one moves: nothing sees their order.
pub fn unset_macro<'a>(macros: &mut Macros<'a>, name: &[u8])
    ensures { table macros.new ≡ with_macro name.now None (table macros.old) }
{
    let _ = macros.swap_remove(name);
}
