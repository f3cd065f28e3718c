//! What stands in a declarator by its form alone (C11 6.7.6).

ghost use Rattle.std.specs.Prelude.{◌≡◌, count_by, Option};
ghost use Rattle.std.specs.Option.{option_map};
ghost use Rattle.elab_meaning.specs.Declarations.{is_star};
ghost use Rattle.elab_meaning.specs.Trees.{read_declarator};

use c_tree::{Declarator, PointerWord};
use fc_base::{Place, Text};

/// How many stars there are.
pub fn stars(words: &[PointerWord]) -> usize
    ensures { result ≡ count_by is_star words.now }
{
    words
        .iter()
        .filter(|word| **word == PointerWord::Star)
        .count()
}

/// The name that is declared, none where it is left out.
pub fn name_of(declarator: &Declarator) -> Option<&Text>
    ensures { option_map (λ name. name.now) result ≡ (read_declarator declarator.now).name }
{
    match declarator {
        Declarator::Name { name, .. } => Some(name),
        Declarator::Omitted { .. } => None,
        Declarator::Pointer { of, .. }
        | Declarator::Array { of, .. }
        | Declarator::Function { of, .. } => name_of(of.get()),
    }
}

/// The place of its first token.
pub fn place_of(declarator: &Declarator) -> Place
    ensures { result ≡ (read_declarator declarator.now).place }
{
    match declarator {
        Declarator::Name { place, .. }
        | Declarator::Omitted { place }
        | Declarator::Pointer { place, .. }
        | Declarator::Array { place, .. }
        | Declarator::Function { place, .. } => *place,
    }
}

/// Whether it is a name alone, or where the name is left out nothing.
fn is_bare(declarator: &Declarator) -> bool
    ensures { result ≡ (read_declarator declarator.now).is_bare }
{
    matches!(
        declarator,
        Declarator::Name { .. } | Declarator::Omitted { .. }
    )
}

/// Whether a list of parameters stands next to the name, so that a function is declared.
pub fn is_function(declarator: &Declarator) -> bool
    ensures { result ≡ (read_declarator declarator.now).is_function }
{
    match declarator {
        Declarator::Name { .. } | Declarator::Omitted { .. } => false,
        Declarator::Pointer { of, .. } | Declarator::Array { of, .. } => is_function(of.get()),
        Declarator::Function { of, .. } => is_bare(of.get()) || is_function(of.get()),
    }
}
