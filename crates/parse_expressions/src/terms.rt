//! The rules of expressions with all their operands and operators.

use parse_type_names::Grammar;

/// The rules of expressions, over those of type names.
#[derive(Clone, Copy)]
pub struct Terms<F> {
    pub grammar: Grammar<F>,
}
