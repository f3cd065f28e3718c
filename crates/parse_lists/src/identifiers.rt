//! Names with their places.

ghost use Rattle.std.specs.Prelude.{◌≡◌, IfOk};
ghost use Rattle.parse_meaning.specs.Expressions.{identifier};

use c_tokens::Token;
use c_tree::Identifier;
use fc_base::NoMemory;
use parse_tokens::copy_text;
use std::alloc::Global;

/// The name of a token, and its place.
pub fn copy_identifier(alloc: Global, token: &Token) -> Result<Identifier, NoMemory>
    ensures { IfOk result (λ x. x ≡ identifier token.now) }
{
    Ok(Identifier {
        name: copy_text(alloc, token)?,
        place: token.place,
    })
}
