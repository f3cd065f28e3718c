//! Copies of what tokens hold, for trees.

ghost use Rattle.std.specs.Prelude.{◌≡◌, IfOk};
ghost use Rattle.parse_meaning.specs.Terminals.{text_of};

use c_tokens::{Token, TokenKind};
use fc_base::{NoMemory, Text};
use std::alloc::Global;

/// The bytes of a name or of a string literal.
pub fn text_of(token: &Token) -> &[u8]
    ensures { result.now ≡ text_of token.now }
{
    match &token.kind {
        TokenKind::Name(text) | TokenKind::Str(text) => text.bytes(),
        _ => &[],
    }
}

/// A copy of the bytes of a name or of a string literal.
pub fn copy_text(alloc: Global, token: &Token) -> Result<Text, NoMemory>
    ensures { IfOk result (λ text. text ≡ text_of token.now) }
{
    Text::from_bytes(alloc, text_of(token))
}
