//! What a source is cut into.

use crate::tokens::TokenKind;
use fc_base::Rule;

/// What a byte string is as a whole. Newlines end a line; `Space` is other white space or a comment; `Refused` is a
/// spelling that breaks a rule, at the byte with this offset from its start.
#[derive(Drop)]
pub enum Piece {
    Space,
    Newline,
    Token(TokenKind),
    Refused(Rule, usize),
}
