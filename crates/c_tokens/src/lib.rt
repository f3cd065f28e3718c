//! The tokens of a source (C11 6.4).
#![tactic(auto)]

mod laws;
mod pieces;
mod puncts;
mod spellings;
mod tokens;

pub use c_headers::HeaderId;
pub use laws::{
    characters_of_bodies, ends_of_comments, ends_of_literals, kinds_of_tokens,
    spellings_of_punctuators,
};
pub use pieces::Piece;
pub use puncts::Punct;
pub use spellings::spelling;
pub use tokens::{NumberKind, TOKEN_LIMIT, Token, TokenKind};
