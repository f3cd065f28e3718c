//! The macros that no line defines: those of headers, and `_FORTIFY_SOURCE`.

ghost use Rattle.std.specs.Prelude.{◌≡◌, codes};
ghost use Rattle.c_tokens.specs.declared.TokenKind.TheVariants as token;
ghost use Rattle.c_tokens.specs.declared.Punct.TheVariants as punct;
ghost use Rattle.macro_meaning.specs.Definitions.{number_token};

use c_tokens::{NumberKind, Punct, TokenKind};
use fc_base::{NoMemory, Text};
use macro_items::Macro;
use std::alloc::Global;

/// The tokens that the macros are made of.
#[derive(Drop)]
pub struct Builtins {
    pub left_paren: TokenKind,
    pub right_paren: TokenKind,
    pub star: TokenKind,
    pub minus: TokenKind,
    pub void: TokenKind,
    pub zero: TokenKind,
    pub one: TokenKind,
    pub two: TokenKind,
    pub three: TokenKind,
    ghost left_paren_is: { left_paren ≡ token.Punct punct.LeftParen },
    ghost right_paren_is: { right_paren ≡ token.Punct punct.RightParen },
    ghost star_is: { star ≡ token.Punct punct.Star },
    ghost minus_is: { minus ≡ token.Punct punct.Minus },
    ghost void_is: { void ≡ token.Name (codes "void") },
    ghost zero_is: { zero ≡ number_token 0 },
    ghost one_is: { one ≡ number_token 1 },
    ghost two_is: { two ≡ number_token 2 },
    ghost three_is: { three ≡ number_token 3 },
}

/// A macro's name, and what it stands for.
pub type Entry<'a> = (&'a [u8], Macro<'a>);

/// The token of a number's spelling, where `0` is an octal number_token.
fn number(value: u64) -> TokenKind
    ensures { result ≡ number_token value }
{
    TokenKind::Number {
        value,
        kind: NumberKind {
            decimal: value != 0,
            unsigned: false,
            longs: 0,
        },
    }
}

/// Makes the tokens.
pub fn make_builtins(alloc: Global) -> Result<Builtins, NoMemory> {
    let void = Text::from_bytes(alloc, b"void")?;
    Ok(Builtins {
        left_paren: TokenKind::Punct(Punct::LeftParen),
        right_paren: TokenKind::Punct(Punct::RightParen),
        star: TokenKind::Punct(Punct::Star),
        minus: TokenKind::Punct(Punct::Minus),
        void: TokenKind::Name(void),
        zero: number(0),
        one: number(1),
        two: number(2),
        three: number(3),
    })
}
