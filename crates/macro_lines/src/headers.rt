//! The macros that no line defines: those of headers, and `_FORTIFY_SOURCE`.

ghost use Rattle.std.specs.Prelude.{◌≡◌, IfOk, false, map, [], ◌∷◌};
ghost use Rattle.c_headers.specs.declared.headers.MacroValue.TheVariants as value;
ghost use Rattle.c_headers.specs.Headers.{macro_view};
ghost use Rattle.macro_meaning.specs.Macros.{plain};
ghost use Rattle.macro_meaning.specs.Definitions.{plain_macro, value_tokens, header_macro, header_macros, fortify_source};
ghost use Rattle.macro_items.specs.Views.{meaning_view, body_part_views};
ghost use Rattle.macro_lines.specs.Lines.{entry_view, entry_views};

use crate::builtins::{Builtins, Entry};
use c_headers::{HeaderMacro, MacroValue};
use c_tokens::{HeaderId, TokenKind};
use fc_base::Level;
use macro_items::{BodyPart, Macro};
use std::alloc::{AllocError, Global};

fn plain_macro<'a>(alloc: Global, parts: &[BodyPart<'a>]) -> Result<Macro<'a>, AllocError>
    ensures { IfOk result (λ m. meaning_view m ≡ plain_macro (body_part_views parts.now)) }
{
    Ok(Macro {
        parameters: None,
        body: Vec::from_slice(alloc, parts)?,
    })
}

fn null_pointer<'a>(alloc: Global, tokens: &'a Builtins) -> Result<Macro<'a>, AllocError>
    ensures { IfOk result (λ m. meaning_view m ≡ plain_macro (value_tokens value.NullPointer)) }
{
    plain_macro(
        alloc,
        &[
            BodyPart::Plain(&tokens.left_paren, false),
            BodyPart::Plain(&tokens.left_paren, false),
            BodyPart::Plain(&tokens.void, false),
            BodyPart::Plain(&tokens.star, false),
            BodyPart::Plain(&tokens.right_paren, false),
            BodyPart::Plain(&tokens.zero, false),
            BodyPart::Plain(&tokens.right_paren, false),
        ],
    )
}

fn minus_one<'a>(alloc: Global, tokens: &'a Builtins) -> Result<Macro<'a>, AllocError>
    ensures { IfOk result (λ m. meaning_view m ≡ plain_macro (value_tokens value.MinusOne)) }
{
    plain_macro(
        alloc,
        &[
            BodyPart::Plain(&tokens.left_paren, false),
            BodyPart::Plain(&tokens.minus, false),
            BodyPart::Plain(&tokens.one, false),
            BodyPart::Plain(&tokens.right_paren, false),
        ],
    )
}

fn number<'a>(alloc: Global, token: &'a TokenKind) -> Result<Macro<'a>, AllocError>
    ensures { IfOk result (λ m. meaning_view m ≡ plain_macro (plain token.now false ∷ [])) }
{
    plain_macro(alloc, &[BodyPart::Plain(token, false)])
}

/// What stands for a value of a header's macro.
fn value<'a>(alloc: Global, tokens: &'a Builtins, of: MacroValue) -> Result<Macro<'a>, AllocError>
    ensures { IfOk result (λ m. meaning_view m ≡ plain_macro (value_tokens of)) }
{
    match of {
        MacroValue::NullPointer => null_pointer(alloc, tokens),
        MacroValue::MinusOne => minus_one(alloc, tokens),
        MacroValue::Zero => number(alloc, &tokens.zero),
        MacroValue::One => number(alloc, &tokens.one),
        MacroValue::Two => number(alloc, &tokens.two),
    }
}

fn entry<'a>(alloc: Global, tokens: &'a Builtins, of: &HeaderMacro) -> Result<Entry<'a>, AllocError>
    ensures { IfOk result (λ e. entry_view e ≡ header_macro (macro_view of.now)) }
{
    let meaning = value(alloc, tokens, of.value)?;
    Ok((of.name.as_bytes(), meaning))
}

fn entries<'a>(
    alloc: Global,
    tokens: &'a Builtins,
    macros: &[HeaderMacro],
) -> Result<Vec<Entry<'a>>, AllocError>
    ensures { IfOk result (λ v. entry_views v.items ≡ map (λ m. header_macro (macro_view m)) macros.now) }
{
    let mut entries = Vec::new(alloc);
    for m in macros {
        entries.push(entry(alloc, tokens, m)?)?;
    }
    Ok(entries)
}

/// The macros of a header.
pub fn header_macros<'a>(
    alloc: Global,
    tokens: &'a Builtins,
    header: HeaderId,
) -> Result<Vec<Entry<'a>>, AllocError>
    ensures { IfOk result (λ v. entry_views v.items ≡ header_macros header) }
{
    entries(alloc, tokens, header.macros())
}

/// The feature test macro, which is defined before the first line.
pub fn fortify_source<'a>(
    alloc: Global,
    tokens: &'a Builtins,
    level: Level,
) -> Result<Entry<'a>, AllocError>
    ensures { IfOk result (λ e. entry_view e ≡ fortify_source level) }
{
    let digit = match level {
        Level::Zero => &tokens.zero,
        Level::Three => &tokens.three,
    };
    Ok((b"_FORTIFY_SOURCE", number(alloc, digit)?))
}
