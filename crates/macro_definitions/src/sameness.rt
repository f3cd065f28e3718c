//! When two definitions of a macro are the same (C11 6.10.3p2).

ghost use Rattle.std.specs.Prelude.{◌≡◌, ◌==◌};
ghost use Rattle.std.specs.Cmp.Lexicographic.{pointwise};
ghost use Rattle.macro_meaning.specs.Macros.{same_name};
ghost use Rattle.macro_meaning.specs.Sameness.{same_header, same_number, same_kind, same_part, same_meaning};
ghost use Rattle.macro_items.specs.Views.{names, body_part_view, body_part_views, meaning_view};

use c_tokens::{HeaderId, NumberKind, TokenKind};
use indexmap::IndexSet;
use macro_items::{BodyPart, Macro};

/// Whether two headers are one.
pub fn same_header(a: HeaderId, b: HeaderId) -> bool
    ensures { result ≡ same_header a b }
{
    a == b
}

fn same_number(a: NumberKind, b: NumberKind) -> bool
    ensures { result ≡ same_number a b }
{
    a.decimal == b.decimal && a.unsigned == b.unsigned && a.longs == b.longs
}

fn same_kind(a: &TokenKind, b: &TokenKind) -> bool
    ensures { result ≡ same_kind a.now b.now }
{
    match a {
        TokenKind::Name(a) => match b {
            TokenKind::Name(b) => a.bytes() == b.bytes(),
            _ => false,
        },
        TokenKind::Number { value: v, kind: a } => match b {
            TokenKind::Number { value: w, kind: b } => *v == *w && same_number(*a, *b),
            _ => false,
        },
        TokenKind::CharConst(a) => match b {
            TokenKind::CharConst(b) => *a == *b,
            _ => false,
        },
        TokenKind::Str(a) => match b {
            TokenKind::Str(b) => a.bytes() == b.bytes(),
            _ => false,
        },
        TokenKind::Punct(a) => match b {
            TokenKind::Punct(b) => a.is_spelled_as(*b),
            _ => false,
        },
        TokenKind::HeaderName(a) => match b {
            TokenKind::HeaderName(b) => a.bytes() == b.bytes(),
            _ => false,
        },
        TokenKind::Header(a) => match b {
            TokenKind::Header(b) => same_header(*a, *b),
            _ => false,
        },
    }
}

fn same_part(a: BodyPart<'_>, b: BodyPart<'_>) -> bool
    ensures { result ≡ same_part (body_part_view a.entry) (body_part_view b.entry) }
{
    match a {
        BodyPart::Plain(a, _) => match b {
            BodyPart::Plain(b, _) => same_kind(a, b),
            BodyPart::Parameter(_) => false,
        },
        BodyPart::Parameter(k) => match b {
            BodyPart::Plain(..) => false,
            BodyPart::Parameter(l) => k == l,
        },
    }
}

fn same_body(a: &[BodyPart<'_>], b: &[BodyPart<'_>]) -> bool
    ensures { result ≡ pointwise same_part (body_part_views a.now) (body_part_views b.now) }
{
    if a.len() != b.len() {
        return false;
    }
    for i in 0..a.len() {
        if !same_part(a[i], b[i]) {
            return false;
        }
    }
    true
}

fn same_names(a: &IndexSet<&[u8]>, b: &IndexSet<&[u8]>) -> bool
    ensures { result ≡ pointwise same_name (names a.now.keys) (names b.now.keys) }
{
    a.as_slice() == b.as_slice()
}

/// Whether two macros have the same parameters and the same replacement list, whatever is spaced.
pub fn same_meaning(a: &Macro<'_>, b: &Macro<'_>) -> bool
    ensures { result ≡ same_meaning (meaning_view a.now) (meaning_view b.now) }
{
    let parameters = match &a.parameters {
        None => b.parameters.is_none(),
        Some(names) => match &b.parameters {
            None => false,
            Some(others) => same_names(names, others),
        },
    };
    parameters && same_body(&a.body, &b.body)
}
