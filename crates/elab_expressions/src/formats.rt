//! The formats of prints, as far as a call's arguments go (C11 7.21.6.1).

ghost use Rattle.std.specs.Prelude.{◌≡◌, drop, is_some, true, if◌then◌else◌};
ghost use Rattle.std.specs.Option.{option_map};
ghost use Rattle.print_formats.specs.Formats.{directives_of};
ghost use Rattle.elab_conversions.specs.Answers.{Gives};
ghost use Rattle.elab_meaning.specs.Expressions.{argument_fits, is_integer_of};
ghost use Rattle.elab_meaning.specs.Trees.{read_expr};
ghost use Rattle.elab_meaning.specs.Typing.{judged};
ghost use Rattle.elab_expressions.specs.Words.{fits_rest, format_checks, takes, text_in, up_to_nul};

use c_layout::{CType, is_char, pointed};
use c_tree::{Expr, ExprKind, TypedExpr};
use elab_conversions::judge;
use fc_base::{Fault, Rule, Width};
use print_formats::{Directive, FormatState, FormatStep, Specifier, advance};

/// The bytes of a string literal.
pub fn text_of(expr: &Expr) -> Option<&[u8]>
    ensures { option_map (λ text. text.now) result ≡ text_in (read_expr expr.now).form }
{
    match &expr.kind {
        ExprKind::Str(text) => Some(text.bytes()),
        _ => None,
    }
}

/// The bytes before the first NUL.
fn up_to_nul(text: &[u8]) -> &[u8]
    ensures { result.now ≡ up_to_nul text.now }
{
    for i in 0..text.len() {
        if text[i] == 0 {
            return &text[..i];
        }
    }
    text
}

/// Whether bytes are a format.
fn is_format(bytes: &[u8]) -> bool
    ensures { result ≡ is_some (directives_of bytes.now) }
{
    let mut state = FormatState::Outside;
    for byte in bytes {
        match advance(state, *byte) {
            FormatStep::Malformed => return false,
            FormatStep::Goes(next) => state = next,
            FormatStep::Ends(_) => state = FormatState::Outside,
        }
    }
    matches!(state, FormatState::Outside)
}

/// The rules of an expression that stands as a format: a string literal, and a format up to its first NUL.
pub fn judge_format(format: &Expr) -> Result<(), Fault>
    ensures { Gives result (judged (read_expr format.now).place (format_checks (read_expr format.now).form) tt) }
{
    match text_of(format) {
        None => Err(Fault::refused(Rule::FormatLiteral, format.place)),
        Some(text) if is_format(up_to_nul(text)) => Ok(()),
        Some(_) => Err(Fault::refused(Rule::FormatSpec, format.place)),
    }
}

/// An integer that takes 8 bytes once it is promoted, or else 4.
fn is_integer_of(long: bool, ctype: &CType) -> bool
    ensures { result ≡ is_integer_of (if long then 8 else 4) ctype.now }
{
    match ctype {
        CType::Int { width, .. } => (*width == Width::W8) == long,
        _ => false,
    }
}

/// Whether an argument of this type is what a conversion takes.
fn argument_fits(specifier: Specifier, ctype: &CType) -> bool
    ensures { result ≡ argument_fits specifier ctype.now }
{
    match specifier {
        Specifier::Integer { of, .. } => is_integer_of(of == Width::W8, ctype),
        Specifier::Character => is_integer_of(false, ctype),
        Specifier::Text { .. } => match ctype {
            CType::Ptr(of) => is_char(of.get()),
            _ => false,
        },
    }
}

/// Whether all fits so far, and the next argument is what a conversion takes.
fn takes(fit: bool, specifier: Specifier, args: &[TypedExpr]) -> bool
    ensures { result ≡ takes fit specifier args.now }
{
    match args.first() {
        Some(arg) => fit && argument_fits(specifier, &arg.ctype),
        None => false,
    }
}

/// The arguments behind the next one.
fn behind_first(args: &[TypedExpr]) -> &[TypedExpr]
    ensures { result.now ≡ drop 1 args.now }
{
    match args.split_first() {
        Some((_, behind)) => behind,
        None => args,
    }
}

/// Whether arguments are those that bytes ask for, if these are a format.
fn all_fit(bytes: &[u8], args: &[TypedExpr]) -> bool
    ensures { result ≡ fits_rest true args.now (directives_of bytes.now) }
{
    let mut state = FormatState::Outside;
    let mut fit = true;
    let mut rest = args;
    for byte in bytes {
        match advance(state, *byte) {
            FormatStep::Malformed => return true,
            FormatStep::Goes(next) => state = next,
            FormatStep::Ends(Directive::Ordinary(_)) => state = FormatState::Outside,
            FormatStep::Ends(Directive::Converted(conversion)) => {
                state = FormatState::Outside;
                fit = takes(fit, conversion.specifier, rest);
                rest = behind_first(rest);
            }
        }
    }
    match state {
        FormatState::Outside => fit && rest.is_empty(),
        _ => true,
    }
}

/// Whether the arguments behind a format are those that it asks for, if it is one.
pub fn fits_format(text: &[u8], args: &[TypedExpr]) -> bool
    ensures { result ≡ fits_rest true args.now (directives_of (up_to_nul text.now)) }
{
    all_fit(up_to_nul(text), args)
}
