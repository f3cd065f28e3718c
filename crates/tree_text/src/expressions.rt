//! Expressions, and the type names in them.

use crate::labels::{label_of, label_of_word};
use crate::output::Output;
use crate::specifiers::push_type_specs;
use c_tree::{Declarator, Expr, ExprKind, PointerWord, TypeName};
use fc_base::Text;

fn push_quoted(out: &mut Output, text: &Text) {
    out.push_str("\"");
    out.push_text(text);
    out.push_str("\"");
}

/// A leaf, or `..` for an operator with its operands.
fn push_leaf(out: &mut Output, kind: &ExprKind) {
    match kind {
        ExprKind::Name(name) => out.push_text(name),
        ExprKind::Number { value, .. } => out.push_number(*value),
        ExprKind::CharConst(byte) => out.push_number(u64::from(*byte)),
        ExprKind::Str(text) => push_quoted(out, text),
        _ => out.push_str(".."),
    }
}

fn push_head(out: &mut Output, label: &str, col: u32) {
    out.push_str("(");
    out.push_str(label);
    out.push_str("@");
    out.push_number(u64::from(col));
}

fn push_words(out: &mut Output, words: &[PointerWord]) {
    for word in words {
        out.push_str(label_of_word(*word));
    }
}

/// The stars, the column of the name that is left out, and the bounds.
#[cycle(shown)]
fn push_abstract(out: &mut Output, declarator: &Declarator, levels: u32) {
    if levels == 0 {
        return out.push_str("..");
    }
    match declarator {
        Declarator::Pointer { words, of, .. } => {
            push_words(out, words.as_slice());
            push_abstract(out, of.get(), levels - 1);
        }
        Declarator::Omitted { place } => out.push_number(u64::from(place.col)),
        Declarator::Array { of, bound, .. } => {
            push_abstract(out, of.get(), levels - 1);
            out.push_str("[");
            if let Some(bound) = bound {
                push_expr(out, bound.get(), levels - 1);
            }
            out.push_str("]");
        }
        Declarator::Name { .. } | Declarator::Function { .. } => out.push_str("other"),
    }
}

/// `<const T * 2[3]>`
#[cycle(shown)]
fn push_type(out: &mut Output, name: &TypeName, levels: u32) {
    out.push_str("<");
    push_type_specs(out, &name.specs);
    push_abstract(out, &name.declarator, levels);
    out.push_str(">");
}

/// An operand behind a blank.
#[cycle(shown)]
fn push_operand(out: &mut Output, operand: &Expr, levels: u32) {
    out.push_str(" ");
    push_expr(out, operand, levels);
}

#[cycle(shown)]
fn push_pair(out: &mut Output, first: &Expr, second: &Expr, levels: u32) {
    push_operand(out, first, levels);
    push_operand(out, second, levels);
}

#[cycle(shown)]
fn push_list(out: &mut Output, operands: &[Expr], levels: u32) {
    for operand in operands {
        push_operand(out, operand, levels);
    }
}

/// ` (to@1 <T 2>) x`, of a cast in this column.
#[cycle(shown)]
fn push_cast(out: &mut Output, to: &TypeName, of: &Expr, col: u32, levels: u32) {
    out.push_str(" ");
    push_head(out, "to", col);
    out.push_str(" ");
    push_type(out, to, levels);
    out.push_str(")");
    push_operand(out, of, levels);
}

/// ` f (args@1 a b)`, of a call in this column.
#[cycle(shown)]
fn push_call(out: &mut Output, callee: &Expr, args: &[Expr], col: u32, levels: u32) {
    push_operand(out, callee, levels);
    out.push_str(" ");
    push_head(out, "args", col);
    push_list(out, args, levels);
    out.push_str(")");
}

/// What stands behind an operator, each behind a blank.
#[cycle(shown)]
fn push_operands(out: &mut Output, expr: &Expr, levels: u32) {
    match &expr.kind {
        ExprKind::Comma(all) => push_list(out, all.as_slice(), levels),
        ExprKind::Assign { to, from, .. } => push_pair(out, to.get(), from.get(), levels),
        ExprKind::Cond { test, yes, no } => {
            push_pair(out, test.get(), yes.get(), levels);
            push_operand(out, no.get(), levels);
        }
        ExprKind::Binary { a, b, .. } => push_pair(out, a.get(), b.get(), levels),
        ExprKind::Cast { to, of } => push_cast(out, to, of.get(), expr.place.col, levels),
        ExprKind::Prefix { of, .. } | ExprKind::Postfix { of, .. } | ExprKind::SizeofExpr(of) => {
            push_operand(out, of.get(), levels)
        }
        ExprKind::SizeofType(name) => {
            out.push_str(" ");
            push_type(out, name, levels);
        }
        ExprKind::Index { base, index } => push_pair(out, base.get(), index.get(), levels),
        ExprKind::Call { callee, args } => {
            push_call(out, callee.get(), args.as_slice(), expr.place.col, levels)
        }
        ExprKind::Member { base, name, .. } => {
            push_operand(out, base.get(), levels);
            out.push_str(" ");
            out.push_text(name);
        }
        ExprKind::SizeCall { pointer, mode } => push_pair(out, pointer.get(), mode.get(), levels),
        ExprKind::Name(_) | ExprKind::Number { .. } | ExprKind::CharConst(_) | ExprKind::Str(_) =>
            {}
    }
}

/// The tree down to so many levels of operators. `(+@2 a b)` is an operator, the column of its node, and its operands.
#[cycle(shown)]
pub fn push_expr(out: &mut Output, expr: &Expr, levels: u32) {
    let label = label_of(&expr.kind);
    if levels == 0 || label.is_empty() {
        return push_leaf(out, &expr.kind);
    }
    push_head(out, label, expr.place.col);
    push_operands(out, expr, levels - 1);
    out.push_str(")");
}
