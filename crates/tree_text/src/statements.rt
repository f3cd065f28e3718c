//! Statements.

use crate::declarations::push_init_declarators;
use crate::expressions::push_expr;
use crate::output::Output;
use crate::specifiers::push_specs;
use c_tree::{Expr, ForHead, InitDeclarator, Spec, Stmt};
use sqlite_items::Items;

/// A leaf or `..`, and `_` for none.
fn push_optional(out: &mut Output, expr: &Option<Expr>) {
    match expr {
        Some(expr) => push_expr(out, expr, 0),
        None => out.push_str("_"),
    }
}

/// An expression between two texts.
fn push_test(out: &mut Output, before: &str, test: &Expr, behind: &str) {
    out.push_str(before);
    push_expr(out, test, 0);
    out.push_str(behind);
}

pub fn push_declaration(
    out: &mut Output,
    specs: &Items<Spec>,
    declarators: &Items<InitDeclarator>,
) {
    push_specs(out, specs);
    push_init_declarators(out, declarators);
}

fn push_for_head(out: &mut Output, head: &ForHead) {
    match head {
        ForHead::Expr(expr) => push_optional(out, expr),
        ForHead::Declare { specs, declarators } => push_declaration(out, specs, declarators),
    }
}

/// `(for a; b; c `
fn push_for(out: &mut Output, head: &ForHead, test: &Option<Expr>, step: &Option<Expr>) {
    out.push_str("(for ");
    push_for_head(out, head);
    out.push_str("; ");
    push_optional(out, test);
    out.push_str("; ");
    push_optional(out, step);
    out.push_str(" ");
}

/// What stands before the statements in a statement, or all of a statement without any.
fn push_opening(out: &mut Output, stmt: &Stmt) {
    match stmt {
        Stmt::Block { .. } => out.push_str("{"),
        Stmt::Declare {
            specs,
            declarators,
            ..
        } => push_declaration(out, specs, declarators),
        Stmt::Expr { expr, .. } => push_optional(out, expr),
        Stmt::If { test, .. } => push_test(out, "(if ", test, " "),
        Stmt::While { test, .. } => push_test(out, "(while ", test, " "),
        Stmt::Do { .. } => out.push_str("(do "),
        Stmt::For {
            head,
            test,
            step,
            ..
        } => push_for(out, head, test, step),
        Stmt::Switch { subject, .. } => push_test(out, "switch ", subject, "{"),
        Stmt::Break { .. } => out.push_str("break"),
        Stmt::Continue { .. } => out.push_str("continue"),
        Stmt::Return { value, .. } => {
            out.push_str("return ");
            push_optional(out, value);
        }
        Stmt::Case { value, .. } => push_test(out, "case ", value, ""),
        Stmt::Default { .. } => out.push_str("default"),
    }
}

/// What stands behind the statements in a statement.
fn push_closing(out: &mut Output, stmt: &Stmt) {
    match stmt {
        Stmt::Block { .. } | Stmt::Switch { .. } => out.push_str("}"),
        Stmt::If { .. } | Stmt::While { .. } | Stmt::For { .. } => out.push_str(")"),
        Stmt::Do { test, .. } => push_test(out, " while ", test, ")"),
        _ => {}
    }
}

pub fn push_stmt(out: &mut Output, stmt: &Stmt, levels: u32) {
    if levels == 0 {
        return out.push_str("..");
    }
    push_opening(out, stmt);
    match stmt {
        Stmt::Block { items, .. } | Stmt::Switch { items, .. } => for one in items.as_slice() {
            push_stmt(out, one, levels - 1);
            out.push_str("; ");
        },
        Stmt::If { yes, no, .. } => {
            push_stmt(out, yes.get(), levels - 1);
            if let Some(no) = no {
                out.push_str(" else ");
                push_stmt(out, no.get(), levels - 1);
            }
        }
        Stmt::While { body, .. } | Stmt::Do { body, .. } | Stmt::For { body, .. } => {
            push_stmt(out, body.get(), levels - 1);
        }
        _ => {}
    }
    push_closing(out, stmt);
}
