//! Declarators, initialisers, and lists of both.

use crate::expressions::push_expr;
use crate::output::Output;
use c_tree::{Declarator, Expr, Init, InitDeclarator, Params};
use sqlite_items::{Boxed, Items};

/// How many nodes one in another are shown of a declarator, an initialiser or a statement.
pub const LEVELS: u32 = 100;

fn push_params(out: &mut Output, params: &Params) {
    match params {
        Params::Empty => out.push_str(" function()"),
        Params::Void => out.push_str(" function(void)"),
        Params::List(params) => out.push_count(" function(", params.len(), ")"),
    }
}

fn push_bound(out: &mut Output, bound: &Option<Boxed<Expr>>) {
    out.push_str(" array");
    if let Some(bound) = bound {
        push_expr(out, bound.get(), 0);
    }
}

/// What the declarator is from its name outwards.
pub fn push_declarator(out: &mut Output, declarator: &Declarator, levels: u32) {
    if levels == 0 {
        return out.push_str("..");
    }
    match declarator {
        Declarator::Pointer { words, of, .. } => {
            push_declarator(out, of.get(), levels - 1);
            out.push_count(" pointer", words.len(), "");
        }
        Declarator::Name { name, .. } => out.push_text(name),
        Declarator::Omitted { .. } => out.push_str("_"),
        Declarator::Array { of, bound, .. } => {
            push_declarator(out, of.get(), levels - 1);
            push_bound(out, bound);
        }
        Declarator::Function { of, params, .. } => {
            push_declarator(out, of.get(), levels - 1);
            push_params(out, params);
        }
    }
}

fn push_init(out: &mut Output, init: &Init, levels: u32) {
    if levels == 0 {
        return out.push_str("..");
    }
    match init {
        Init::Expr(expr) => push_expr(out, expr, 0),
        Init::List { items, .. } => {
            out.push_str("{");
            for item in items.as_slice() {
                push_init(out, item, levels - 1);
                out.push_str(" ");
            }
            out.push_str("}");
        }
    }
}

fn push_init_declarator(out: &mut Output, one: &InitDeclarator) {
    push_declarator(out, &one.declarator, LEVELS);
    for list in one.attributes.as_slice() {
        out.push_count(" attributes", list.len(), "");
    }
    if let Some(init) = &one.init {
        out.push_str(" = ");
        push_init(out, init, LEVELS);
    }
}

pub fn push_init_declarators(out: &mut Output, all: &Items<InitDeclarator>) {
    let mut before = "";
    for one in all.as_slice() {
        out.push_str(before);
        push_init_declarator(out, one);
        before = ", ";
    }
}
