//! Which expressions designate places, which arrays are trailing, and where an expression begins in the text.

ghost use Rattle.std.specs.Prelude.{◌≡◌, List};
ghost use Rattle.c_layout.specs.declared.tags.TagDef.{TagDef};
ghost use Rattle.c_layout.specs.declared.types.CType.{out-CType};
ghost use Rattle.c_tree.specs.FirstTokens.{first_place};
ghost use Rattle.c_tree.specs.Paths.{is_last, is_last_behind, is_trailing, step};
ghost use Rattle.c_tree.specs.Typed.{is_place};

use crate::operators::PrefixOp;
use crate::programs::TypedTree;
use crate::typed::{TypedExpr, TypedKind};
use c_layout::{CType, Tags, is_array, is_pointer};
use fc_base::Place;

/// Whether the expression designates a place (C11 6.3.2.1p1). What `?:`, a comma or an assignment gives is none.
pub fn is_place(expr: &TypedExpr) -> bool
    ensures { result ≡ is_place expr.now }
{
    match &expr.kind {
        TypedKind::Local(_) | TypedKind::Object(_) | TypedKind::Index { .. } => true,
        TypedKind::Prefix { op, .. } => *op == PrefixOp::Indirection,
        TypedKind::Member { base, arrow, .. } => *arrow || is_place(base.get()),
        _ => false,
    }
}

/// Whether the member is the last of a structure, or one of a union.
fn is_last(tags: &Tags, ctype: &CType, member: u32) -> bool
    ensures { result ≡ is_last tags.now member (out-CType ctype.now) }
{
    match ctype {
        CType::Struct(tag) => match tags.get(*tag) {
            Some(def) => member as usize + 1 == def.members.len(),
            None => false,
        },
        CType::Union(_) => true,
        _ => false,
    }
}

/// The same of what a pointer points to.
fn is_last_behind(tags: &Tags, ctype: &CType, member: u32) -> bool
    ensures { result ≡ is_last_behind tags.now member (out-CType ctype.now) }
{
    match ctype {
        CType::Ptr(of) => is_last(tags, of.get(), member),
        _ => false,
    }
}

/// Whether the expression is an array that typing made a pointer.
fn is_decayed(expr: &TypedExpr) -> bool
    ensures { (tags : List TagDef) → result ≡ (step tags expr.now).way.decayed }
{
    match &expr.kind {
        TypedKind::Cast { of, added } => *added && is_array(&of.get().ctype),
        _ => false,
    }
}

/// Whether a pointer path leads to the place, by last members alone since the last pointer.
fn trails(tags: &Tags, expr: &TypedExpr) -> bool
    ensures { result ≡ (step tags.now expr.now).way.trails }
{
    match &expr.kind {
        TypedKind::Prefix { op, .. } => *op == PrefixOp::Indirection,
        TypedKind::Index { base, index } => {
            if is_pointer(&base.get().ctype) {
                !is_decayed(base.get())
            } else {
                !is_decayed(index.get())
            }
        }
        TypedKind::Member {
            base,
            arrow,
            member,
        } => {
            if *arrow {
                is_last_behind(tags, &base.get().ctype, *member)
            } else {
                trails(tags, base.get()) && is_last(tags, &base.get().ctype, *member)
            }
        }
        _ => false,
    }
}

/// Whether the node is an array member that a pointer path leads to, by last members alone since the last pointer: its
/// end is that of its object.
pub fn is_trailing(tree: &TypedTree, node: &TypedExpr) -> bool
    ensures { result ≡ is_trailing tree.now.tags node.now }
{
    is_trailing_member(&tree.tags, node)
}

/// The same by the structures and unions alone.
pub fn is_trailing_member(tags: &Tags, node: &TypedExpr) -> bool
    ensures { result ≡ is_trailing tags.now node.now }
{
    match &node.kind {
        TypedKind::Member { .. } => is_array(&node.ctype) && trails(tags, node),
        _ => false,
    }
}

/// The place of the first token of an expression, brackets left away.
pub fn first_place(expr: &TypedExpr) -> Place
    ensures { result ≡ first_place expr.now }
{
    match &expr.kind {
        TypedKind::Comma(all) => match all.as_slice() {
            [] => expr.place,
            [first, ..] => first_place(first),
        },
        TypedKind::Assign { to: first, .. }
        | TypedKind::Cond { test: first, .. }
        | TypedKind::Binary { a: first, .. }
        | TypedKind::Cast {
            of: first,
            added: true,
        }
        | TypedKind::Postfix { of: first, .. }
        | TypedKind::Index { base: first, .. }
        | TypedKind::Member { base: first, .. } => first_place(first.get()),
        _ => expr.place,
    }
}
