//! Nodes put into boxes, and in front of others. Where memory is wanting they are let go here.

ghost use Rattle.std.specs.Prelude.{◌≡◌, ◌∷◌, IfOk};

use crate::let_go::LetGo;
use c_tree::{Declarator, Expr, Stmt, TypedExpr, TypedStmt};
use sqlite_items::{Boxed, Items};
use std::alloc::{AllocError, Global};

/// A node that stands boxed in other nodes.
pub trait IntoBox: LetGo {
    /// The node in a box.
    fn boxed(alloc: Global, node: Self) -> Result<Boxed<Self>, AllocError>
        ensures { IfOk result (λ b. b ≡ node) };
}

impl IntoBox for Expr {
    fn boxed(alloc: Global, node: Expr) -> Result<Boxed<Expr>, AllocError> {
        Boxed::new(alloc, node)
    }
}

impl IntoBox for Declarator {
    fn boxed(alloc: Global, node: Declarator) -> Result<Boxed<Declarator>, AllocError> {
        Boxed::new(alloc, node)
    }
}

impl IntoBox for Stmt {
    fn boxed(alloc: Global, node: Stmt) -> Result<Boxed<Stmt>, AllocError> {
        Boxed::new(alloc, node)
    }
}

impl IntoBox for TypedExpr {
    fn boxed(alloc: Global, node: TypedExpr) -> Result<Boxed<TypedExpr>, AllocError> {
        Boxed::new(alloc, node)
    }
}

impl IntoBox for TypedStmt {
    fn boxed(alloc: Global, node: TypedStmt) -> Result<Boxed<TypedStmt>, AllocError> {
        Boxed::new(alloc, node)
    }
}

/// An expression in front of others.
pub fn expr_list(alloc: Global, first: Expr, others: Items<Expr>) -> Result<Items<Expr>, AllocError>
    ensures { IfOk result (λ all. all ≡ first ∷ others) }
{
    let mut all = Items::new(alloc);
    all.push(first)?;
    all.append(others)?;
    Ok(all)
}
