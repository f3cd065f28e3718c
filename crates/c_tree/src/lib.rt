//! The tree of a source as it is written, and the tree that typing makes of it.
#![tactic(auto)]

mod constants;
mod conversions;
mod externals;
mod laws;
mod limits;
mod nodes;
mod operators;
mod paths;
mod programs;
mod statements;
mod typed;
mod weights;

pub use constants::{Constant, constant_of, evaluated};
pub use conversions::{Rank, common, number_type, rank_of, ranked};
pub use externals::{External, FileTree};
pub use laws::counts_law;
pub use limits::{HEIGHT_LIMIT, TYPED_HEIGHT_LIMIT};
pub use nodes::{
    Aggregate, Attribute, BasicWord, Declarator, Enumerator, Expr, ExprKind, Identifier,
    MemberDecl, Param, Params, PointerWord, Spec, TypeName,
};
pub use operators::{AssignOp, BinaryOp, PostfixOp, PrefixOp, int_type};
pub use paths::{first_place, is_place, is_trailing, is_trailing_member};
pub use programs::{Counts, DataDef, FnDef, Link, LocalDef, TypedTree};
pub use statements::{ForHead, Init, InitDeclarator, Stmt};
pub use typed::{Callee, TypedDeclare, TypedExpr, TypedForHead, TypedInit, TypedKind, TypedStmt};
pub use weights::{frame_of, weight_of};
