//! Where trees are let go: each part of a tree by one function here, which the crates that read call, so that none of them
//! proves again how a tree is freed.
#![tactic(auto)]

mod boxes;
mod let_go;
mod lists;
mod nodes;
mod typed_exprs;
mod typed_lists;
mod typed_nodes;

pub use boxes::{IntoBox, expr_list};
pub use let_go::{LetGo, both, pair};
pub use lists::{
    DeclaratorItems, EnumeratorItems, ExprItems, ExternalItems, InitDeclaratorItems, InitItems,
    MemberDeclItems, ParamItems, SpecItems, StmtItems,
};
pub use typed_exprs::{
    typed_assign, typed_binary, typed_cast, typed_cond, typed_index, typed_member, typed_postfix,
    typed_prefix, typed_size_call, typed_sizeof,
};
pub use typed_lists::{
    CTypeItems, FunctionItems, LocalItems, TypedDeclareItems, TypedExprItems, TypedInitItems,
    TypedStmtItems,
};
