//! The parts of typed trees, from types up to a program.

use crate::let_go::LetGo;
use c_layout::{CType, Member, TagDef, Tags};
use c_tree::{
    DataDef, FnDef, LocalDef, TypedDeclare, TypedExpr, TypedForHead, TypedInit, TypedStmt,
    TypedTree,
};
use sqlite_items::Items;

impl LetGo for TypedExpr {
    fn let_go(self) {
        drop(self);
    }
}

impl LetGo for TypedInit {
    fn let_go(self) {
        drop(self);
    }
}

impl LetGo for TypedDeclare {
    fn let_go(self) {
        drop(self);
    }
}

impl LetGo for TypedForHead {
    fn let_go(self) {
        drop(self);
    }
}

impl LetGo for TypedStmt {
    fn let_go(self) {
        drop(self);
    }
}

impl LetGo for LocalDef {
    fn let_go(self) {}
}

impl LetGo for FnDef {
    fn let_go(self) {
        drop(self);
    }
}

impl LetGo for DataDef {
    fn let_go(self) {}
}

impl LetGo for TypedTree {
    fn let_go(self) {}
}

impl LetGo for CType {
    fn let_go(self) {}
}

impl LetGo for TagDef {
    fn let_go(self) {}
}

impl LetGo for Tags {
    fn let_go(self) {}
}

impl LetGo for Items<TypedExpr> {
    fn let_go(self) {}
}

impl LetGo for Items<TypedInit> {
    fn let_go(self) {}
}

impl LetGo for Items<TypedDeclare> {
    fn let_go(self) {}
}

impl LetGo for Items<TypedStmt> {
    fn let_go(self) {}
}

impl LetGo for Items<LocalDef> {
    fn let_go(self) {}
}

impl LetGo for Items<FnDef> {
    fn let_go(self) {}
}

impl LetGo for Items<DataDef> {
    fn let_go(self) {}
}

impl LetGo for Items<CType> {
    fn let_go(self) {}
}

impl LetGo for Items<Member> {
    fn let_go(self) {}
}
