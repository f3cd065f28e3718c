//! The parts of trees, from the names up to a file.

use crate::let_go::LetGo;
use c_tree::{
    Attribute, Declarator, Enumerator, Expr, External, FileTree, ForHead, Identifier, Init,
    InitDeclarator, MemberDecl, Param, Params, PointerWord, Spec, Stmt, TypeName,
};
use fc_base::Text;
use sqlite_items::Items;

impl LetGo for Text {
    fn let_go(self) {}
}

impl LetGo for Expr {
    fn let_go(self) {}
}

impl LetGo for TypeName {
    fn let_go(self) {}
}

impl LetGo for Declarator {
    fn let_go(self) {}
}

impl LetGo for Params {
    fn let_go(self) {}
}

impl LetGo for Identifier {
    fn let_go(self) {}
}

impl LetGo for ForHead {
    fn let_go(self) {}
}

impl LetGo for Stmt {
    fn let_go(self) {}
}

impl LetGo for External {
    fn let_go(self) {}
}

impl LetGo for FileTree {
    fn let_go(self) {}
}

impl LetGo for Items<Text> {
    fn let_go(self) {}
}

impl LetGo for Items<PointerWord> {
    fn let_go(self) {}
}

impl LetGo for Items<Items<Attribute>> {
    fn let_go(self) {}
}

impl LetGo for Items<Spec> {
    fn let_go(self) {}
}

impl LetGo for Items<Expr> {
    fn let_go(self) {}
}

impl LetGo for Items<Declarator> {
    fn let_go(self) {}
}

impl LetGo for Items<Param> {
    fn let_go(self) {}
}

impl LetGo for Items<MemberDecl> {
    fn let_go(self) {}
}

impl LetGo for Items<Enumerator> {
    fn let_go(self) {}
}

impl LetGo for Items<Init> {
    fn let_go(self) {}
}

impl LetGo for Items<InitDeclarator> {
    fn let_go(self) {}
}

impl LetGo for Items<Stmt> {
    fn let_go(self) {}
}

impl LetGo for Items<External> {
    fn let_go(self) {}
}
