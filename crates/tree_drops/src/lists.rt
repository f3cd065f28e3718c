//! Lists of nodes that are read one after the other. Each is a type of its own whose `drop` is a function here, so that a crate
//! that holds one where it may fail does not prove how nodes are freed.

ghost use Rattle.std.specs.Prelude.{◌≡◌, [], ◌∷◌, ◌++◌, OnOk, OnErr};

use crate::let_go::LetGo;
use c_tree::{
    Declarator, Enumerator, Expr, External, Init, InitDeclarator, MemberDecl, Param, Spec, Stmt,
};
use sqlite_items::Items;
use std::alloc::{AllocError, Global};
use std::marker::Model;

/// Specifiers.
pub struct SpecItems {
    items: Items<Spec>,
}

impl Model for SpecItems {
    ghost use Rattle.std.specs.Prelude.{List};
    ghost use Rattle.std.specs.Coded.{codes};
    ghost use Rattle.c_tree.specs.contracts.nodes.Spec as node;
    ghost use Rattle.c_tree.specs.declared.nodes.Spec.{Spec};

    ghost Value = { List Spec };

    ghost coded = { Prim.hlevel (codes, node.the_row.coded) };

    ghost view = { λ list. list.items };
}

impl Drop for SpecItems {
    fn drop(self) {
        let SpecItems { items } = self;
        items.let_go();
    }
}

impl SpecItems {
    pub fn new(alloc: Global) -> SpecItems
        ensures { result ≡ [] }
    {
        SpecItems {
            items: Items::new(alloc),
        }
    }

    /// Adds the node at the end.
    pub fn push(&mut self, node: Spec) -> Result<(), AllocError>
        ensures ok { OnOk result (self.new ≡ self.old ++ node ∷ []) }
        ensures err { OnErr result (self.new ≡ self.old) }
    {
        self.items.push(node)
    }

    /// The nodes, all of which have been read.
    pub fn finish(self) -> Items<Spec>
        ensures { result ≡ self }
    {
        let SpecItems { items } = self;
        items
    }
}

/// Expressions.
pub struct ExprItems {
    items: Items<Expr>,
}

impl Model for ExprItems {
    ghost use Rattle.std.specs.Prelude.{List};
    ghost use Rattle.std.specs.Coded.{codes};
    ghost use Rattle.c_tree.specs.contracts.nodes.Expr as node;
    ghost use Rattle.c_tree.specs.declared.nodes.Expr.{Expr};

    ghost Value = { List Expr };

    ghost coded = { Prim.hlevel (codes, node.the_row.coded) };

    ghost view = { λ list. list.items };
}

impl Drop for ExprItems {
    fn drop(self) {
        let ExprItems { items } = self;
        items.let_go();
    }
}

impl ExprItems {
    pub fn new(alloc: Global) -> ExprItems
        ensures { result ≡ [] }
    {
        ExprItems {
            items: Items::new(alloc),
        }
    }

    /// Adds the node at the end.
    pub fn push(&mut self, node: Expr) -> Result<(), AllocError>
        ensures ok { OnOk result (self.new ≡ self.old ++ node ∷ []) }
        ensures err { OnErr result (self.new ≡ self.old) }
    {
        self.items.push(node)
    }

    /// The nodes, all of which have been read.
    pub fn finish(self) -> Items<Expr>
        ensures { result ≡ self }
    {
        let ExprItems { items } = self;
        items
    }
}

/// Declarators.
pub struct DeclaratorItems {
    items: Items<Declarator>,
}

impl Model for DeclaratorItems {
    ghost use Rattle.std.specs.Prelude.{List};
    ghost use Rattle.std.specs.Coded.{codes};
    ghost use Rattle.c_tree.specs.contracts.nodes.Declarator as node;
    ghost use Rattle.c_tree.specs.declared.nodes.Declarator.{Declarator};

    ghost Value = { List Declarator };

    ghost coded = { Prim.hlevel (codes, node.the_row.coded) };

    ghost view = { λ list. list.items };
}

impl Drop for DeclaratorItems {
    fn drop(self) {
        let DeclaratorItems { items } = self;
        items.let_go();
    }
}

impl DeclaratorItems {
    pub fn new(alloc: Global) -> DeclaratorItems
        ensures { result ≡ [] }
    {
        DeclaratorItems {
            items: Items::new(alloc),
        }
    }

    /// Adds the node at the end.
    pub fn push(&mut self, node: Declarator) -> Result<(), AllocError>
        ensures ok { OnOk result (self.new ≡ self.old ++ node ∷ []) }
        ensures err { OnErr result (self.new ≡ self.old) }
    {
        self.items.push(node)
    }

    /// The nodes, all of which have been read.
    pub fn finish(self) -> Items<Declarator>
        ensures { result ≡ self }
    {
        let DeclaratorItems { items } = self;
        items
    }
}

/// Parameters.
pub struct ParamItems {
    items: Items<Param>,
}

impl Model for ParamItems {
    ghost use Rattle.std.specs.Prelude.{List};
    ghost use Rattle.std.specs.Coded.{codes};
    ghost use Rattle.c_tree.specs.contracts.nodes.Param as node;
    ghost use Rattle.c_tree.specs.declared.nodes.Param.{Param};

    ghost Value = { List Param };

    ghost coded = { Prim.hlevel (codes, node.the_row.coded) };

    ghost view = { λ list. list.items };
}

impl Drop for ParamItems {
    fn drop(self) {
        let ParamItems { items } = self;
        items.let_go();
    }
}

impl ParamItems {
    pub fn new(alloc: Global) -> ParamItems
        ensures { result ≡ [] }
    {
        ParamItems {
            items: Items::new(alloc),
        }
    }

    /// Adds the node at the end.
    pub fn push(&mut self, node: Param) -> Result<(), AllocError>
        ensures ok { OnOk result (self.new ≡ self.old ++ node ∷ []) }
        ensures err { OnErr result (self.new ≡ self.old) }
    {
        self.items.push(node)
    }

    /// The nodes, all of which have been read.
    pub fn finish(self) -> Items<Param>
        ensures { result ≡ self }
    {
        let ParamItems { items } = self;
        items
    }
}

/// Declarations of members.
pub struct MemberDeclItems {
    items: Items<MemberDecl>,
}

impl Model for MemberDeclItems {
    ghost use Rattle.std.specs.Prelude.{List};
    ghost use Rattle.std.specs.Coded.{codes};
    ghost use Rattle.c_tree.specs.contracts.nodes.MemberDecl as node;
    ghost use Rattle.c_tree.specs.declared.nodes.MemberDecl.{MemberDecl};

    ghost Value = { List MemberDecl };

    ghost coded = { Prim.hlevel (codes, node.the_row.coded) };

    ghost view = { λ list. list.items };
}

impl Drop for MemberDeclItems {
    fn drop(self) {
        let MemberDeclItems { items } = self;
        items.let_go();
    }
}

impl MemberDeclItems {
    pub fn new(alloc: Global) -> MemberDeclItems
        ensures { result ≡ [] }
    {
        MemberDeclItems {
            items: Items::new(alloc),
        }
    }

    /// Adds the node at the end.
    pub fn push(&mut self, node: MemberDecl) -> Result<(), AllocError>
        ensures ok { OnOk result (self.new ≡ self.old ++ node ∷ []) }
        ensures err { OnErr result (self.new ≡ self.old) }
    {
        self.items.push(node)
    }

    /// The nodes, all of which have been read.
    pub fn finish(self) -> Items<MemberDecl>
        ensures { result ≡ self }
    {
        let MemberDeclItems { items } = self;
        items
    }
}

/// Enumerators.
pub struct EnumeratorItems {
    items: Items<Enumerator>,
}

impl Model for EnumeratorItems {
    ghost use Rattle.std.specs.Prelude.{List};
    ghost use Rattle.std.specs.Coded.{codes};
    ghost use Rattle.c_tree.specs.contracts.nodes.Enumerator as node;
    ghost use Rattle.c_tree.specs.declared.nodes.Enumerator.{Enumerator};

    ghost Value = { List Enumerator };

    ghost coded = { Prim.hlevel (codes, node.the_row.coded) };

    ghost view = { λ list. list.items };
}

impl Drop for EnumeratorItems {
    fn drop(self) {
        let EnumeratorItems { items } = self;
        items.let_go();
    }
}

impl EnumeratorItems {
    pub fn new(alloc: Global) -> EnumeratorItems
        ensures { result ≡ [] }
    {
        EnumeratorItems {
            items: Items::new(alloc),
        }
    }

    /// Adds the node at the end.
    pub fn push(&mut self, node: Enumerator) -> Result<(), AllocError>
        ensures ok { OnOk result (self.new ≡ self.old ++ node ∷ []) }
        ensures err { OnErr result (self.new ≡ self.old) }
    {
        self.items.push(node)
    }

    /// The nodes, all of which have been read.
    pub fn finish(self) -> Items<Enumerator>
        ensures { result ≡ self }
    {
        let EnumeratorItems { items } = self;
        items
    }
}

/// Initialisers.
pub struct InitItems {
    items: Items<Init>,
}

impl Model for InitItems {
    ghost use Rattle.std.specs.Prelude.{List};
    ghost use Rattle.std.specs.Coded.{codes};
    ghost use Rattle.c_tree.specs.contracts.statements.Init as node;
    ghost use Rattle.c_tree.specs.declared.statements.Init.{Init};

    ghost Value = { List Init };

    ghost coded = { Prim.hlevel (codes, node.the_row.coded) };

    ghost view = { λ list. list.items };
}

impl Drop for InitItems {
    fn drop(self) {
        let InitItems { items } = self;
        items.let_go();
    }
}

impl InitItems {
    pub fn new(alloc: Global) -> InitItems
        ensures { result ≡ [] }
    {
        InitItems {
            items: Items::new(alloc),
        }
    }

    /// Adds the node at the end.
    pub fn push(&mut self, node: Init) -> Result<(), AllocError>
        ensures ok { OnOk result (self.new ≡ self.old ++ node ∷ []) }
        ensures err { OnErr result (self.new ≡ self.old) }
    {
        self.items.push(node)
    }

    /// The nodes, all of which have been read.
    pub fn finish(self) -> Items<Init>
        ensures { result ≡ self }
    {
        let InitItems { items } = self;
        items
    }
}

/// Declarators with initialisers.
pub struct InitDeclaratorItems {
    items: Items<InitDeclarator>,
}

impl Model for InitDeclaratorItems {
    ghost use Rattle.std.specs.Prelude.{List};
    ghost use Rattle.std.specs.Coded.{codes};
    ghost use Rattle.c_tree.specs.contracts.statements.InitDeclarator as node;
    ghost use Rattle.c_tree.specs.declared.statements.InitDeclarator.{InitDeclarator};

    ghost Value = { List InitDeclarator };

    ghost coded = { Prim.hlevel (codes, node.the_row.coded) };

    ghost view = { λ list. list.items };
}

impl Drop for InitDeclaratorItems {
    fn drop(self) {
        let InitDeclaratorItems { items } = self;
        items.let_go();
    }
}

impl InitDeclaratorItems {
    pub fn new(alloc: Global) -> InitDeclaratorItems
        ensures { result ≡ [] }
    {
        InitDeclaratorItems {
            items: Items::new(alloc),
        }
    }

    /// Adds the node at the end.
    pub fn push(&mut self, node: InitDeclarator) -> Result<(), AllocError>
        ensures ok { OnOk result (self.new ≡ self.old ++ node ∷ []) }
        ensures err { OnErr result (self.new ≡ self.old) }
    {
        self.items.push(node)
    }

    /// The nodes, all of which have been read.
    pub fn finish(self) -> Items<InitDeclarator>
        ensures { result ≡ self }
    {
        let InitDeclaratorItems { items } = self;
        items
    }
}

/// Statements.
pub struct StmtItems {
    items: Items<Stmt>,
}

impl Model for StmtItems {
    ghost use Rattle.std.specs.Prelude.{List};
    ghost use Rattle.std.specs.Coded.{codes};
    ghost use Rattle.c_tree.specs.contracts.statements.Stmt as node;
    ghost use Rattle.c_tree.specs.declared.statements.Stmt.{Stmt};

    ghost Value = { List Stmt };

    ghost coded = { Prim.hlevel (codes, node.the_row.coded) };

    ghost view = { λ list. list.items };
}

impl Drop for StmtItems {
    fn drop(self) {
        let StmtItems { items } = self;
        items.let_go();
    }
}

impl StmtItems {
    pub fn new(alloc: Global) -> StmtItems
        ensures { result ≡ [] }
    {
        StmtItems {
            items: Items::new(alloc),
        }
    }

    /// Adds the node at the end.
    pub fn push(&mut self, node: Stmt) -> Result<(), AllocError>
        ensures ok { OnOk result (self.new ≡ self.old ++ node ∷ []) }
        ensures err { OnErr result (self.new ≡ self.old) }
    {
        self.items.push(node)
    }

    /// The nodes, all of which have been read.
    pub fn finish(self) -> Items<Stmt>
        ensures { result ≡ self }
    {
        let StmtItems { items } = self;
        items
    }
}

/// External declarations.
pub struct ExternalItems {
    items: Items<External>,
}

impl Model for ExternalItems {
    ghost use Rattle.std.specs.Prelude.{List};
    ghost use Rattle.std.specs.Coded.{codes};
    ghost use Rattle.c_tree.specs.contracts.externals.External as node;
    ghost use Rattle.c_tree.specs.declared.externals.External.{External};

    ghost Value = { List External };

    ghost coded = { Prim.hlevel (codes, node.the_row.coded) };

    ghost view = { λ list. list.items };
}

impl Drop for ExternalItems {
    fn drop(self) {
        let ExternalItems { items } = self;
        items.let_go();
    }
}

impl ExternalItems {
    pub fn new(alloc: Global) -> ExternalItems
        ensures { result ≡ [] }
    {
        ExternalItems {
            items: Items::new(alloc),
        }
    }

    /// Adds the node at the end.
    pub fn push(&mut self, node: External) -> Result<(), AllocError>
        ensures ok { OnOk result (self.new ≡ self.old ++ node ∷ []) }
        ensures err { OnErr result (self.new ≡ self.old) }
    {
        self.items.push(node)
    }

    /// The nodes, all of which have been read.
    pub fn finish(self) -> Items<External>
        ensures { result ≡ self }
    {
        let ExternalItems { items } = self;
        items
    }
}
