//! Lists of typed nodes, of functions and of types that are made one after the other, as those of written nodes.

ghost use Rattle.std.specs.Prelude.{◌≡◌, [], ◌∷◌, ◌++◌, OnOk, OnErr};

use crate::let_go::LetGo;
use c_layout::CType;
use c_tree::{FnDef, LocalDef, TypedDeclare, TypedExpr, TypedInit, TypedStmt};
use sqlite_items::Items;
use std::alloc::{AllocError, Global};
use std::marker::Model;

/// Typed expressions.
pub struct TypedExprItems {
    items: Items<TypedExpr>,
}

impl Model for TypedExprItems {
    ghost use Rattle.std.specs.Prelude.{List};
    ghost use Rattle.std.specs.Coded.{codes};
    ghost use Rattle.c_tree.specs.contracts.typed.TypedExpr as node;
    ghost use Rattle.c_tree.specs.declared.typed.TypedExpr.{TypedExpr};

    ghost Value = { List TypedExpr };

    ghost coded = { Prim.hlevel (codes, node.the_row.coded) };

    ghost view = { λ list. list.items };
}

impl Drop for TypedExprItems {
    fn drop(self) {
        let TypedExprItems { items } = self;
        items.let_go();
    }
}

impl TypedExprItems {
    pub fn new(alloc: Global) -> TypedExprItems
        ensures { result ≡ [] }
    {
        TypedExprItems {
            items: Items::new(alloc),
        }
    }

    /// Adds the node at the end.
    pub fn push(&mut self, node: TypedExpr) -> Result<(), AllocError>
        ensures ok { OnOk result (self.new ≡ self.old ++ node ∷ []) }
        ensures err { OnErr result (self.new ≡ self.old) }
    {
        self.items.push(node)
    }

    /// The nodes, all of which have been made.
    pub fn finish(self) -> Items<TypedExpr>
        ensures { result ≡ self }
    {
        let TypedExprItems { items } = self;
        items
    }
}

/// Typed statements.
pub struct TypedStmtItems {
    items: Items<TypedStmt>,
}

impl Model for TypedStmtItems {
    ghost use Rattle.std.specs.Prelude.{List};
    ghost use Rattle.std.specs.Coded.{codes};
    ghost use Rattle.c_tree.specs.contracts.typed.TypedStmt as node;
    ghost use Rattle.c_tree.specs.declared.typed.TypedStmt.{TypedStmt};

    ghost Value = { List TypedStmt };

    ghost coded = { Prim.hlevel (codes, node.the_row.coded) };

    ghost view = { λ list. list.items };
}

impl Drop for TypedStmtItems {
    fn drop(self) {
        let TypedStmtItems { items } = self;
        items.let_go();
    }
}

impl TypedStmtItems {
    pub fn new(alloc: Global) -> TypedStmtItems
        ensures { result ≡ [] }
    {
        TypedStmtItems {
            items: Items::new(alloc),
        }
    }

    /// Adds the node at the end.
    pub fn push(&mut self, node: TypedStmt) -> Result<(), AllocError>
        ensures ok { OnOk result (self.new ≡ self.old ++ node ∷ []) }
        ensures err { OnErr result (self.new ≡ self.old) }
    {
        self.items.push(node)
    }

    /// The nodes, all of which have been made.
    pub fn finish(self) -> Items<TypedStmt>
        ensures { result ≡ self }
    {
        let TypedStmtItems { items } = self;
        items
    }
}

/// Typed initialisers.
pub struct TypedInitItems {
    items: Items<TypedInit>,
}

impl Model for TypedInitItems {
    ghost use Rattle.std.specs.Prelude.{List};
    ghost use Rattle.std.specs.Coded.{codes};
    ghost use Rattle.c_tree.specs.contracts.typed.TypedInit as node;
    ghost use Rattle.c_tree.specs.declared.typed.TypedInit.{TypedInit};

    ghost Value = { List TypedInit };

    ghost coded = { Prim.hlevel (codes, node.the_row.coded) };

    ghost view = { λ list. list.items };
}

impl Drop for TypedInitItems {
    fn drop(self) {
        let TypedInitItems { items } = self;
        items.let_go();
    }
}

impl TypedInitItems {
    pub fn new(alloc: Global) -> TypedInitItems
        ensures { result ≡ [] }
    {
        TypedInitItems {
            items: Items::new(alloc),
        }
    }

    /// Adds the node at the end.
    pub fn push(&mut self, node: TypedInit) -> Result<(), AllocError>
        ensures ok { OnOk result (self.new ≡ self.old ++ node ∷ []) }
        ensures err { OnErr result (self.new ≡ self.old) }
    {
        self.items.push(node)
    }

    /// The nodes, all of which have been made.
    pub fn finish(self) -> Items<TypedInit>
        ensures { result ≡ self }
    {
        let TypedInitItems { items } = self;
        items
    }
}

/// Variables of a block.
pub struct TypedDeclareItems {
    items: Items<TypedDeclare>,
}

impl Model for TypedDeclareItems {
    ghost use Rattle.std.specs.Prelude.{List};
    ghost use Rattle.std.specs.Coded.{codes};
    ghost use Rattle.c_tree.specs.contracts.typed.TypedDeclare as node;
    ghost use Rattle.c_tree.specs.declared.typed.TypedDeclare.{TypedDeclare};

    ghost Value = { List TypedDeclare };

    ghost coded = { Prim.hlevel (codes, node.the_row.coded) };

    ghost view = { λ list. list.items };
}

impl Drop for TypedDeclareItems {
    fn drop(self) {
        let TypedDeclareItems { items } = self;
        items.let_go();
    }
}

impl TypedDeclareItems {
    pub fn new(alloc: Global) -> TypedDeclareItems
        ensures { result ≡ [] }
    {
        TypedDeclareItems {
            items: Items::new(alloc),
        }
    }

    /// Adds the node at the end.
    pub fn push(&mut self, node: TypedDeclare) -> Result<(), AllocError>
        ensures ok { OnOk result (self.new ≡ self.old ++ node ∷ []) }
        ensures err { OnErr result (self.new ≡ self.old) }
    {
        self.items.push(node)
    }

    /// The nodes, all of which have been made.
    pub fn finish(self) -> Items<TypedDeclare>
        ensures { result ≡ self }
    {
        let TypedDeclareItems { items } = self;
        items
    }
}

/// Parameters and variables of a function.
pub struct LocalItems {
    items: Items<LocalDef>,
}

impl Model for LocalItems {
    ghost use Rattle.std.specs.Prelude.{List};
    ghost use Rattle.std.specs.Coded.{codes};
    ghost use Rattle.c_tree.specs.contracts.programs.LocalDef as node;
    ghost use Rattle.c_tree.specs.declared.programs.LocalDef.{LocalDef};

    ghost Value = { List LocalDef };

    ghost coded = { Prim.hlevel (codes, node.the_row.coded) };

    ghost view = { λ list. list.items };
}

impl Drop for LocalItems {
    fn drop(self) {
        let LocalItems { items } = self;
        items.let_go();
    }
}

impl LocalItems {
    pub fn new(alloc: Global) -> LocalItems
        ensures { result ≡ [] }
    {
        LocalItems {
            items: Items::new(alloc),
        }
    }

    /// Adds the node at the end.
    pub fn push(&mut self, node: LocalDef) -> Result<(), AllocError>
        ensures ok { OnOk result (self.new ≡ self.old ++ node ∷ []) }
        ensures err { OnErr result (self.new ≡ self.old) }
    {
        self.items.push(node)
    }

    /// The nodes, all of which have been made.
    pub fn finish(self) -> Items<LocalDef>
        ensures { result ≡ self }
    {
        let LocalItems { items } = self;
        items
    }
}

/// Functions.
pub struct FunctionItems {
    items: Items<FnDef>,
}

impl Model for FunctionItems {
    ghost use Rattle.std.specs.Prelude.{List};
    ghost use Rattle.std.specs.Coded.{codes};
    ghost use Rattle.c_tree.specs.contracts.programs.FnDef as node;
    ghost use Rattle.c_tree.specs.declared.programs.FnDef.{FnDef};

    ghost Value = { List FnDef };

    ghost coded = { Prim.hlevel (codes, node.the_row.coded) };

    ghost view = { λ list. list.items };
}

impl Drop for FunctionItems {
    fn drop(self) {
        let FunctionItems { items } = self;
        items.let_go();
    }
}

impl FunctionItems {
    pub fn new(alloc: Global) -> FunctionItems
        ensures { result ≡ [] }
    {
        FunctionItems {
            items: Items::new(alloc),
        }
    }

    /// Adds the node at the end.
    pub fn push(&mut self, node: FnDef) -> Result<(), AllocError>
        ensures ok { OnOk result (self.new ≡ self.old ++ node ∷ []) }
        ensures err { OnErr result (self.new ≡ self.old) }
    {
        self.items.push(node)
    }

    /// The nodes, all of which have been made.
    pub fn finish(self) -> Items<FnDef>
        ensures { result ≡ self }
    {
        let FunctionItems { items } = self;
        items
    }
}

/// Types.
pub struct CTypeItems {
    items: Items<CType>,
}

impl Model for CTypeItems {
    ghost use Rattle.std.specs.Prelude.{List};
    ghost use Rattle.std.specs.Coded.{codes};
    ghost use Rattle.c_layout.specs.contracts.types.CType as node;
    ghost use Rattle.c_layout.specs.declared.types.CType.{CType};

    ghost Value = { List CType };

    ghost coded = { Prim.hlevel (codes, node.the_row.coded) };

    ghost view = { λ list. list.items };
}

impl Drop for CTypeItems {
    fn drop(self) {
        let CTypeItems { items } = self;
        items.let_go();
    }
}

impl CTypeItems {
    pub fn new(alloc: Global) -> CTypeItems
        ensures { result ≡ [] }
    {
        CTypeItems {
            items: Items::new(alloc),
        }
    }

    /// Adds the node at the end.
    pub fn push(&mut self, node: CType) -> Result<(), AllocError>
        ensures ok { OnOk result (self.new ≡ self.old ++ node ∷ []) }
        ensures err { OnErr result (self.new ≡ self.old) }
    {
        self.items.push(node)
    }

    /// The nodes, all of which have been made.
    pub fn finish(self) -> Items<CType>
        ensures { result ≡ self }
    {
        let CTypeItems { items } = self;
        items
    }
}
