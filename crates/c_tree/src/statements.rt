//! Initialisers, declarations and statements (C11 6.7.9 and 6.8).

use crate::nodes::{Attribute, Declarator, Expr, Spec};
use fc_base::Place;
use sqlite_items::{Boxed, Items};

/// An initialiser (C11 6.7.9). One that is an expression is one node with it, and has its place.
#[derive(Drop)]
pub enum Init {
    Expr(Expr),
    /// One initialiser or more in braces.
    List { items: Items<Init>, place: Place },
}

/// A declarator with the attributes of the lists behind it, and its initialiser where one stands.
#[derive(Drop)]
pub struct InitDeclarator {
    pub declarator: Declarator,
    pub attributes: Items<Items<Attribute>>,
    pub init: Option<Init>,
}

/// What stands first between the brackets of a `for`: an expression or none, or a declaration.
#[derive(Drop)]
pub enum ForHead {
    Expr(Option<Expr>),
    Declare {
        specs: Items<Spec>,
        declarators: Items<InitDeclarator>,
    },
}

/// A statement, or a declaration or label that stands among statements (C11 6.8).
#[derive(Drop)]
pub enum Stmt {
    Block {
        items: Items<Stmt>,
        place: Place,
    },
    /// A declaration with one declarator or more, among the items of a block.
    Declare {
        specs: Items<Spec>,
        declarators: Items<InitDeclarator>,
        place: Place,
    },
    /// An expression, or none, and a semicolon.
    Expr {
        expr: Option<Expr>,
        place: Place,
    },
    If {
        test: Expr,
        yes: Boxed<Stmt>,
        no: Option<Boxed<Stmt>>,
        place: Place,
    },
    While {
        test: Expr,
        body: Boxed<Stmt>,
        place: Place,
    },
    Do {
        body: Boxed<Stmt>,
        test: Expr,
        place: Place,
    },
    For {
        head: ForHead,
        test: Option<Expr>,
        step: Option<Expr>,
        body: Boxed<Stmt>,
        place: Place,
    },
    /// The labels and statements of the switch's block in order: where there are any, a label is the first.
    Switch {
        subject: Expr,
        items: Items<Stmt>,
        place: Place,
    },
    Break {
        place: Place,
    },
    Continue {
        place: Place,
    },
    Return {
        value: Option<Expr>,
        place: Place,
    },
    /// `case value:`, only among the items of a switch.
    Case {
        value: Expr,
        place: Place,
    },
    /// `default:`, only among the items of a switch.
    Default {
        place: Place,
    },
}
