//! The typed tree: names are numbers, each expression has its type, and each conversion is written out.

use crate::operators::{AssignOp, BinaryOp, PostfixOp, PrefixOp};
use c_layout::{CType, LibFn};
use fc_base::{Place, Text};
use sqlite_items::{Boxed, Items};

/// What a call calls: a function of the file by number, or a library function.
#[derive(Clone, Copy)]
pub enum Callee {
    Function(u32),
    Library(LibFn),
}

/// An expression with its type, at the place of the expression that it was made from.
#[cycle(typed)]
#[derive(Drop)]
pub struct TypedExpr {
    pub kind: TypedKind,
    pub ctype: CType,
    pub place: Place,
}

/// What a typed expression is.
#[cycle(typed)]
#[derive(Drop)]
pub enum TypedKind {
    /// A parameter, or a variable of a block that isn't static, by its number in the function.
    Local(u32),
    /// A file variable, a static variable or a string literal, by its number in the file.
    Object(u32),
    /// A number, a character constant or an enumerator, extended to 64 bits by its type.
    Number(u64),
    /// A string literal that initialises an array of characters, which is its type: its bytes without the closing NUL
    /// (C11 6.7.9p14). Any other string literal is an `Object`.
    Str(Text),
    Comma(Items<TypedExpr>),
    /// An assignment. A compound one computes in the type of `from`, which is converted to the common type (C11 6.5.16.2),
    /// and converts the result back to the type of `to`. For a pointer `from` is the number of elements.
    Assign {
        op: AssignOp,
        to: Boxed<TypedExpr>,
        from: Boxed<TypedExpr>,
    },
    Cond {
        test: Boxed<TypedExpr>,
        yes: Boxed<TypedExpr>,
        no: Boxed<TypedExpr>,
    },
    Binary {
        op: BinaryOp,
        a: Boxed<TypedExpr>,
        b: Boxed<TypedExpr>,
    },
    /// A conversion to the expression's type, written or added by typing.
    Cast {
        of: Boxed<TypedExpr>,
        added: bool,
    },
    Prefix {
        op: PrefixOp,
        of: Boxed<TypedExpr>,
    },
    /// The value before the step; the sum is computed in the common type of the operand and `int` (C11 6.5.2.4p2).
    Postfix {
        op: PostfixOp,
        of: Boxed<TypedExpr>,
    },
    SizeofExpr(Boxed<TypedExpr>),
    SizeofType(CType),
    /// `base[index]` with the operands in text order: the one of pointer type is the array's pointer, the other the
    /// number of the element (C11 6.5.2.1p2).
    Index {
        base: Boxed<TypedExpr>,
        index: Boxed<TypedExpr>,
    },
    Call {
        callee: Callee,
        args: Items<TypedExpr>,
    },
    /// A member by its place among those of its structure or union. The base of `->` has pointer type: an array that is
    /// used as one stands under a `Cast`.
    Member {
        base: Boxed<TypedExpr>,
        arrow: bool,
        member: u32,
    },
    /// `__builtin_dynamic_object_size` of the pointer, with the mode as the constant that is written.
    SizeCall {
        pointer: Boxed<TypedExpr>,
        mode: Boxed<TypedExpr>,
    },
}

/// An initialiser: one value, or a list as its braces are written. A value stands at its offset in the variable, also
/// where braces are left away (C11 6.7.9p20), so that an object is initialised leaf by leaf: where it is an aggregate all
/// its bytes are zero first (6.7.9p21), and then each value is stored at its offset, in text order.
#[derive(Drop)]
pub enum TypedInit {
    Expr {
        at: u32,
        value: TypedExpr,
    },
    List {
        items: Items<TypedInit>,
        place: Place,
    },
}

/// A variable of a block that isn't static, at the place of its declarator.
#[derive(Drop)]
pub struct TypedDeclare {
    pub local: u32,
    pub init: Option<TypedInit>,
    pub place: Place,
}

/// What stands first between the brackets of a `for`: an expression or none that is evaluated, or the variables that
/// are declared.
#[derive(Drop)]
pub enum TypedForHead {
    Evaluate(Option<TypedExpr>),
    Variables(Items<TypedDeclare>),
}

/// A statement, as `Stmt`.
#[cycle(typed_statements)]
#[derive(Drop)]
pub enum TypedStmt {
    Block {
        items: Items<TypedStmt>,
        place: Place,
    },
    Declare(TypedDeclare),
    Expr {
        expr: Option<TypedExpr>,
        place: Place,
    },
    If {
        test: TypedExpr,
        yes: Boxed<TypedStmt>,
        no: Option<Boxed<TypedStmt>>,
        place: Place,
    },
    While {
        test: TypedExpr,
        body: Boxed<TypedStmt>,
        place: Place,
    },
    Do {
        body: Boxed<TypedStmt>,
        test: TypedExpr,
        place: Place,
    },
    For {
        head: TypedForHead,
        test: Option<TypedExpr>,
        step: Option<TypedExpr>,
        body: Boxed<TypedStmt>,
        place: Place,
    },
    Switch {
        subject: TypedExpr,
        items: Items<TypedStmt>,
        place: Place,
    },
    Break {
        place: Place,
    },
    Continue {
        place: Place,
    },
    Return {
        value: Option<TypedExpr>,
        place: Place,
    },
    Case {
        value: TypedExpr,
        place: Place,
    },
    Default {
        place: Place,
    },
}
