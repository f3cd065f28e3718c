//! Expressions, and the specifiers, declarators and type names that they and declarations are made of
//! (C11 6.5 and 6.7). Parentheses make no node. A node has the place of its first token where nothing else is said.

use crate::operators::{AssignOp, BinaryOp, PostfixOp, PrefixOp};
use c_tokens::{NumberKind, Token};
use fc_base::{Place, Text};
use sqlite_items::{Boxed, Items};

/// An expression and its place: of a binary or assignment operator that operator's, of a conditional that of `?`,
/// of a call its callee's, of an index that of `[`, and of a member the member's name's.
#[cycle(nodes)]
#[derive(Drop)]
pub struct Expr {
    pub kind: ExprKind,
    pub place: Place,
}

/// What an expression is (C11 6.5). Adjacent string literals are one `Str`, and a `Comma` has two expressions or more.
#[cycle(nodes)]
#[derive(Drop)]
pub enum ExprKind {
    Name(Text),
    Number {
        value: u64,
        kind: NumberKind,
    },
    CharConst(u8),
    Str(Text),
    Comma(Items<Expr>),
    Assign {
        op: AssignOp,
        to: Boxed<Expr>,
        from: Boxed<Expr>,
    },
    Cond {
        test: Boxed<Expr>,
        yes: Boxed<Expr>,
        no: Boxed<Expr>,
    },
    Binary {
        op: BinaryOp,
        a: Boxed<Expr>,
        b: Boxed<Expr>,
    },
    Cast {
        to: TypeName,
        of: Boxed<Expr>,
    },
    Prefix {
        op: PrefixOp,
        of: Boxed<Expr>,
    },
    Postfix {
        op: PostfixOp,
        of: Boxed<Expr>,
    },
    SizeofExpr(Boxed<Expr>),
    SizeofType(TypeName),
    /// The two operands in the order of the text: `a[b]` has the base a.
    Index {
        base: Boxed<Expr>,
        index: Boxed<Expr>,
    },
    Call {
        callee: Boxed<Expr>,
        args: Items<Expr>,
    },
    Member {
        base: Boxed<Expr>,
        arrow: bool,
        name: Text,
    },
    /// `__builtin_dynamic_object_size(pointer, mode)`
    SizeCall {
        pointer: Boxed<Expr>,
        mode: Boxed<Expr>,
    },
}

/// A type name (C11 6.7.7).
#[cycle(nodes)]
#[derive(Drop)]
pub struct TypeName {
    pub specs: Items<Spec>,
    pub declarator: Declarator,
    pub place: Place,
}

/// A name with its own place, where the node that holds it begins before it.
#[derive(Drop)]
pub struct Identifier {
    pub name: Text,
    pub place: Place,
}

/// A word of a basic type (C11 6.7.2).
#[derive(Clone, Copy, PartialEq, Eq)]
pub enum BasicWord {
    Void,
    Char,
    Short,
    Int,
    Long,
    Signed,
    Unsigned,
}

/// `struct` or `union`.
#[derive(Clone, Copy, PartialEq, Eq)]
pub enum Aggregate {
    Struct,
    Union,
}

/// One attribute of an attribute list, with the tokens between its brackets where it has brackets
/// (GCC manual, "Attribute Syntax").
#[derive(Drop)]
pub struct Attribute {
    pub name: Text,
    pub args: Option<Items<Token>>,
}

/// A specifier of a declaration (C11 6.7.1 to 6.7.4), or an attribute list among them.
#[cycle(nodes)]
#[derive(Drop)]
pub enum Spec {
    Typedef {
        place: Place,
    },
    Extern {
        place: Place,
    },
    Static {
        place: Place,
    },
    Inline {
        place: Place,
    },
    Const {
        place: Place,
    },
    Attributes {
        list: Items<Attribute>,
        place: Place,
    },
    Basic {
        word: BasicWord,
        place: Place,
    },
    /// A typedef's name.
    TypedefName {
        name: Text,
        place: Place,
    },
    /// A structure or union with a tag, and its members where a body stands.
    Tagged {
        aggregate: Aggregate,
        tag: Identifier,
        members: Option<Items<MemberDecl>>,
        place: Place,
    },
    /// A structure or union without a tag.
    Untagged {
        aggregate: Aggregate,
        members: Items<MemberDecl>,
        place: Place,
    },
    /// An enumeration with a body.
    Enum {
        tag: Option<Identifier>,
        enumerators: Items<Enumerator>,
        place: Place,
    },
    /// An enumeration that is only named.
    EnumTag {
        tag: Identifier,
        place: Place,
    },
}

/// A declaration of members of a structure or union (C11 6.7.2.1).
#[cycle(nodes)]
#[derive(Drop)]
pub struct MemberDecl {
    pub specs: Items<Spec>,
    pub declarators: Items<Declarator>,
}

/// An enumerator, and the expression that gives its value where one stands (C11 6.7.2.2).
#[cycle(nodes)]
#[derive(Drop)]
pub struct Enumerator {
    pub name: Identifier,
    pub value: Option<Expr>,
}

/// A word before a direct declarator. The first of them is a star.
#[derive(Clone, Copy, PartialEq, Eq)]
pub enum PointerWord {
    /// `*`
    Star,
    Const,
    Restrict,
}

/// A declarator (C11 6.7.6), or an abstract one (C11 6.7.7), which has `Omitted` where the name would stand.
#[cycle(nodes)]
#[derive(Drop)]
pub enum Declarator {
    /// All the stars before a direct declarator, with their qualifiers.
    Pointer {
        words: Items<PointerWord>,
        of: Boxed<Declarator>,
        place: Place,
    },
    Name {
        name: Text,
        place: Place,
    },
    /// The name that an abstract declarator leaves out. Its place is that of the first token of its parameter or
    /// type name.
    Omitted {
        place: Place,
    },
    Array {
        of: Boxed<Declarator>,
        bound: Option<Boxed<Expr>>,
        place: Place,
    },
    Function {
        of: Boxed<Declarator>,
        params: Params,
        place: Place,
    },
}

/// What stands between the brackets of a function declarator (C11 6.7.6.3).
#[cycle(nodes)]
#[derive(Drop)]
pub enum Params {
    /// `()`
    Empty,
    /// `(void)`
    Void,
    /// One parameter or more.
    List(Items<Param>),
}

/// A parameter, whose declarator may be abstract.
#[cycle(nodes)]
#[derive(Drop)]
pub struct Param {
    pub specs: Items<Spec>,
    pub declarator: Declarator,
}
