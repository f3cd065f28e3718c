//! How operators, the stars of declarators and the words of specifiers are printed.

use c_tree::{
    Aggregate, AssignOp, BasicWord, BinaryOp, ExprKind, PointerWord, PostfixOp, PrefixOp,
};

fn binary(op: BinaryOp) -> &'static str {
    match op {
        BinaryOp::LogicalOr => "||",
        BinaryOp::LogicalAnd => "&&",
        BinaryOp::BitOr => "|",
        BinaryOp::BitXor => "^",
        BinaryOp::BitAnd => "&",
        BinaryOp::Equal => "==",
        BinaryOp::NotEqual => "!=",
        BinaryOp::Less => "<",
        BinaryOp::Greater => ">",
        BinaryOp::LessEqual => "<=",
        BinaryOp::GreaterEqual => ">=",
        BinaryOp::ShiftLeft => "<<",
        BinaryOp::ShiftRight => ">>",
        BinaryOp::Add => "+",
        BinaryOp::Sub => "-",
        BinaryOp::Mul => "*",
        BinaryOp::Div => "/",
        BinaryOp::Rem => "%",
    }
}

fn assign(op: AssignOp) -> &'static str {
    match op {
        AssignOp::Plain => "=",
        AssignOp::Mul => "*=",
        AssignOp::Div => "/=",
        AssignOp::Rem => "%=",
        AssignOp::Add => "+=",
        AssignOp::Sub => "-=",
        AssignOp::ShiftLeft => "<<=",
        AssignOp::ShiftRight => ">>=",
        AssignOp::BitAnd => "&=",
        AssignOp::BitXor => "^=",
        AssignOp::BitOr => "|=",
    }
}

fn prefix(op: PrefixOp) -> &'static str {
    match op {
        PrefixOp::Increment => "++_",
        PrefixOp::Decrement => "--_",
        PrefixOp::Address => "&_",
        PrefixOp::Indirection => "*_",
        PrefixOp::Plus => "+_",
        PrefixOp::Minus => "-_",
        PrefixOp::BitNot => "~_",
        PrefixOp::Not => "!_",
    }
}

fn postfix(op: PostfixOp) -> &'static str {
    match op {
        PostfixOp::Increment => "_++",
        PostfixOp::Decrement => "_--",
    }
}

/// What an operator is called. A leaf has no label.
pub fn label_of(kind: &ExprKind) -> &'static str {
    match kind {
        ExprKind::Comma(_) => ",",
        ExprKind::Assign { op, .. } => assign(*op),
        ExprKind::Cond { .. } => "?",
        ExprKind::Binary { op, .. } => binary(*op),
        ExprKind::Cast { .. } => "cast",
        ExprKind::Prefix { op, .. } => prefix(*op),
        ExprKind::Postfix { op, .. } => postfix(*op),
        ExprKind::SizeofExpr(_) | ExprKind::SizeofType(_) => "sizeof",
        ExprKind::Index { .. } => "[]",
        ExprKind::Call { .. } => "call",
        ExprKind::Member { arrow: true, .. } => "->",
        ExprKind::Member { arrow: false, .. } => ".",
        ExprKind::SizeCall { .. } => "size",
        _ => "",
    }
}

pub fn label_of_word(word: PointerWord) -> &'static str {
    match word {
        PointerWord::Star => "* ",
        PointerWord::Const => "const ",
        PointerWord::Restrict => "restrict ",
    }
}

pub fn label_of_basic(word: BasicWord) -> &'static str {
    match word {
        BasicWord::Void => "Void ",
        BasicWord::Char => "Char ",
        BasicWord::Short => "Short ",
        BasicWord::Int => "Int ",
        BasicWord::Long => "Long ",
        BasicWord::Signed => "Signed ",
        BasicWord::Unsigned => "Unsigned ",
    }
}

pub fn label_of_aggregate(aggregate: Aggregate) -> &'static str {
    match aggregate {
        Aggregate::Struct => "Struct",
        Aggregate::Union => "Union",
    }
}
