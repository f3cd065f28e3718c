//! Wide and deep trees, which are freed.

use c_layout::CType;
use c_tree::{Expr, ExprKind, External, FileTree, PrefixOp, Stmt, TypedExpr, TypedKind, TypedStmt};
use fc_base::{NoMemory, Place};
use sqlite_items::{Boxed, Items};
use std::alloc::Global;
use std::process::Abort;
use std::test::Fail;

const START: Place = Place { line: 1, col: 1 };

fn negated(alloc: Global, of: Expr) -> Result<Expr, NoMemory> {
    let of = Boxed::new(alloc, of)?;
    Ok(Expr {
        kind: ExprKind::Prefix {
            op: PrefixOp::Not,
            of,
        },
        place: START,
    })
}

/// An expression that is 200 nodes deep.
fn deep_expression(alloc: Global) -> Result<Expr, NoMemory> {
    let mut expr = Expr {
        kind: ExprKind::CharConst(0),
        place: START,
    };
    for _ in 0..199 {
        expr = negated(alloc, expr)?;
    }
    Ok(expr)
}

/// A list of one.
pub fn alone<T: Drop>(alloc: Global, item: T) -> Result<Items<T>, NoMemory> {
    let mut items = Items::new(alloc);
    items.push(item)?;
    Ok(items)
}

fn block(alloc: Global, of: Stmt) -> Result<Stmt, NoMemory> {
    let items = alone(alloc, of)?;
    Ok(Stmt::Block {
        items,
        place: START,
    })
}

/// A statement that is as many nodes deep as a tree may be.
fn deep_statement(alloc: Global) -> Result<Stmt, NoMemory> {
    let mut statement = Stmt::Expr {
        expr: Some(deep_expression(alloc)?),
        place: START,
    };
    for _ in 0..199 {
        statement = block(alloc, statement)?;
    }
    Ok(statement)
}

/// Adds 100,000 statements and a deep one.
fn push_statements(statements: &mut Items<Stmt>, alloc: Global) -> Result<(), NoMemory> {
    for _ in 0..100_000 {
        statements.push(Stmt::Break { place: START })?;
    }
    statements.push(deep_statement(alloc)?)?;
    Ok(())
}

fn push_declarations(externals: &mut Items<External>, alloc: Global) -> Result<(), NoMemory> {
    for _ in 0..100_000 {
        externals.push(External::Declaration {
            specs: Items::new(alloc),
            declarators: Items::new(alloc),
            place: START,
        })?;
    }
    Ok(())
}

/// Asserts that there are so many, and frees them.
fn assert_freed<T: Drop>(rt: &impl Abort, items: Items<T>, count: usize) {
    assert!(rt; items.len() == count);
}

#[test]
fn statements_are_freed(rt: HostRuntime) -> Result<(), Fail> {
    let alloc = rt.alloc();
    let mut statements = Items::new(alloc);
    let pushed = push_statements(&mut statements, alloc);
    assert_freed(&rt, statements, 100_001);
    pushed?;
    Ok(())
}

#[test]
fn files_are_freed(rt: HostRuntime) -> Result<(), Fail> {
    let alloc = rt.alloc();
    let mut file = FileTree {
        externals: Items::new(alloc),
    };
    let pushed = push_declarations(&mut file.externals, alloc);
    assert!(rt; file.externals.len() == 100_000);
    drop(file);
    pushed?;
    Ok(())
}

fn typed_negated(alloc: Global, of: TypedExpr) -> Result<TypedExpr, NoMemory> {
    let of = Boxed::new(alloc, of)?;
    Ok(TypedExpr {
        kind: TypedKind::Prefix {
            op: PrefixOp::Not,
            of,
        },
        ctype: CType::Void,
        place: START,
    })
}

/// A typed expression that is 400 nodes deep.
fn deep_typed_expression(alloc: Global) -> Result<TypedExpr, NoMemory> {
    let mut expr = TypedExpr {
        kind: TypedKind::Number(0),
        ctype: CType::Void,
        place: START,
    };
    for _ in 0..399 {
        expr = typed_negated(alloc, expr)?;
    }
    Ok(expr)
}

/// Adds 100,000 statements and that of the deep expression.
fn push_typed_statements(statements: &mut Items<TypedStmt>, alloc: Global) -> Result<(), NoMemory> {
    for _ in 0..100_000 {
        statements.push(TypedStmt::Break { place: START })?;
    }
    statements.push(TypedStmt::Expr {
        expr: Some(deep_typed_expression(alloc)?),
        place: START,
    })?;
    Ok(())
}

#[test]
fn typed_statements_are_freed(rt: HostRuntime) -> Result<(), Fail> {
    let alloc = rt.alloc();
    let mut statements = Items::new(alloc);
    let pushed = push_typed_statements(&mut statements, alloc);
    assert_freed(&rt, statements, 100_001);
    pushed?;
    Ok(())
}
