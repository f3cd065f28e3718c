//! Counts of a function with its weight and its frame.

use crate::trees::alone;
use c_layout::{CType, Tags};
use c_tree::{Counts, DataDef, FnDef, LocalDef, TypedStmt, TypedTree, frame_of, weight_of};
use fc_base::{NoMemory, Place, Text};
use sqlite_items::Items;
use std::alloc::Global;
use std::process::Abort;
use std::test::Fail;

/// An empty function that has these counts.
fn function(alloc: Global, counts: Counts) -> Result<FnDef, NoMemory> {
    Ok(FnDef {
        name: Text::from_bytes(alloc, b"main")?,
        params: Items::new(alloc),
        result: CType::Void,
        inlined: false,
        alloc_size: None,
        locals: Items::<LocalDef>::new(alloc),
        counts,
        body: TypedStmt::Block {
            items: Items::new(alloc),
            place: Place { line: 1, col: 1 },
        },
    })
}

/// A tree of that function.
fn tree(alloc: Global, counts: Counts) -> Result<TypedTree, NoMemory> {
    let functions = alone(alloc, function(alloc, counts)?)?;
    Ok(TypedTree {
        tags: Tags::new(alloc),
        functions,
        objects: Items::<DataDef>::new(alloc),
        main: 0,
    })
}

/// The nodes, joins, register variables and frame of a function, and its weight.
const WEIGHTS: &[(u64, u64, u64, u64, u64)] = &[
    (0, 0, 0, 0, 80),
    (3, 1, 0, 16, 288),
    (10, 2, 3, 48, 896),
    (u64::MAX, 0, 0, 9223372036854775808, 9223372036854775808),
    (0, 4294967296, 4294967296, 32, 9223372036854775808),
    (0, 134217728, 134217728, 0, 288230380446679120),
];

/// Asserts that the tree has one function, of this weight and frame.
fn assert_function(rt: &impl Abort, tree: &TypedTree, weight: u64, frame: u64) {
    assert!(rt; tree.functions.len() == 1);
    assert!(rt; weight_of(tree, 0) == weight);
    assert!(rt; frame_of(tree, 0) == frame);
}

#[test]
fn weights_and_frames(rt: HostRuntime) -> Result<(), Fail> {
    for &(nodes, joins, vars, frame, weight) in WEIGHTS {
        let counts = Counts {
            nodes,
            joins,
            vars,
            frame,
        };
        let tree = tree(rt.alloc(), counts)?;
        assert_function(&rt, &tree, weight, frame);
    }
    Ok(())
}
