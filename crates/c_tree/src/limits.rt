//! The limit on trees.

/// The most nodes from the root of a written tree to a leaf, in an external declaration or in an expression that is parsed
/// by itself. What goes down a written tree by recursion nests no deeper.
pub const HEIGHT_LIMIT: usize = 400;

/// The most nodes from the root of a typed tree to a leaf: typing adds two conversions at most over one written node.
pub const TYPED_HEIGHT_LIMIT: usize = 3 * HEIGHT_LIMIT;
