//! The weight and the frame of a function.

ghost use Rattle.std.specs.Prelude.{◌≡◌, ◌+◌, ◌*◌, ◌<◌, ◌≤◌, min, length, slice_get, IfSome};
ghost use Rattle.c_tree.specs.Weights.{stop, weight};

use crate::programs::TypedTree;

/// Where sums and products stop.
const STOP: u64 = 1 << 63;

fn sum(a: u64, b: u64) -> u64
    ensures { result ≡ min (a + b) stop }
{
    a.saturating_add(b).min(STOP)
}

fn product(a: u64, b: u64) -> u64
    ensures { result ≡ min (a * b) stop }
{
    a.saturating_mul(b).min(STOP)
}

/// The weight of a function by its counts: 64 for each node and 64 more, and 16 for each pair of a join and a register
/// variable, with one more of each. Each sum and product stops at 2^63.
pub fn weight_of(tree: &TypedTree, function: usize) -> u64
    requires { function < length tree.now.functions }
    ensures { IfSome (slice_get tree.now.functions function) (λ f. result ≡ weight f.counts) }
{
    let counts = tree.functions.as_slice()[function].counts;
    let straight = product(64, sum(counts.nodes, 1));
    let joined = product(product(16, sum(counts.joins, 1)), sum(counts.vars, 1));
    sum(straight, joined)
}

/// The bytes of a function's frame, by its counts.
pub fn frame_of(tree: &TypedTree, function: usize) -> u64
    requires { function < length tree.now.functions }
    ensures { IfSome (slice_get tree.now.functions function) (λ f. result ≡ f.counts.frame) }
{
    tree.functions.as_slice()[function].counts.frame
}
