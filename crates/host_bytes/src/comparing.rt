//! Bytes that are compared.

ghost use Rattle.std.specs.Prelude.{◌≡◌, length};
ghost use Rattle.library_meaning.specs.Table.{order_of};

use std::cmp::Ordering;

/// How many bytes are compared at once: a rest of fewer would be compared byte by byte.
const WORD: usize = 8;

fn order(left: &[u8], right: &[u8]) -> u64
    requires { length left.now ≡ length right.now }
    ensures { result ≡ order_of left.now right.now }
{
    match left.cmp(&right) {
        Ordering::Less => u64::MAX,
        Ordering::Equal => 0,
        Ordering::Greater => 1,
    }
}

/// -1, 0 or 1 by the first unequal bytes of two lists of one length.
pub fn compare(left: &[u8], right: &[u8]) -> u64
    requires { length left.now ≡ length right.now }
    ensures { result ≡ order_of left.now right.now }
{
    let count = left.len();
    let rest = count % WORD;
    if count < WORD || rest == 0 {
        return order(left, right);
    }
    let front = order(&left[..count - rest], &right[..count - rest]);
    if front != 0 {
        return front;
    }
    order(&left[count - WORD..], &right[count - WORD..])
}
