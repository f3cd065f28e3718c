//! Sizes in bytes that stop at one past the largest type.

ghost use Rattle.std.specs.Prelude.{◌≡◌, ◌+◌, ◌^◌, ◌<◌, ◌≤◌};
ghost use Rattle.fc_base.specs.Widths.{width_bytes};
ghost use Rattle.c_layout.specs.Capped.{aggregate_of, capped, capped_size, offset_in, with_member};
ghost use Rattle.c_layout.specs.Layouts.{aligned, flexible, repeated, scalar, within_limit};

use crate::types::Layout;
use fc_base::Width;

/// The most bytes that one type may take.
pub const LARGEST_TYPE: u64 = 4_194_304;

/// The size, where it is within the limit, and else the first number past it.
fn cut(size: u64) -> u64
    ensures { result ≡ capped_size size }
{
    size.min(LARGEST_TYPE + 1)
}

/// A place that was cut at one past the limit, none where it is past it.
pub fn within_limit(place: u64) -> Option<u64>
    ensures { result ≡ within_limit place }
{
    if place <= LARGEST_TYPE {
        Some(place)
    } else {
        None
    }
}

/// The next multiple of the alignment, from a place on.
fn next_aligned(place: u64, align: u64) -> u64
    requires positive { 0 < align }
    requires fits { place + align < 2 ^ 64 }
    ensures { result ≡ aligned place align }
{
    (place + (align - 1)) / align * align
}

/// The layout of an integer.
pub fn integer(width: Width) -> Layout
    ensures { result ≡ scalar (width_bytes width) }
{
    let bytes = match width {
        Width::W1 => 1,
        Width::W2 => 2,
        Width::W4 => 4,
        Width::W8 => 8,
    };
    Layout {
        size: bytes,
        align: bytes,
    }
}

/// The layout of a pointer.
pub fn pointer() -> Layout
    ensures { result ≡ scalar 8 }
{
    Layout { size: 8, align: 8 }
}

/// The layout of an array.
pub fn array(count: u32, element: Layout) -> Layout
    requires { element.size ≤ LARGEST_TYPE + 1 }
    ensures { result ≡ capped (repeated count element) }
{
    Layout {
        size: cut(element.size * u64::from(count)),
        align: element.align,
    }
}

/// The layout of a flexible array member.
pub fn open_array(element: Layout) -> Layout
    ensures { result ≡ flexible element }
{
    Layout {
        size: 0,
        align: element.align,
    }
}

/// Members placed one behind another: where the last of them stands, where it ends, and the greatest size and
/// alignment.
#[derive(Clone, Copy)]
pub struct Placed {
    pub last: u64,
    pub end: u64,
    pub size: u64,
    pub align: u64,
}

impl Placed {
    /// No member so far.
    pub const NOTHING: Placed = Placed {
        last: 0,
        end: 0,
        size: 0,
        align: 1,
    };

    /// Places one more member.
    pub fn with(self, layout: Layout) -> Placed
        requires positive { 0 < layout.align }
        requires small { layout.align ≤ 8 }
        requires end { self.end ≤ LARGEST_TYPE + 1 }
        requires size { layout.size ≤ LARGEST_TYPE + 1 }
        ensures { result ≡ with_member self layout }
    {
        let last = cut(next_aligned(self.end, layout.align));
        Placed {
            last,
            end: cut(last + layout.size),
            size: cut(self.size.max(layout.size)),
            align: self.align.max(layout.align),
        }
    }

    /// Where the last member stands: in a union at its start.
    pub fn offset(self, is_union: bool) -> u64
        ensures { result ≡ offset_in is_union self }
    {
        if is_union { 0 } else { self.last }
    }

    /// The structure or union of the members.
    pub fn aggregate(self, is_union: bool) -> Layout
        requires positive { 0 < self.align }
        requires small { self.align ≤ 8 }
        requires end { self.end ≤ LARGEST_TYPE + 1 }
        requires size { self.size ≤ LARGEST_TYPE + 1 }
        ensures { result ≡ capped (aggregate_of is_union self) }
    {
        let size = if is_union { self.size } else { self.end };
        Layout {
            size: cut(next_aligned(size, self.align)),
            align: self.align,
        }
    }
}
