//! The numbers of pointer sums, and where they lead (C11 6.5.6p8).

ghost use Rattle.std.specs.Prelude.{◌≡◌, pos, neg_ℤ, ◌+ℤ◌, ◌*ℤ◌};
ghost use Rattle.c_arithmetic.specs.Arithmetic.{integer};
ghost use Rattle.elab_meaning.specs.Addresses.{within};
ghost use Rattle.elab_constants.specs.Steps.{directed, signed_count};

/// So many elements, forth or back.
#[derive(Clone, Copy)]
pub struct Steps {
    pub count: u64,
    pub back: bool,
}

impl Steps {
    /// The integer that 64 bits stand for.
    pub fn of(bits: u64, signed: bool) -> Steps
        ensures { signed_count result ≡ integer signed bits }
    {
        if signed && bits >= 1 << 63 {
            Steps {
                count: u64::MAX - bits + 1,
                back: true,
            }
        } else {
            Steps {
                count: bits,
                back: false,
            }
        }
    }

    /// The same, or as many the other way.
    pub fn directed(self, back: bool) -> Steps
        ensures { signed_count result ≡ directed back (signed_count self) }
    {
        Steps {
            count: self.count,
            back: self.back != back,
        }
    }
}

/// A place in an object of that size, its end included.
fn within(size: u32, place: u64) -> Option<u32>
    ensures { result ≡ within size (pos place) }
{
    if place <= u64::from(size) {
        Some(place as u32)
    } else {
        None
    }
}

/// So many bytes behind an offset.
fn behind(size: u32, offset: u32, bytes: u64) -> Option<u32>
    ensures { result ≡ within size (pos offset +ℤ pos bytes) }
{
    match u64::from(offset).checked_add(bytes) {
        Some(place) => within(size, place),
        None => None,
    }
}

/// So many bytes before an offset.
fn before(size: u32, offset: u32, bytes: u64) -> Option<u32>
    ensures { result ≡ within size (pos offset +ℤ neg_ℤ (pos bytes)) }
{
    match u64::from(offset).checked_sub(bytes) {
        Some(place) => within(size, place),
        None => None,
    }
}

/// Where so many elements of a size lead from an offset, if it is in an object of that size.
pub fn reached(size: u32, offset: u32, steps: Steps, element: u64) -> Option<u32>
    ensures { result ≡ within size (pos offset +ℤ (signed_count steps *ℤ pos element)) }
{
    match steps.count.checked_mul(element) {
        Some(bytes) if steps.back => before(size, offset, bytes),
        Some(bytes) => behind(size, offset, bytes),
        None => None,
    }
}
