//! The usual arithmetic conversions (C11 6.3.1.8).

ghost use Rattle.std.specs.Prelude.{◌≡◌};
ghost use Rattle.c_layout.specs.Types.{promoted};
ghost use Rattle.c_tree.specs.Conversions.{balanced, common, higher, mixed, number_type, rank, rank_place, ranked};

use c_arithmetic::IntType;
use c_layout::CType;
use fc_base::Width;

/// The ranks of promoted types, lowest first (C11 6.3.1.1p1).
#[derive(Clone, Copy, PartialEq, Eq)]
pub enum Rank {
    Int,
    Long,
    LongLong,
}

impl Rank {
    fn place(self) -> u8
        ensures { result ≡ rank_place self }
    {
        match self {
            Rank::Int => 0,
            Rank::Long => 1,
            Rank::LongLong => 2,
        }
    }

    fn higher(self, other: Rank) -> Rank
        ensures { result ≡ higher self other }
    {
        if self.place() < other.place() {
            other
        } else {
            self
        }
    }
}

/// The integer type of a rank, signed or not.
pub fn ranked(rank: Rank, signed: bool) -> CType
    ensures { result ≡ ranked rank signed }
{
    CType::Int {
        width: match rank {
            Rank::Int => Width::W4,
            Rank::Long | Rank::LongLong => Width::W8,
        },
        signed,
        plain_char: false,
        long_long: rank == Rank::LongLong,
    }
}

/// The rank that an integer type has once it is promoted.
pub fn rank_of(ctype: &CType) -> Rank
    ensures { result ≡ rank ctype.now }
{
    match ctype {
        CType::Int {
            width: Width::W8,
            long_long,
            ..
        } => {
            if *long_long {
                Rank::LongLong
            } else {
                Rank::Long
            }
        }
        _ => Rank::Int,
    }
}

/// How an integer, or a pointer as a number, is kept.
pub fn number_type(ctype: &CType) -> IntType
    ensures { result ≡ number_type ctype.now }
{
    match ctype {
        CType::Int { width, signed, .. } => IntType {
            width: *width,
            signed: *signed,
        },
        _ => IntType {
            width: Width::W8,
            signed: false,
        },
    }
}

/// Whether an integer type is signed once it is promoted.
fn is_signed(ctype: &CType) -> bool
    ensures { result ≡ (number_type (promoted ctype.now)).signed }
{
    match ctype {
        CType::Int {
            width: Width::W1 | Width::W2,
            ..
        } => true,
        CType::Int { signed, .. } => *signed,
        _ => false,
    }
}

/// The common type of a signed type and an unsigned one, by their ranks.
fn mixed(signed: Rank, unsigned: Rank) -> CType
    ensures { result ≡ mixed signed unsigned }
{
    match (signed, unsigned) {
        (Rank::Long | Rank::LongLong, Rank::Int) => ranked(signed, true),
        (Rank::LongLong, Rank::Long) => ranked(Rank::LongLong, false),
        _ => ranked(unsigned, false),
    }
}

/// The common type of two integer types.
pub fn common(a: &CType, b: &CType) -> CType
    ensures { result ≡ common a.now b.now }
{
    match (is_signed(a), is_signed(b)) {
        (true, false) => mixed(rank_of(a), rank_of(b)),
        (false, true) => mixed(rank_of(b), rank_of(a)),
        (signed, _) => ranked(rank_of(a).higher(rank_of(b)), signed),
    }
}
