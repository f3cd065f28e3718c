//! Laws of rows: each is the clause of a function that does nothing.

ghost use Rattle.library_meaning.specs.Properties.{ChecksOnce, NothingRequested, OfEachRow, PointersFirst, PointersGiven};

/// Each row comes to exactly one check unless it stops before, and does nothing before it but read; that of a function without a
/// checked form comes first.
pub fn checks_law()
    ensures once { OfEachRow ChecksOnce }
    ensures nothing_requested { NothingRequested }
{}

/// Behind the check a row that reads a text beside another pointer looks at all of its pointers first.
pub fn order_law()
    ensures { PointersFirst }
{}

/// A call that gives a pointer gives its first argument, or a place behind it of which nothing is known (C11 7.24, POSIX, glibc).
pub fn results_law()
    ensures { PointersGiven }
{}
