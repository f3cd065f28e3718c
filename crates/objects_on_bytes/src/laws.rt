//! Laws of rows: each is the clause of a function that does nothing.

ghost use Rattle.library_meaning.specs.Properties.{OfEachRow};
ghost use Rattle.objects_on_bytes.specs.Calls.{CallsFollow};
ghost use Rattle.objects_on_bytes.specs.Rows.{IsBytewise, RowsLaw};

/// A call on bytes follows the call on objects, for each row of the library and every other one that stores bytes where it reads bytes.
pub fn calls_follow()
    ensures { CallsFollow }
{}

/// Each row of the library is such a row.
pub fn table_is_bytewise()
    ensures { OfEachRow IsBytewise }
{}

/// A call ends with the overflow exactly where its request exceeds, and one that shows and takes nothing leaves the world alone.
pub fn rows_law()
    ensures { RowsLaw }
{}
