//! Laws of the table: each is the clause of a function that does nothing.

ghost use Rattle.std.specs.Prelude.{◌≡◌, ◌≢◌, ℕ, List, Some, Contains, slice_get};
ghost use Rattle.c_library.specs.declared.functions.LibFn.{LibFn};
ghost use Rattle.c_library.specs.declared.functions.LibFn.TheVariants.{Note};
ghost use Rattle.c_headers.specs.declared.headers.HeaderId.{HeaderId};
ghost use Rattle.c_headers.specs.Headers.{headers, header_row, header_name, header_number, header_named, HasHeader};

/// The headers are numbered from 0, in the order of their list. Between angle brackets each has its one name, and no
/// other text names one.
pub fn headers_law()
    ensures numbered { (h : HeaderId) → slice_get headers (header_number h) ≡ Some h }
    ensures known { (h : HeaderId) → header_named (header_name h) ≡ Some h }
    ensures only { (name : List ℕ) (h : HeaderId) → header_named name ≡ Some h → name ≡ header_name h }
{}

/// Each function but the line that shows a size is declared by one header.
pub fn declarations_law()
    ensures some { (f : LibFn) → f ≢ Note → HasHeader f }
    ensures one { (f : LibFn) (g h : HeaderId) → Contains (header_row g).functions f → Contains (header_row h).functions f → g ≡ h }
{}
