//! Laws of the table: each is the clause of a function that does nothing.

ghost use Rattle.std.specs.Prelude.{◌≡◌, Bool, Some, length, slice_get};
ghost use Rattle.c_library.specs.declared.functions.LibFn.{LibFn};
ghost use Rattle.c_library.specs.Library.{library, row_of, host_number, call_of};

/// The functions are numbered from 0, in the order of their list, and no two have one name.
pub fn library_law()
    ensures numbered { (f : LibFn) → slice_get library (row_of f).number ≡ Some f }
    ensures all { length library ≡ 31 }
    ensures named { (f g : LibFn) → (row_of f).name ≡ (row_of g).name → f ≡ g }
{}

/// No two forms of functions have one number, and a form is the one that its number names.
pub fn host_numbers_law()
    ensures apart { (f g : LibFn) (a b : Bool) → host_number f a ≡ host_number g b → (f ≡ g) × (a ≡ b) }
    ensures named { (f : LibFn) (a : Bool) → call_of (host_number f a) ≡ Some (f, a) }
{}
