//! Laws of the table: each is the clause of a function that does nothing.

ghost use Rattle.std.specs.Prelude.{◌≡◌, ◌<◌, ◌^◌, ℕ, ℤ, Bool};
ghost use Rattle.c_arithmetic.specs.declared.operators.IntType.{IntType};
ghost use Rattle.c_arithmetic.specs.Arithmetic.{integer, converted, cut, Holds};

/// Cutting 64 bits to a type converts the number that they stand for in whichever type.
pub fn conversion_law()
    ensures { (t : IntType) (signed : Bool) (bits : ℕ) → bits < 2 ^ 64 → converted t (integer signed bits) ≡ cut t bits }
{}

/// What is cut to a type is a value of it.
pub fn values_law()
    ensures { (t : IntType) (bits : ℕ) → cut t (cut t bits) ≡ cut t bits }
{}

/// A number that the type holds is converted to itself.
pub fn exact_law()
    ensures { (t : IntType) (z : ℤ) → Holds t z → integer t.signed (converted t z) ≡ z }
{}
