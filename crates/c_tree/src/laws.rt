//! Laws of the definitions: each is the clause of a function that does nothing.

ghost use Rattle.std.specs.Prelude.{[], ◌∷◌};
ghost use Rattle.c_tree.specs.Rows.{HasCounts, form, inlined, counting};

/// The counts and weights of two functions that are worked by hand.
pub fn counts_law()
    ensures form { HasCounts (form ∷ []) form 672 }
    ensures counting { HasCounts (counting ∷ inlined ∷ []) counting 2432 }
{}
