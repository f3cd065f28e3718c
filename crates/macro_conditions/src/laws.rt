//! The law of the definitions.

ghost use Rattle.std.specs.Prelude.{◌≡◌, List, Option, Bool};
ghost use Rattle.c_tokens.specs.declared.TokenKind.{TokenKind};
ghost use Rattle.macro_conditions.specs.Conditions.{Decides};

/// Every line is decided, and in one way only. The body is empty: the contract is the law.
pub fn one_decision()
    ensures some { (line : List TokenKind) → (d : Option Bool) × Decides line d }
    ensures one { (line : List TokenKind) (a b : Option Bool) → Decides line a → Decides line b → a ≡ b }
{}
