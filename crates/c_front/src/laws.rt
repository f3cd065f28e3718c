//! The laws of the definitions. Each function has an empty body: its contract is the law.

ghost use Rattle.std.specs.Prelude.{◌≡◌, ℕ, ◌<◌, ◌^◌, List, Result, Ok, decimal};
ghost use Rattle.fc_base.specs.declared.Level.{Level};
ghost use Rattle.fc_base.specs.declared.Refusal.{Refusal};
ghost use Rattle.c_lexer.specs.Lexed.{lexed};
ghost use Rattle.c_lexer.specs.Respelled.{first_token};
ghost use Rattle.fort_forms.specs.declared.Form.{Form};
ghost use Rattle.macro_meaning.specs.Definitions.{number_token};
ghost use Rattle.c_front.specs.Front.{Accepted, Front};
ghost use Rattle.c_front.specs.Served.{Compiles};

/// Every source has an outcome of the front at each level, and one only.
pub fn one_front()
    ensures some { (level : Level) (source : List ℕ) → (out : Result Accepted Refusal) × Front level source out }
    ensures one { (level : Level) (source : List ℕ) (a b : Result Accepted Refusal) →
        Front level source a → Front level source b → a ≡ b }
{}

/// And so has each source that is to be compiled.
pub fn one_compiled()
    ensures some { (level : Level) (source : List ℕ) → (out : Result Form Refusal) × Compiles level source out }
    ensures one { (level : Level) (source : List ℕ) (a b : Result Form Refusal) →
        Compiles level source a → Compiles level source b → a ≡ b }
{}

/// The token of a number is the one that its decimal digits are lexed as.
pub fn numbers_are_lexed()
    ensures { (n : ℕ) → n < 2 ^ 64 → lexed (decimal n) ≡ Ok (first_token (number_token n)) }
{}
