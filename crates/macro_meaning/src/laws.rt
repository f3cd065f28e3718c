//! The laws of the definitions. Each function has an empty body: its contract is the law.

ghost use Rattle.std.specs.Prelude.{◌≡◌, ℕ, List, Ok, Some};
ghost use Rattle.std.specs.List.{All};
ghost use Rattle.fc_base.specs.declared.Level.{Level};
ghost use Rattle.c_tokens.specs.declared.Token.{Token};
ghost use Rattle.c_tokens.specs.Pieces.{IsLexedKind};
ghost use Rattle.macro_meaning.specs.Macros.{Name, Item, Macros};
ghost use Rattle.macro_meaning.specs.Definitions.{AreParameters, Parameters, parameters_of};
ghost use Rattle.macro_meaning.specs.Conditions.{IsAnswered};
ghost use Rattle.macro_meaning.specs.Replacement.{ReplacedList, Expands};
ghost use Rattle.macro_meaning.specs.Expansion.{Expanded, IsExpanded};
ghost use Rattle.macro_meaning.specs.Origins.{kinds, item_kinds, ReplacedFrom, ExpandedFrom};

/// Every list of tokens expands to a list or to a refusal, and to one only.
pub fn one_expansion()
    ensures some { (level : Level) (ts : List Token) → (out : Expanded) × IsExpanded level ts out }
    ensures one { (level : Level) (ts : List Token) (a b : Expanded) → IsExpanded level ts a → IsExpanded level ts b → a ≡ b }
{}

/// Every list has an outcome of macro replacement, at every depth, and no other.
pub fn one_replacement()
    ensures some { (ms : Macros) (depth count : ℕ) (ts : List Item) → (out : ReplacedList) × Expands ms depth count ts out }
    ensures one { (ms : Macros) (depth count : ℕ) (ts : List Item) (a b : ReplacedList)
        → Expands ms depth count ts a → Expands ms depth count ts b → a ≡ b }
{}

/// No token is spelled anew: the tokens that a list expands to are of kinds in the list, in replacement lists and of
/// inclusions. So where each token of a list can be spelled, each that it expands to can be.
pub fn origins()
    ensures replaced { (ms : Macros) (depth count : ℕ) (ts xs : List Item) (count' : ℕ)
        → Expands ms depth count ts (Ok (xs, count')) → All (ReplacedFrom ms ts) (item_kinds xs) }
    ensures expanded { (level : Level) (ts out : List Token) → IsExpanded level ts (Ok out) → All (ExpandedFrom level ts) (kinds out) }
    ensures spelled { (level : Level) (ts out : List Token)
        → IsExpanded level ts (Ok out) → All (λ t. IsLexedKind t.kind) ts → All (λ t. IsLexedKind t.kind) out }
{}

/// The parameters that are read behind a macro's name are those of the relation.
pub fn parameters()
    ensures read { (ts : List Token) (p : Parameters) → parameters_of ts ≡ Some p → AreParameters ts p.names p.rest }
    ensures all { (ts rest : List Token) (names : List Name) → AreParameters ts names rest
        → parameters_of ts ≡ Some (record { names = names; rest = rest }) }
{}

/// The line of a condition has at most one line in which each `defined` is answered.
pub fn one_answer()
    ensures { (ms : Macros) (line a b : List Token) → IsAnswered ms line a → IsAnswered ms line b → a ≡ b }
{}
