//! Laws of the grammar that reading shows: one list of tokens has one outcome, so that no production is ever preferred to
//! another and an `else` has one `if`.

ghost use Rattle.std.specs.Prelude.{◌≡◌, ◌≤◌, ℕ, List, [], Result};
ghost use Rattle.fc_base.specs.declared.refusals.Refusal.{Refusal};
ghost use Rattle.c_tokens.specs.declared.tokens.Token.{Token};
ghost use Rattle.c_tree.specs.declared.nodes.Expr.{Expr};
ghost use Rattle.c_tree.specs.declared.externals.External.{External};
ghost use Rattle.c_tree.specs.declared.externals.FileTree.{FileTree};
ghost use Rattle.parse_meaning.specs.Terminals.{Lexeme};
ghost use Rattle.parse_meaning.specs.Expressions.{IsExpr, expression};
ghost use Rattle.parse_meaning.specs.File.{Begins, Derives};

/// The tokens of an expression are one tree at each level.
pub fn expression_is_one()
    ensures { (l h j : ℕ) (s : List Lexeme) (x y : Expr) → l ≤ expression → IsExpr l s x h [] → IsExpr l s y j [] → (x ≡ y) × (h ≡ j) }
{}

/// A list begins with one external declaration at most, so the shortest that it begins with is the only one.
pub fn external_is_one()
    ensures { (types names others : List (List ℕ)) (s t u : List Token) (x y : External) → Begins types s x names t → Begins types s y others u →
        (x ≡ y) × (names ≡ others) × (t ≡ u) }
{}

/// A list of tokens derives one tree or refusal.
pub fn derives_one()
    ensures one { (s : List Token) (a b : Result FileTree Refusal) → Derives s a → Derives s b → a ≡ b }
    ensures some { (s : List Token) → (out : Result FileTree Refusal) × Derives s out }
{}
