//! Laws of the grammar: the heights that derivations count are those of their trees.

ghost use Rattle.std.specs.Prelude.{◌≡◌, ℕ, List};
ghost use Rattle.c_tree.specs.declared.nodes.Expr.{Expr};
ghost use Rattle.c_tree.specs.declared.externals.External.{External};
ghost use Rattle.c_tree.specs.declared.externals.FileTree.{FileTree};
ghost use Rattle.c_tree.specs.Heights.{IsWithinHeight, expr_height, external_height};
ghost use Rattle.parse_meaning.specs.Terminals.{Lexeme};
ghost use Rattle.parse_meaning.specs.Expressions.{IsExpr};
ghost use Rattle.parse_meaning.specs.File.{IsDerived, IsExternal};

/// The number of a derivation is the height of its tree.
pub fn height_is_its_trees()
    ensures expr { (l h : ℕ) (s t : List Lexeme) (x : Expr) → IsExpr l s x h t → expr_height x ≡ h }
    ensures external { (h : ℕ) (s t : List Lexeme) (x : External) (names : List (List ℕ)) → IsExternal s x names h t → external_height x ≡ h }
{}

/// A file's tree is within the limit on heights.
pub fn derived_is_low()
    ensures { (file : FileTree) → IsDerived file → IsWithinHeight file }
{}
