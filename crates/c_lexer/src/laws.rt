//! Laws of lexed texts.

ghost use Rattle.std.specs.Prelude.{◌≡◌, ℕ, List, Option, Result};
ghost use Rattle.fc_base.specs.declared.refusals.Refusal.{Refusal};
ghost use Rattle.c_tokens.specs.declared.tokens.Token.{Token};
ghost use Rattle.c_tokens.specs.declared.pieces.Piece.{Piece};
ghost use Rattle.c_tokens.specs.declared.tokens.TokenKind.{TokenKind};
ghost use Rattle.c_tokens.specs.Pieces.{Spells};
ghost use Rattle.c_lexer.specs.Longest.{LongestFront, longest};
ghost use Rattle.c_lexer.specs.Lexed.{lexed};
ghost use Rattle.c_lexer.specs.Cuts.{IsLexed};
ghost use Rattle.c_lexer.specs.Respelled.{IsReadAs};

/// What `longest` finds is the longest front: the test takes it, and takes no longer one.
pub fn longest_fronts()
    ensures { (f : List ℕ → Option Piece) (text : List ℕ) → LongestFront f text (longest f text) }
{}

/// A source is lexed as one list of tokens or one refusal, and `lexed` is it.
pub fn cuts_of_sources()
    ensures each { (bytes : List ℕ) → IsLexed bytes (lexed bytes) }
    ensures only { (bytes : List ℕ) (outcome : Result (List Token) Refusal) →
        IsLexed bytes outcome → outcome ≡ lexed bytes }
{}

/// A spelling is read as one token of its kind.
pub fn readings_of_spellings()
    ensures { (text : List ℕ) (kind : TokenKind) → Spells text kind → IsReadAs text kind }
{}
