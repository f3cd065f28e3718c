//! Laws of pieces and of their spellings.

ghost use Rattle.std.specs.Prelude.{◌≡◌, ◌++◌, ◌↔◌, ℕ, Bool, true, false, IsTrue, List, Some, codes};
ghost use Rattle.fc_base.specs.declared.rules.Rule.TheVariants.{OpenComment};
ghost use Rattle.c_tokens.specs.declared.pieces.Piece.TheVariants.{Space, Token, Refused};
ghost use Rattle.c_tokens.specs.declared.puncts.Punct.{Punct};
ghost use Rattle.c_tokens.specs.declared.tokens.TokenKind.{TokenKind};
ghost use Rattle.c_tokens.specs.Bytes.{is_quote};
ghost use Rattle.c_tokens.specs.Literals.{Shape, shape, HasShape, Character, characters, AreCharacters};
ghost use Rattle.c_tokens.specs.Pieces.{HasNoEnd, IsClosed, IsLexedKind, HasBytes, Spells, spelled};
ghost use Rattle.c_tokens.specs.Puncts.{punct_spelling, punctuator};
ghost use Rattle.c_tokens.specs.Spelling.{spelling_of};

/// Every token has a kind that `spelling` takes, and each such kind that is no inclusion is a
/// token's.
pub fn kinds_of_tokens()
    ensures only { (after_include : Bool) (text : List ℕ) (kind : TokenKind) →
        spelled after_include text ≡ Some (Token kind) → IsLexedKind kind }
    ensures each { (kind : TokenKind) →
        IsLexedKind kind → HasBytes kind → Spells (spelling_of kind) kind }
{}

/// A punctuator is spelled in one way.
pub fn spellings_of_punctuators()
    ensures only { (text : List ℕ) (punct : Punct) →
        punctuator text ≡ Some punct → text ≡ punct_spelling punct }
    ensures each { (punct : Punct) → punctuator (punct_spelling punct) ≡ Some punct }
{}

/// A string literal or character constant goes up to the first quote that is not escaped.
pub fn ends_of_literals()
    ensures { (quote : ℕ) (s : Shape) (bs : List ℕ) → IsTrue (is_quote quote) →
        shape quote true false bs ≡ Some s ↔ HasShape quote s bs }
{}

/// A literal's body is cut into characters in one way.
pub fn characters_of_bodies()
    ensures only { (offset : ℕ) (body : List ℕ) (found : List Character) →
        AreCharacters offset body found → found ≡ characters offset 0 body }
    ensures each { (offset : ℕ) (body : List ℕ) →
        AreCharacters offset body (characters offset 0 body) }
{}

/// A comment goes up to the first `*/`, and is open without one.
pub fn ends_of_comments()
    ensures closed { (after_include : Bool) (bs : List ℕ) →
        spelled after_include (codes "/*" ++ bs) ≡ Some Space ↔ IsClosed bs }
    ensures open { (after_include : Bool) (bs : List ℕ) →
        spelled after_include (codes "/*" ++ bs) ≡ Some (Refused OpenComment 0) ↔ HasNoEnd bs }
{}
