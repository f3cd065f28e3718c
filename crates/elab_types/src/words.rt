//! The type that basic words name (C11 6.7.2p2).

ghost use Rattle.std.specs.Prelude.{◌≡◌, List};
ghost use Rattle.c_tree.specs.declared.nodes.BasicWord.{BasicWord as Word};
ghost use Rattle.elab_meaning.specs.Declarations.{basic_type};
ghost use Rattle.elab_types.specs.Words.{no_words, with_word, words_of, word_type};

use c_layout::CType;
use c_tree::BasicWord;
use fc_base::Width;

/// Which basic words stand in a list of specifiers, and how often `long`, twice at most.
#[derive(Clone, Copy)]
pub struct Words {
    void: bool,
    character: bool,
    short: bool,
    signed: bool,
    unsigned: bool,
    longs: u8,
}

impl Words {
    pub const NONE: Words = Words {
        void: false,
        character: false,
        short: false,
        signed: false,
        unsigned: false,
        longs: 0,
    };

    /// With a word more.
    pub fn with(self, word: BasicWord) -> Words
        ensures { result ≡ with_word self word }
    {
        let mut words = self;
        match word {
            BasicWord::Void => words.void = true,
            BasicWord::Char => words.character = true,
            BasicWord::Short => words.short = true,
            BasicWord::Int => (),
            BasicWord::Long => words.longs = if self.longs == 0 { 1 } else { 2 },
            BasicWord::Signed => words.signed = true,
            BasicWord::Unsigned => words.unsigned = true,
        }
        words
    }

    /// The type that they name.
    pub fn ctype(self) -> CType
        ensures { result ≡ word_type self }
    {
        if self.void {
            return CType::Void;
        }
        let signed = !self.unsigned;
        if self.character {
            return integer(Width::W1, signed, signed && !self.signed, false);
        }
        if self.short {
            return integer(Width::W2, signed, false, false);
        }
        match self.longs {
            0 => integer(Width::W4, signed, false, false),
            1 => integer(Width::W8, signed, false, false),
            _ => integer(Width::W8, signed, false, true),
        }
    }
}

fn integer(width: Width, signed: bool, plain_char: bool, long_long: bool) -> CType
    ensures { result ≡ CType.Int width signed plain_char long_long }
{
    CType::Int {
        width,
        signed,
        plain_char,
        long_long,
    }
}

/// The words of a list, one behind another, name the type that the list names.
#[tactic(auto, using(crate::proofs::NamedTypes::named_type))]
pub fn words_law()
    ensures { (words : List Word) → word_type (words_of words) ≡ basic_type words }
{}
