//! What a list of specifiers says (C11 6.7.1 to 6.7.4).

ghost use Rattle.std.specs.Prelude.{◌≡◌, ◌||◌};
ghost use Rattle.elab_meaning.specs.Declarations as meant;
ghost use Rattle.elab_types.specs.Specifiers.{gathered, nothing, finished, has_words};

use crate::words::Words;
use c_layout::CType;
use c_tree::{Attribute, BasicWord};

/// What one specifier says. Of attributes it is kept whether `alloc_size` is among them.
#[derive(Drop)]
pub enum Meaning {
    Typedef,
    Static,
    Inline,
    /// `extern` or `const`
    Plain,
    Attributes { alloc_size: bool },
    Basic(BasicWord),
    /// A typedef's name, a structure, a union or an enumeration.
    Type(CType),
}

/// What a list of specifiers says.
#[derive(Drop)]
pub struct Specifiers {
    pub base: CType,
    pub is_typedef: bool,
    pub is_static: bool,
    pub is_inline: bool,
    pub has_alloc_size: bool,
}

/// What the specifiers so far say.
#[derive(Drop)]
pub struct Gathered {
    ctype: Option<CType>,
    words: Words,
    is_typedef: bool,
    is_static: bool,
    is_inline: bool,
    has_alloc_size: bool,
}

/// Whether one of these attributes is `alloc_size` (GCC manual, "Common Function Attributes").
pub fn has_alloc_size(attributes: &[Attribute]) -> bool
    ensures { result ≡ meant.has_alloc_size attributes.now }
{
    attributes.iter().any(|attribute| attribute.name.bytes() == b"alloc_size".as_slice())
}

impl Gathered {
    /// No specifier.
    pub fn nothing() -> Gathered
        ensures { result ≡ nothing }
    {
        Gathered {
            ctype: None,
            words: Words::NONE,
            is_typedef: false,
            is_static: false,
            is_inline: false,
            has_alloc_size: false,
        }
    }

    /// With a specifier more.
    pub fn with(self, meaning: Meaning) -> Gathered
        ensures { result ≡ gathered self meaning }
    {
        let mut all = self;
        match meaning {
            Meaning::Typedef => all.is_typedef = true,
            Meaning::Static => all.is_static = true,
            Meaning::Inline => all.is_inline = true,
            Meaning::Plain => (),
            Meaning::Attributes { alloc_size } => {
                all.has_alloc_size = all.has_alloc_size || alloc_size
            }
            Meaning::Basic(word) => all.words = all.words.with(word),
            Meaning::Type(ctype) => {
                if all.ctype.is_none() {
                    all.ctype = Some(ctype);
                }
            }
        }
        all
    }

    /// What the whole list says: its one type, or the one that its basic words name.
    pub fn finish(self) -> Specifiers
        ensures { result ≡ finished self }
    {
        let Gathered {
            ctype,
            words,
            is_typedef,
            is_static,
            is_inline,
            has_alloc_size,
        } = self;
        let base = match ctype {
            Some(ctype) => ctype,
            None => words.ctype(),
        };
        Specifiers {
            base,
            is_typedef,
            is_static,
            is_inline,
            has_alloc_size,
        }
    }
}

impl Specifiers {
    /// Whether there is a word among them that only a function may have.
    pub fn has_function_words(&self) -> bool
        ensures { result ≡ has_words self.now }
    {
        self.is_inline || self.has_alloc_size
    }
}
