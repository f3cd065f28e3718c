//! How often each kind of specifier stands in a list (C11 6.7.1, 6.7.2 and 6.7.4).

ghost use Rattle.std.specs.Prelude.{◌≡◌, ◌+◌, ◌<◌, ◌≤◌, ◌^◌};
ghost use Rattle.parse_meaning.specs.Specifiers as g;
ghost use Rattle.parse_meaning.specs.Specifiers.{together, may_stand, nothing};
ghost use Rattle.parse_leaves.specs.Counts.{tally_of, total, context_of};

/// Where a list of specifiers stands.
#[derive(Clone, Copy, PartialEq, Eq)]
pub enum Context {
    /// In an external declaration, or in a member of its structures.
    Outer,
    /// In a parameter or a type name.
    Inner,
    /// In a declaration of a block or of a `for`.
    Block,
}

/// How often each kind of specifier stands in a list. The names of types, structures, unions and enumerations count
/// as `whole`.
#[derive(Clone, Copy, PartialEq, Eq)]
pub struct Tally {
    pub typedef: usize,
    pub extern_: usize,
    pub static_: usize,
    pub inline: usize,
    pub whole: usize,
    pub void: usize,
    pub char: usize,
    pub short: usize,
    pub int: usize,
    pub long: usize,
    pub signed: usize,
    pub unsigned: usize,
}

impl Tally {
    pub fn nothing() -> Tally
        ensures tally { tally_of result ≡ nothing }
        ensures total { total result ≡ 0 }
    {
        Tally {
            typedef: 0,
            extern_: 0,
            static_: 0,
            inline: 0,
            whole: 0,
            void: 0,
            char: 0,
            short: 0,
            int: 0,
            long: 0,
            signed: 0,
            unsigned: 0,
        }
    }

    /// One name of a type, a structure, a union or an enumeration.
    pub fn whole_type() -> Tally
        ensures tally { tally_of result ≡ g.whole_type }
        ensures total { total result ≡ 1 }
    {
        Tally {
            whole: 1,
            ..Tally::nothing()
        }
    }

    /// Both together.
    pub fn together(self, other: Tally) -> Tally
        requires { total self + total other < 2 ^ 64 }
        ensures tally { tally_of result ≡ together (tally_of self) (tally_of other) }
        ensures total { total result ≡ total self + total other }
    {
        Tally {
            typedef: self.typedef + other.typedef,
            extern_: self.extern_ + other.extern_,
            static_: self.static_ + other.static_,
            inline: self.inline + other.inline,
            whole: self.whole + other.whole,
            void: self.void + other.void,
            char: self.char + other.char,
            short: self.short + other.short,
            int: self.int + other.int,
            long: self.long + other.long,
            signed: self.signed + other.signed,
            unsigned: self.unsigned + other.unsigned,
        }
    }

    fn has_sign(&self) -> bool
        requires { total self.now < 2 ^ 64 }
        ensures { result ≡ g.has_sign (tally_of self.now) }
    {
        self.signed + self.unsigned <= 1
    }

    fn is_void(&self) -> bool
        requires { total self.now < 2 ^ 64 }
        ensures { result ≡ g.is_void (tally_of self.now) }
    {
        self.void == 1
            && self.char + self.short + self.int + self.long + self.signed + self.unsigned == 0
    }

    fn is_char(&self) -> bool
        requires { total self.now < 2 ^ 64 }
        ensures { result ≡ g.is_char (tally_of self.now) }
    {
        self.char == 1 && self.void + self.short + self.int + self.long == 0 && self.has_sign()
    }

    fn is_short(&self) -> bool
        requires { total self.now < 2 ^ 64 }
        ensures { result ≡ g.is_short (tally_of self.now) }
    {
        self.short == 1
            && self.void + self.char + self.long == 0
            && self.int <= 1
            && self.has_sign()
    }

    fn is_int(&self) -> bool
        requires { total self.now < 2 ^ 64 }
        ensures { result ≡ g.is_int (tally_of self.now) }
    {
        self.void + self.char + self.short == 0
            && 1 <= self.int + self.long + self.signed + self.unsigned
            && self.int <= 1
            && self.long <= 2
            && self.has_sign()
    }

    /// The words are a basic type (C11 6.7.2, paragraph 2, without the floating types).
    fn is_combination(&self) -> bool
        requires { total self.now < 2 ^ 64 }
        ensures { result ≡ g.is_combination (tally_of self.now) }
    {
        self.is_void() || self.is_char() || self.is_short() || self.is_int()
    }

    fn has_no_words(&self) -> bool
        requires { total self.now < 2 ^ 64 }
        ensures { result ≡ g.has_no_words (tally_of self.now) }
    {
        self.void + self.char + self.short + self.int + self.long + self.signed + self.unsigned == 0
    }

    /// C11 6.7.2, paragraph 2
    fn has_one_type(&self) -> bool
        requires { total self.now < 2 ^ 64 }
        ensures { result ≡ g.has_one_type (tally_of self.now) }
    {
        (self.whole == 0 && self.is_combination()) || (self.whole == 1 && self.has_no_words())
    }

    /// At most one storage class (C11 6.7.1, paragraph 2).
    fn has_one_class(&self) -> bool
        requires { total self.now < 2 ^ 64 }
        ensures { result ≡ g.has_one_class (tally_of self.now) }
    {
        self.typedef + self.extern_ + self.static_ <= 1
    }

    fn may_stand_in(&self, context: Context) -> bool
        requires { total self.now < 2 ^ 64 }
        ensures { result ≡ g.may_stand_in (context_of context) (tally_of self.now) }
    {
        match context {
            Context::Outer => true,
            Context::Inner => self.typedef == 0,
            Context::Block => self.typedef + self.extern_ + self.inline == 0,
        }
    }

    /// Whether such a list may stand there: it has exactly one type and at most one storage class.
    pub fn may_stand(&self, context: Context) -> bool
        requires { total self.now < 2 ^ 64 }
        ensures { result ≡ may_stand (context_of context) (tally_of self.now) }
    {
        self.has_one_type() && self.has_one_class() && self.may_stand_in(context)
    }
}
