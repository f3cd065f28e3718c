//! The rules of the C subset.

ghost use Rattle.std.specs.Prelude.{◌≡◌};
ghost use Rattle.fc_base.specs.Names.{rule_name};

/// Why a source is refused, in the order in which the rules are looked at.
#[derive(Clone, Copy, Debug, PartialEq, Eq)]
pub enum Rule {
    /// A byte outside comments and literals begins no token.
    BadByte,
    /// A comment is not closed.
    OpenComment,
    /// A literal or header name meets a newline or the end.
    OpenText,
    /// An escape sequence outside the list, or over 255.
    BadEscape,
    /// An integer literal over 2^64 - 1.
    BigNumber,
    /// A number that is no integer literal, a prefixed literal, or a character constant of no or several bytes.
    LeftOutLiteral,
    /// More than 1,000,000 tokens.
    LimitTokens,
    /// A directive that is not known, in a taken group.
    UnknownDirective,
    /// An inclusion of anything but a known header in angle brackets.
    UnknownHeader,
    /// A `define`, `undef`, `ifdef` or `ifndef` without its one name, or with bad parameters.
    BadDefine,
    /// A second definition of a macro with other parameters or tokens.
    Redefined,
    /// `#` or `##` in a replacement list.
    LeftOutOperator,
    /// A condition that is no constant expression of integers.
    BadCondition,
    /// A macro call without its closing bracket, with another number of arguments, or nested too deep.
    MacroArguments,
    /// An `if` without `endif`, or an `elif`, `else` or `endif` out of place.
    OpenConditional,
    /// A keyword of C11 that is left out.
    LeftOutKeyword,
    /// More than 200 brackets open at once.
    LimitDepth,
    /// An external declaration without a derivation.
    Syntax,
    /// A name, tag or member declared twice.
    Redeclared,
    /// A name or member that is not declared.
    UnknownName,
    /// A type without a size where one is needed.
    IncompleteType,
    /// A type that C11 does not allow in a declaration.
    BadType,
    /// A type or the sum of data too large, or a type too deep.
    LimitObject,
    /// A structure or union as parameter or result.
    ByValue,
    /// A pointer to a function, or a function name that is not called.
    FunctionPointer,
    /// Over 60 parameters or arguments.
    LimitArguments,
    /// No constant where one is needed.
    NotConstant,
    /// Types that C11 refuses for the operator, assignment or call.
    BadOperands,
    /// No lvalue where one is needed.
    NotLvalue,
    /// A call of what is no function, or with another number of arguments.
    BadCall,
    /// A conversion between an integer and a pointer.
    IntPointerCast,
    /// A format that is no string literal.
    FormatLiteral,
    /// A conversion specification that is left out.
    FormatSpec,
    /// Arguments that do not fit the format.
    FormatArgs,
    /// A type argument of a size expression outside 0 to 3.
    SizeMode,
    /// An initialiser that does not fit what it initialises.
    BadInitialiser,
    /// A jump, label or return value out of place.
    BadStatement,
    /// An `alloc_size` attribute that does not fit its function.
    AllocSizeIndex,
    /// Over 4,096 function definitions.
    LimitFunctions,
    /// A called function without a definition.
    NoBody,
    /// Inline calls that form a cycle.
    InlineCycle,
    /// No `main` of an allowed form.
    NoMain,
    /// Functions too large in sum.
    LimitWeight,
    /// A source that is none of the forms compiled so far.
    NotThisForm,
}

impl Rule {
    /// The name that a refusal prints.
    pub fn name(self) -> &'static str
        ensures { result.now ≡ rule_name self }
    {
        match self {
            Rule::BadByte => "bad-byte",
            Rule::OpenComment => "open-comment",
            Rule::OpenText => "open-text",
            Rule::BadEscape => "bad-escape",
            Rule::BigNumber => "big-number",
            Rule::LeftOutLiteral => "left-out-literal",
            Rule::LimitTokens => "limit-tokens",
            Rule::UnknownDirective => "unknown-directive",
            Rule::UnknownHeader => "unknown-header",
            Rule::BadDefine => "bad-define",
            Rule::Redefined => "redefined",
            Rule::LeftOutOperator => "left-out-operator",
            Rule::BadCondition => "bad-condition",
            Rule::MacroArguments => "macro-arguments",
            Rule::OpenConditional => "open-conditional",
            Rule::LeftOutKeyword => "left-out-keyword",
            Rule::LimitDepth => "limit-depth",
            Rule::Syntax => "syntax",
            Rule::Redeclared => "redeclared",
            Rule::UnknownName => "unknown-name",
            Rule::IncompleteType => "incomplete-type",
            Rule::BadType => "bad-type",
            Rule::LimitObject => "limit-object",
            Rule::ByValue => "by-value",
            Rule::FunctionPointer => "function-pointer",
            Rule::LimitArguments => "limit-arguments",
            Rule::NotConstant => "not-constant",
            Rule::BadOperands => "bad-operands",
            Rule::NotLvalue => "not-lvalue",
            Rule::BadCall => "bad-call",
            Rule::IntPointerCast => "int-pointer-cast",
            Rule::FormatLiteral => "format-literal",
            Rule::FormatSpec => "format-spec",
            Rule::FormatArgs => "format-args",
            Rule::SizeMode => "size-mode",
            Rule::BadInitialiser => "bad-initialiser",
            Rule::BadStatement => "bad-statement",
            Rule::AllocSizeIndex => "alloc-size-index",
            Rule::LimitFunctions => "limit-functions",
            Rule::NoBody => "no-body",
            Rule::InlineCycle => "inline-cycle",
            Rule::NoMain => "no-main",
            Rule::LimitWeight => "limit-weight",
            Rule::NotThisForm => "not-this-form",
        }
    }
}
