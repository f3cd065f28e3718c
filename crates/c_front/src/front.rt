//! The phases in their order.

ghost use Rattle.std.specs.Prelude.{◌<◌, length, IfOk};
ghost use Rattle.fc_base.specs.Answers.{Answers};
ghost use Rattle.fort_forms.specs.Forms.{IsForm};
ghost use Rattle.c_front.specs.Front.{Front};
ghost use Rattle.c_front.specs.Served.{Compiles};

use c_lexer::tokens;
use c_macros::expand;
use c_tokens::Token;
use fc_base::{Fault, Level, Place, Refusal, Rule};
use fort_forms::{Form, read_form};
use parse_decl::parse;
use std::alloc::Global;
use tree_drops::LetGo;

/// The refusal of an accepted source that isn't the form.
const NOT_THIS_FORM: Fault = Fault::Refused(Refusal {
    rule: Rule::NotThisForm,
    place: Place { line: 1, col: 1 },
});

/// The preprocessed tokens of a source that is accepted at a level, or the first refusal.
pub fn read_source(alloc: Global, source: &[u8], level: Level) -> Result<Vec<Token>, Fault>
    requires { length source.now < 4294967295 }
    ensures { Answers (λ tokens. tokens.items) result (Front level source.now) }
{
    let expanded = {
        let lexed = tokens(alloc, source)?;
        expand(alloc, &lexed, level)?
    };
    parse(alloc, &expanded)?.let_go();
    Ok(expanded)
}

/// The form that a source is compiled as at a level, or the first refusal.
pub fn read_form_of(alloc: Global, source: &[u8], level: Level) -> Result<Form, Fault>
    requires { length source.now < 4294967295 }
    ensures is { Answers (λ form. form) result (Compiles level source.now) }
    ensures form { IfOk result (λ form. IsForm form) }
{
    let expanded = read_source(alloc, source, level)?;
    match read_form(&expanded) {
        Some(form) => Ok(form),
        None => Err(NOT_THIS_FORM),
    }
}
