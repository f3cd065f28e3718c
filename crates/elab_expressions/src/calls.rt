//! Calls by their typed parts (C11 6.5.2.2).

ghost use Rattle.std.specs.Prelude.{◌≡◌, length, nat_lt, zip, if◌then◌else◌, Some, IfOk};
ghost use Rattle.std.specs.List.{list_all};
ghost use Rattle.std.specs.Option.{option_copied, option_map};
ghost use Rattle.c_tree.specs.Typed.{most_arguments};
ghost use Rattle.fc_base.specs.declared.refusals.Fault.TheVariants.{Refused};
ghost use Rattle.fc_base.specs.declared.rules.Rule.TheVariants.{BadCall, LimitArguments};
ghost use Rattle.elab_conversions.specs.Answers.{Gives};
ghost use Rattle.elab_meaning.specs.Conversions.{converted, fits, operand};
ghost use Rattle.elab_meaning.specs.Expressions.{converted_arguments, further_fit, right_number};
ghost use Rattle.elab_meaning.specs.Typing.{judged};
ghost use Rattle.elab_expressions.specs.Calls.{call_checks, call_of, converted_to, function_of};
ghost use Rattle.elab_expressions.specs.Words.{format_at, parts_of};

use crate::called::Called;
use crate::formats::{fits_format, text_of};
use crate::slices::behind;
use c_layout::{CType, Tags, promoted};
use c_tree::{Expr, TypedExpr, TypedKind};
use elab_conversions::{converted, fits, judge};
use fc_base::{Fault, NoMemory, Place, Rule};
use sqlite_items::{Items, at};
use std::alloc::Global;
use tree_drops::{LetGo, TypedExprItems, both};

/// So many arguments at most.
const MOST_ARGUMENTS: usize = 60;

/// Whether each argument that has a parameter fits it (C11 6.5.2.2p2).
fn arguments_fit(tags: &Tags, params: &[CType], args: &[TypedExpr]) -> bool
    ensures { result ≡ list_all (λ p. fits (operand tags.now p.1) p.0) (zip params.now args.now) }
{
    params
        .iter()
        .zip(args)
        .all(|(param, arg)| fits(tags, arg, param))
}

/// As many arguments as parameters, or no fewer where a format is the last.
fn right_number(f: &Called, args: &[TypedExpr]) -> bool
    ensures { result ≡ right_number (function_of f.now) args.now }
{
    if f.variadic {
        f.params.len() <= args.len()
    } else {
        f.params.len() == args.len()
    }
}

/// The bytes of the format among arguments, before which all but one of the parameters stand.
fn format_at(parts: &[Expr], params: usize) -> Option<&[u8]>
    ensures { option_map (λ text. text.now) result ≡ format_at (parts_of parts.now) params }
{
    let format = parts.get(params.saturating_sub(1))?;
    text_of(format)
}

/// Whether the arguments behind the format are those that it asks for.
fn further_fit(f: &Called, parts: &[Expr], args: &[TypedExpr]) -> bool
    ensures { result ≡ further_fit (function_of f.now) (parts_of parts.now) args.now }
{
    if !f.variadic {
        return true;
    }
    match format_at(parts, f.params.len()) {
        Some(text) => fits_format(text, behind(args, f.params.len())),
        None => true,
    }
}

/// The rules of a call of a function.
fn judge_call(
    tags: &Tags,
    f: &Called,
    parts: &[Expr],
    args: &[TypedExpr],
    at: Place,
) -> Result<(), Fault>
    ensures { Gives result (judged at (call_checks tags.now (Some (function_of f.now)) (parts_of parts.now) args.now) tt) }
{
    let checks = [
        (Rule::LimitArguments, args.len() > MOST_ARGUMENTS),
        (
            Rule::BadOperands,
            !arguments_fit(tags, f.params.as_slice(), args),
        ),
        (Rule::BadCall, !right_number(f, args)),
        (Rule::FormatArgs, !further_fit(f, parts, args)),
    ];
    judge(at, &checks)
}

/// An argument converted to its parameter's type, or a further one promoted (C11 6.5.2.2p7).
fn converted_to(alloc: Global, param: Option<&CType>, arg: TypedExpr) -> Result<TypedExpr, NoMemory>
    ensures { IfOk result (λ x. x ≡ converted_to (option_copied param.entry) arg) }
{
    match param {
        Some(param) => converted(alloc, param, arg),
        None => {
            let ctype = promoted(&arg.ctype);
            let (arg, ctype) = both(arg, ctype)?;
            promoted_to(alloc, ctype, arg)
        }
    }
}

/// The same with a type that is let go here.
fn promoted_to(alloc: Global, ctype: CType, arg: TypedExpr) -> Result<TypedExpr, NoMemory>
    ensures { IfOk result (λ x. x ≡ converted ctype arg) }
{
    let promoted = converted(alloc, &ctype, arg);
    ctype.let_go();
    promoted
}

/// Arguments converted to their parameters' types. It goes as deep as there are arguments.
fn all_converted(
    alloc: Global,
    params: &[CType],
    args: Items<TypedExpr>,
) -> Result<TypedExprItems, NoMemory>
    ensures { IfOk result (λ xs. xs ≡ converted_arguments params.now args) }
{
    let mut args = args;
    let Some(last) = args.pop() else {
        args.let_go();
        return Ok(TypedExprItems::new(alloc));
    };
    match converted_to(alloc, at(params, args.len()), last) {
        Ok(last) => {
            let (last, mut before) = both(last, all_converted(alloc, params, args))?;
            before.push(last)?;
            Ok(before)
        }
        Err(fault) => {
            args.let_go();
            Err(fault)
        }
    }
}

/// Arguments converted to these parameters' types.
fn converted_arguments(
    alloc: Global,
    params: Items<CType>,
    args: Items<TypedExpr>,
) -> Result<Items<TypedExpr>, NoMemory>
    ensures { IfOk result (λ xs. xs ≡ converted_arguments params args) }
{
    let all = all_converted(alloc, params.as_slice(), args);
    params.let_go();
    Ok(all?.finish())
}

/// A call of a function by its typed arguments.
fn call_of_function(
    alloc: Global,
    tags: &Tags,
    f: Called,
    parts: &[Expr],
    args: Items<TypedExpr>,
    at: Place,
) -> Result<TypedExpr, Fault>
    ensures { Gives result (call_of tags.now (Some (function_of f)) (parts_of parts.now) args at) }
{
    let judged = judge_call(tags, &f, parts, args.as_slice(), at);
    let ((f, args), _) = both((f, args), judged)?;
    let Called {
        callee,
        params,
        variadic: _,
        result: gives,
    } = f;
    let (gives, args) = both(gives, converted_arguments(alloc, params, args))?;
    Ok(TypedExpr {
        kind: TypedKind::Call { callee, args },
        ctype: gives,
        place: at,
    })
}

/// A call of what is no function.
fn call_of_other(args: Items<TypedExpr>, at: Place) -> Fault
    ensures { result ≡ Refused (record { rule = if nat_lt most_arguments (length args) then LimitArguments else BadCall; place = at }) }
{
    let rule = if args.len() > MOST_ARGUMENTS {
        Rule::LimitArguments
    } else {
        Rule::BadCall
    };
    args.let_go();
    Fault::refused(rule, at)
}

/// A call by its typed parts.
pub fn call_of(
    alloc: Global,
    tags: &Tags,
    f: Option<Called>,
    parts: &[Expr],
    args: Items<TypedExpr>,
    at: Place,
) -> Result<TypedExpr, Fault>
    ensures { Gives result (call_of tags.now (option_map function_of f) (parts_of parts.now) args at) }
{
    match f {
        Some(f) => call_of_function(alloc, tags, f, parts, args, at),
        None => Err(call_of_other(args, at)),
    }
}
