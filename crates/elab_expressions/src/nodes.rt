//! Each kind of node by its written parts, over a function that types expressions (C11 6.5).

ghost use Rattle.std.specs.Prelude.{◌≡◌, ◌≤◌, max, None, IfOk};
ghost use Rattle.std.specs.Option.{option_map};
ghost use Rattle.c_tree.specs.Heights.{expr_height};
ghost use Rattle.elab_meaning.specs.Expressions.{assign_typed, base_part, binary_typed, cond_typed, index_typed, last_type, postfix_typed, prefix_typed, sizeof_typed, value_part, wanted_part};
ghost use Rattle.elab_meaning.specs.Nodes.{sizeof_type_node};
ghost use Rattle.elab_meaning.specs.Operators.{wanted};
ghost use Rattle.elab_meaning.specs.Trees.{read_expr};
ghost use Rattle.elab_meaning.specs.Typing.{by_tags};
ghost use Rattle.elab_scope.specs.States.{Types, Grows};
ghost use Rattle.elab_types.specs.Nests.{Nests, TypesAs};
ghost use Rattle.elab_expressions.specs.Calls.{arguments_by, before_and_behind, call_by, called_by, format_onto, function_of};
ghost use Rattle.elab_expressions.specs.Words.{both_parts, cast_behind, checked_format, comma_by, heights, member_by, name_in, parts_of, size_call_by, values_onto};

use crate::called::{Called, before_format, called_named, name_of};
use crate::calls::call_of;
use crate::formats::judge_format;
use crate::members::selected;
use crate::sizes::sized;
use crate::slices::{behind, front};
use c_layout::CType;
use c_tree::{AssignOp, BinaryOp, Expr, PostfixOp, PrefixOp, TypedExpr, TypedKind};
use elab_conversions::{Operators, decayed};
use elab_scope::State;
use fc_base::{Fault, NoMemory, Place};
use sqlite_items::{Items, at};
use std::alloc::Global;
use tree_drops::{LetGo, TypedExprItems, both};

/// Ends the operators at a place.
fn ended(operators: Operators<'_>) {
    let Operators {
        alloc: _,
        tags: _,
        at: _,
    } = operators;
}

/// The size of a type (C11 6.5.3.4).
pub fn size_of_type(alloc: Global, state: &State, of: CType, at: Place) -> Result<TypedExpr, Fault>
    ensures { Types (by_tags (λ tags. sizeof_type_node tags of at)) state.now result state.now }
{
    let operators = Operators {
        alloc,
        tags: state.scope.tags(),
        at,
    };
    let node = operators.size_of_type(of);
    ended(operators);
    node
}

/// The type of the last of several expressions.
#[tactic(auto, using(crate::proofs::Lists::last_is))]
fn last_type(values: &[TypedExpr]) -> Result<CType, NoMemory>
    ensures { IfOk result (λ t. t ≡ last_type values.now) }
{
    match at(values, values.len().saturating_sub(1)) {
        Some(value) => value.ctype.share(),
        None => Ok(CType::Void),
    }
}

/// Expressions over a function that types those no higher than the room.
#[derive(Clone, Copy)]
pub struct Nodes<F> {
    pub alloc: Global,
    pub room: usize,
    pub expr: F,
}

impl<F: Fn(Global, &mut State, &Expr, usize) -> Result<TypedExpr, Fault>> Nodes<F> {
    /// An expression before any conversion of its context.
    pub fn expression(&self, state: &mut State, expr: &Expr) -> Result<TypedExpr, Fault>
        requires nests { Nests self.now.room (F.pre self.now.expr) (F.post self.now.expr) }
        requires low { expr_height expr.now ≤ self.now.room }
        ensures types { Types (read_expr expr.now).typed state.old result state.new }
        ensures grows { Grows state.old state.new }
    {
        (self.expr)(self.alloc, state, expr, self.room)
    }

    /// An expression as a value: an array becomes a pointer.
    pub fn value(&self, state: &mut State, expr: &Expr) -> Result<TypedExpr, Fault>
        requires nests { Nests self.now.room (F.pre self.now.expr) (F.post self.now.expr) }
        requires low { expr_height expr.now ≤ self.now.room }
        ensures types { Types (value_part (read_expr expr.now)) state.old result state.new }
        ensures grows { Grows state.old state.new }
    {
        let typed = self.expression(state, expr)?;
        Ok(decayed(self.alloc, typed)?)
    }

    /// Two expressions as values.
    fn two(&self, state: &mut State, a: &Expr, b: &Expr) -> Result<(TypedExpr, TypedExpr), Fault>
        requires nests { Nests self.now.room (F.pre self.now.expr) (F.post self.now.expr) }
        requires low { max (expr_height a.now) (expr_height b.now) ≤ self.now.room }
        ensures types { Types (both_parts (value_part (read_expr a.now)) (value_part (read_expr b.now))) state.old result state.new }
        ensures grows { Grows state.old state.new }
    {
        let a = self.value(state, a)?;
        let b = self.value(state, b);
        both(a, b)
    }

    /// A binary operator.
    pub fn binary(
        &self,
        state: &mut State,
        op: BinaryOp,
        a: &Expr,
        b: &Expr,
        at: Place,
    ) -> Result<TypedExpr, Fault>
        requires nests { Nests self.now.room (F.pre self.now.expr) (F.post self.now.expr) }
        requires low { max (expr_height a.now) (expr_height b.now) ≤ self.now.room }
        ensures types { Types (binary_typed op (read_expr a.now) (read_expr b.now) at) state.old result state.new }
        ensures grows { Grows state.old state.new }
    {
        let (a, b) = self.two(state, a, b)?;
        let operators = Operators {
            alloc: self.alloc,
            tags: state.scope.tags(),
            at,
        };
        let node = operators.binary(op, a, b);
        ended(operators);
        node
    }

    /// An element of an array.
    pub fn index(
        &self,
        state: &mut State,
        a: &Expr,
        b: &Expr,
        at: Place,
    ) -> Result<TypedExpr, Fault>
        requires nests { Nests self.now.room (F.pre self.now.expr) (F.post self.now.expr) }
        requires low { max (expr_height a.now) (expr_height b.now) ≤ self.now.room }
        ensures types { Types (index_typed (read_expr a.now) (read_expr b.now) at) state.old result state.new }
        ensures grows { Grows state.old state.new }
    {
        let (a, b) = self.two(state, a, b)?;
        let operators = Operators {
            alloc: self.alloc,
            tags: state.scope.tags(),
            at,
        };
        let node = operators.index(a, b);
        ended(operators);
        node
    }

    /// A size expression.
    pub fn size_call(
        &self,
        state: &mut State,
        a: &Expr,
        b: &Expr,
        at: Place,
    ) -> Result<TypedExpr, Fault>
        requires nests { Nests self.now.room (F.pre self.now.expr) (F.post self.now.expr) }
        requires low { max (expr_height a.now) (expr_height b.now) ≤ self.now.room }
        ensures types { Types (size_call_by (read_expr a.now) (read_expr b.now) at) state.old result state.new }
        ensures grows { Grows state.old state.new }
    {
        let (pointer, mode) = self.two(state, a, b)?;
        sized(self.alloc, state.scope.tags(), pointer, mode, b.place, at)
    }

    /// The left side of an assignment, which stays as it is, and the right one as a value.
    fn sides(
        &self,
        state: &mut State,
        to: &Expr,
        from: &Expr,
    ) -> Result<(TypedExpr, TypedExpr), Fault>
        requires nests { Nests self.now.room (F.pre self.now.expr) (F.post self.now.expr) }
        requires low { max (expr_height to.now) (expr_height from.now) ≤ self.now.room }
        ensures types { Types (both_parts (read_expr to.now).typed (value_part (read_expr from.now))) state.old result state.new }
        ensures grows { Grows state.old state.new }
    {
        let to = self.expression(state, to)?;
        let from = self.value(state, from);
        both(to, from)
    }

    /// An assignment.
    pub fn assign(
        &self,
        state: &mut State,
        op: AssignOp,
        to: &Expr,
        from: &Expr,
        at: Place,
    ) -> Result<TypedExpr, Fault>
        requires nests { Nests self.now.room (F.pre self.now.expr) (F.post self.now.expr) }
        requires low { max (expr_height to.now) (expr_height from.now) ≤ self.now.room }
        ensures types { Types (assign_typed op (read_expr to.now) (read_expr from.now) at) state.old result state.new }
        ensures grows { Grows state.old state.new }
    {
        let (to, from) = self.sides(state, to, from)?;
        let operators = Operators {
            alloc: self.alloc,
            tags: state.scope.tags(),
            at,
        };
        let node = operators.assign(op, to, from);
        ended(operators);
        node
    }

    /// A conditional expression.
    pub fn conditional(
        &self,
        state: &mut State,
        test: &Expr,
        yes: &Expr,
        no: &Expr,
        at: Place,
    ) -> Result<TypedExpr, Fault>
        requires nests { Nests self.now.room (F.pre self.now.expr) (F.post self.now.expr) }
        requires low { max (expr_height test.now) (max (expr_height yes.now) (expr_height no.now)) ≤ self.now.room }
        ensures types { Types (cond_typed (read_expr test.now) (read_expr yes.now) (read_expr no.now) at) state.old result state.new }
        ensures grows { Grows state.old state.new }
    {
        let test = self.value(state, test)?;
        let arms = self.two(state, yes, no);
        let (tested, arms) = both(test, arms)?;
        let (yes, no) = arms;
        let operators = Operators {
            alloc: self.alloc,
            tags: state.scope.tags(),
            at,
        };
        let node = operators.conditional(tested, yes, no);
        ended(operators);
        node
    }

    /// A cast, behind its type.
    pub fn cast(
        &self,
        state: &mut State,
        to: CType,
        of: &Expr,
        at: Place,
    ) -> Result<TypedExpr, Fault>
        requires nests { Nests self.now.room (F.pre self.now.expr) (F.post self.now.expr) }
        requires low { expr_height of.now ≤ self.now.room }
        ensures types { Types (cast_behind to (read_expr of.now) at) state.old result state.new }
        ensures grows { Grows state.old state.new }
    {
        let of = self.value(state, of);
        let (to, of) = both(to, of)?;
        let operators = Operators {
            alloc: self.alloc,
            tags: state.scope.tags(),
            at,
        };
        let node = operators.cast(to, of);
        ended(operators);
        node
    }

    /// An operand as an operator before it wants it.
    fn wanted(&self, state: &mut State, op: PrefixOp, of: &Expr) -> Result<TypedExpr, Fault>
        requires nests { Nests self.now.room (F.pre self.now.expr) (F.post self.now.expr) }
        requires low { expr_height of.now ≤ self.now.room }
        ensures types { Types (wanted_part (wanted op) (read_expr of.now)) state.old result state.new }
        ensures grows { Grows state.old state.new }
    {
        match op {
            PrefixOp::Increment | PrefixOp::Decrement | PrefixOp::Address => {
                self.expression(state, of)
            }
            _ => self.value(state, of),
        }
    }

    /// An operator before its operand.
    pub fn prefix(
        &self,
        state: &mut State,
        op: PrefixOp,
        of: &Expr,
        at: Place,
    ) -> Result<TypedExpr, Fault>
        requires nests { Nests self.now.room (F.pre self.now.expr) (F.post self.now.expr) }
        requires low { expr_height of.now ≤ self.now.room }
        ensures types { Types (prefix_typed op (read_expr of.now) at) state.old result state.new }
        ensures grows { Grows state.old state.new }
    {
        let of = self.wanted(state, op, of)?;
        let operators = Operators {
            alloc: self.alloc,
            tags: state.scope.tags(),
            at,
        };
        let node = operators.prefix(op, of);
        ended(operators);
        node
    }

    /// An operator behind its operand.
    pub fn postfix(
        &self,
        state: &mut State,
        op: PostfixOp,
        of: &Expr,
        at: Place,
    ) -> Result<TypedExpr, Fault>
        requires nests { Nests self.now.room (F.pre self.now.expr) (F.post self.now.expr) }
        requires low { expr_height of.now ≤ self.now.room }
        ensures types { Types (postfix_typed op (read_expr of.now) at) state.old result state.new }
        ensures grows { Grows state.old state.new }
    {
        let of = self.expression(state, of)?;
        let operators = Operators {
            alloc: self.alloc,
            tags: state.scope.tags(),
            at,
        };
        let node = operators.postfix(op, of);
        ended(operators);
        node
    }

    /// The size of an expression's type.
    pub fn size_of(&self, state: &mut State, of: &Expr, at: Place) -> Result<TypedExpr, Fault>
        requires nests { Nests self.now.room (F.pre self.now.expr) (F.post self.now.expr) }
        requires low { expr_height of.now ≤ self.now.room }
        ensures types { Types (sizeof_typed (read_expr of.now) at) state.old result state.new }
        ensures grows { Grows state.old state.new }
    {
        let of = self.expression(state, of)?;
        let operators = Operators {
            alloc: self.alloc,
            tags: state.scope.tags(),
            at,
        };
        let node = operators.size_of(of);
        ended(operators);
        node
    }

    /// What stands before `.` or `->`.
    fn base(&self, state: &mut State, arrow: bool, base: &Expr) -> Result<TypedExpr, Fault>
        requires nests { Nests self.now.room (F.pre self.now.expr) (F.post self.now.expr) }
        requires low { expr_height base.now ≤ self.now.room }
        ensures types { Types (base_part arrow (read_expr base.now)) state.old result state.new }
        ensures grows { Grows state.old state.new }
    {
        if arrow {
            self.value(state, base)
        } else {
            self.expression(state, base)
        }
    }

    /// A member of a structure or union.
    pub fn member(
        &self,
        state: &mut State,
        base: &Expr,
        arrow: bool,
        name: &[u8],
        at: Place,
    ) -> Result<TypedExpr, Fault>
        requires nests { Nests self.now.room (F.pre self.now.expr) (F.post self.now.expr) }
        requires low { expr_height base.now ≤ self.now.room }
        ensures types { Types (member_by (read_expr base.now) arrow name.now at) state.old result state.new }
        ensures grows { Grows state.old state.new }
    {
        let base = self.base(state, arrow, base)?;
        selected(self.alloc, state.scope.tags(), base, arrow, name, at)
    }

    /// Expressions as values, behind those so far.
    fn values(
        &self,
        state: &mut State,
        values: TypedExprItems,
        exprs: &[Expr],
    ) -> Result<TypedExprItems, Fault>
        requires nests { Nests self.now.room (F.pre self.now.expr) (F.post self.now.expr) }
        requires low { heights exprs.now ≤ self.now.room }
        ensures types { Types (values_onto values (parts_of exprs.now)) state.old result state.new }
        ensures grows { Grows state.old state.new }
    {
        let mut values = values;
        for expr in exprs {
            let value = self.value(state, expr)?;
            values.push(value)?;
        }
        Ok(values)
    }

    /// Expressions one behind another.
    pub fn comma(&self, state: &mut State, exprs: &[Expr], at: Place) -> Result<TypedExpr, Fault>
        requires nests { Nests self.now.room (F.pre self.now.expr) (F.post self.now.expr) }
        requires low { heights exprs.now ≤ self.now.room }
        ensures types { Types (comma_by (parts_of exprs.now) at) state.old result state.new }
        ensures grows { Grows state.old state.new }
    {
        let values = self.values(state, TypedExprItems::new(self.alloc), exprs)?;
        let values = values.finish();
        let ctype = last_type(values.as_slice());
        let (values, ctype) = both(values, ctype)?;
        Ok(TypedExpr {
            kind: TypedKind::Comma(values),
            ctype,
            place: at,
        })
    }

    /// An argument that is a format.
    fn format(&self, state: &mut State, format: &Expr) -> Result<TypedExpr, Fault>
        requires nests { Nests self.now.room (F.pre self.now.expr) (F.post self.now.expr) }
        requires low { expr_height format.now ≤ self.now.room }
        ensures types { Types (checked_format (read_expr format.now)) state.old result state.new }
        ensures grows { Grows state.old state.new }
    {
        let value = self.value(state, format)?;
        let (value, _) = both(value, judge_format(format))?;
        Ok(value)
    }

    /// A format and the arguments behind it, behind those so far.
    fn format_and_further(
        &self,
        state: &mut State,
        values: TypedExprItems,
        exprs: &[Expr],
    ) -> Result<TypedExprItems, Fault>
        requires nests { Nests self.now.room (F.pre self.now.expr) (F.post self.now.expr) }
        requires low { heights exprs.now ≤ self.now.room }
        ensures types { Types (format_onto values (parts_of exprs.now)) state.old result state.new }
        ensures grows { Grows state.old state.new }
    {
        let Some((format, further)) = exprs.split_first() else {
            return Ok(values);
        };
        let mut values = values;
        let format = self.format(state, format)?;
        values.push(format)?;
        self.values(state, values, further)
    }

    /// So many arguments, and then a format and those behind it.
    fn before_and_behind(
        &self,
        state: &mut State,
        values: TypedExprItems,
        count: usize,
        exprs: &[Expr],
    ) -> Result<TypedExprItems, Fault>
        requires nests { Nests self.now.room (F.pre self.now.expr) (F.post self.now.expr) }
        requires low { heights exprs.now ≤ self.now.room }
        ensures types { Types (before_and_behind values count (parts_of exprs.now)) state.old result state.new }
        ensures grows { Grows state.old state.new }
    {
        match self.values(state, values, front(exprs, count)) {
            Ok(values) => self.format_and_further(state, values, behind(exprs, count)),
            Err(fault) => Err(fault),
        }
    }

    /// The arguments of a call, so many of which stand before a format.
    fn arguments(
        &self,
        state: &mut State,
        before: Option<usize>,
        exprs: &[Expr],
    ) -> Result<Items<TypedExpr>, Fault>
        requires nests { Nests self.now.room (F.pre self.now.expr) (F.post self.now.expr) }
        requires low { heights exprs.now ≤ self.now.room }
        ensures types { Types (arguments_by before (parts_of exprs.now)) state.old result state.new }
        ensures grows { Grows state.old state.new }
    {
        let none = TypedExprItems::new(self.alloc);
        let values = match before {
            None => self.values(state, none, exprs)?,
            Some(count) => self.before_and_behind(state, none, count, exprs)?,
        };
        Ok(values.finish())
    }

    /// What is called where it is no name: no function.
    fn called_other(&self, state: &mut State, callee: &Expr) -> Result<Option<Called>, Fault>
        requires nests { Nests self.now.room (F.pre self.now.expr) (F.post self.now.expr) }
        requires low { expr_height callee.now ≤ self.now.room }
        ensures types { TypesAs (option_map function_of) (called_by None (read_expr callee.now)) state.old result state.new }
        ensures grows { Grows state.old state.new }
    {
        self.expression(state, callee)?.let_go();
        Ok(None)
    }

    /// What a call calls.
    fn called(&self, state: &mut State, callee: &Expr) -> Result<Option<Called>, Fault>
        requires nests { Nests self.now.room (F.pre self.now.expr) (F.post self.now.expr) }
        requires low { expr_height callee.now ≤ self.now.room }
        ensures types { TypesAs (option_map function_of) (called_by (name_in (read_expr callee.now).form) (read_expr callee.now)) state.old result state.new }
        ensures grows { Grows state.old state.new }
    {
        match name_of(callee) {
            Some(name) => called_named(self.alloc, state, name.bytes(), callee.place),
            None => self.called_other(state, callee),
        }
    }

    /// A call.
    pub fn call(
        &self,
        state: &mut State,
        callee: &Expr,
        args: &[Expr],
        at: Place,
    ) -> Result<TypedExpr, Fault>
        requires nests { Nests self.now.room (F.pre self.now.expr) (F.post self.now.expr) }
        requires low { max (expr_height callee.now) (heights args.now) ≤ self.now.room }
        ensures types { Types (call_by (read_expr callee.now) (parts_of args.now) at) state.old result state.new }
        ensures grows { Grows state.old state.new }
    {
        let f = self.called(state, callee)?;
        let values = self.arguments(state, before_format(&f), args);
        let (called, values) = both(f, values)?;
        call_of(self.alloc, state.scope.tags(), called, args, values, at)
    }
}
