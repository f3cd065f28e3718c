//! The node of each operator by its typed operands, or the first of its rules that is broken (C11 6.5).

ghost use Rattle.std.specs.Prelude.{◌≡◌, ◌&&◌, not};
ghost use Rattle.c_layout.specs.Types.{is_array, unsigned_long};
ghost use Rattle.elab_meaning.specs.Nodes.{assign_node, assigned_by, binary_node, cast_node, chosen_by, computed_by, cond_node, index_node, indexed_by, is_wanted, postfix_node, prefix_node, prefixed_by, sizeof_node, sizeof_type_node, stepped_by};
ghost use Rattle.elab_meaning.specs.Operators.{modifiable_place, wanted};
ghost use Rattle.elab_conversions.specs.Answers.{Gives};

use crate::added::{both_converted, converted_to};
use crate::judging::judge;
use crate::operands::{can_be_cast, crosses, has_size};
use crate::operations::{assignment, joined, operation};
use crate::singles::{stepped, subscript, unary};
use c_layout::{CType, Tags, is_array, is_scalar};
use c_tree::{
    AssignOp, BinaryOp, PostfixOp, PrefixOp, Rank, TypedExpr, TypedKind, is_place, ranked,
};
use elab_meaning::{Operation, Single};
use fc_base::{Fault, Place, Rule};
use std::alloc::Global;
use tree_drops::{
    LetGo, both, typed_assign, typed_binary, typed_cast, typed_cond, typed_index, typed_postfix,
    typed_prefix, typed_sizeof,
};

/// A place that isn't an array.
fn is_modifiable(expr: &TypedExpr) -> bool
    ensures { result ≡ is_wanted modifiable_place expr.now }
{
    is_place(expr) && !is_array(&expr.ctype)
}

/// Whether an operand is what an operator before it wants: its value, a place, or a place that isn't an array.
fn is_wanted(op: PrefixOp, expr: &TypedExpr) -> bool
    ensures { result ≡ is_wanted (wanted op) expr.now }
{
    match op {
        PrefixOp::Increment | PrefixOp::Decrement => is_modifiable(expr),
        PrefixOp::Address => is_place(expr),
        _ => true,
    }
}

/// Whether an assignment refuses its operands' types. That an array can't be assigned to is the rule of places, whatever the types.
fn is_refused(operation: &Operation, to: &TypedExpr) -> bool
    ensures { result ≡ (operation.now.refused && not (is_array to.now.ctype)) }
{
    operation.refused && !is_array(&to.ctype)
}

/// unsigned long, the type of a size.
fn size_type() -> CType
    ensures { result ≡ unsigned_long }
{
    ranked(Rank::Long, false)
}

/// The operators at a place, by the structures and unions so far. An operand that is used as a value is no array any more.
pub struct Operators<'a> {
    pub alloc: Global,
    pub tags: &'a Tags,
    pub at: Place,
}

impl Operators<'_> {
    /// A binary operator.
    pub fn binary(&self, op: BinaryOp, a: TypedExpr, b: TypedExpr) -> Result<TypedExpr, Fault>
        ensures { Gives result (binary_node self.now.tags.now op a b self.now.at) }
    {
        let operation = operation(self.tags, op, &a, &b);
        let ((a, b), operation) = both((a, b), operation)?;
        self.computed(operation, op, a, b)
    }

    fn computed(
        &self,
        operation: Operation,
        op: BinaryOp,
        a: TypedExpr,
        b: TypedExpr,
    ) -> Result<TypedExpr, Fault>
        ensures { Gives result (computed_by operation op a b self.now.at) }
    {
        let Operation {
            incomplete,
            refused,
            left,
            right,
            result: gives,
        } = operation;
        let checks = [
            (Rule::IncompleteType, incomplete),
            (Rule::BadOperands, refused),
        ];
        let held = ((left, a), (right, b), gives);
        let (((left, a), (right, b), gives), _) = both(held, judge(self.at, &checks))?;
        let (gives, (a, b)) = both(gives, both_converted(self.alloc, left, a, right, b))?;
        Ok(typed_binary(self.alloc, op, a, b, gives, self.at)?)
    }

    /// An assignment.
    pub fn assign(&self, op: AssignOp, to: TypedExpr, from: TypedExpr) -> Result<TypedExpr, Fault>
        ensures { Gives result (assign_node self.now.tags.now op to from self.now.at) }
    {
        let operation = assignment(self.tags, op, &to, &from);
        let ((to, from), operation) = both((to, from), operation)?;
        self.assigned(operation, op, to, from)
    }

    fn assigned(
        &self,
        operation: Operation,
        op: AssignOp,
        to: TypedExpr,
        from: TypedExpr,
    ) -> Result<TypedExpr, Fault>
        ensures { Gives result (assigned_by operation op to from self.now.at) }
    {
        let checks = [
            (Rule::IncompleteType, operation.incomplete),
            (Rule::BadOperands, is_refused(&operation, &to)),
            (Rule::NotLvalue, !is_modifiable(&to)),
        ];
        let Operation {
            left,
            right,
            result: gives,
            ..
        } = operation;
        left.let_go();
        let held = ((to, from), right, gives);
        let (((to, from), right, gives), _) = both(held, judge(self.at, &checks))?;
        let ((to, gives), from) = both((to, gives), converted_to(self.alloc, right, from))?;
        Ok(typed_assign(self.alloc, op, to, from, gives, self.at)?)
    }

    /// A conditional expression.
    pub fn conditional(
        &self,
        test: TypedExpr,
        yes: TypedExpr,
        no: TypedExpr,
    ) -> Result<TypedExpr, Fault>
        ensures { Gives result (cond_node self.now.tags.now test yes no self.now.at) }
    {
        let operation = joined(self.tags, &yes, &no);
        let ((test, yes, no), operation) = both((test, yes, no), operation)?;
        self.chosen(operation, test, yes, no)
    }

    fn chosen(
        &self,
        operation: Operation,
        test: TypedExpr,
        yes: TypedExpr,
        no: TypedExpr,
    ) -> Result<TypedExpr, Fault>
        ensures { Gives result (chosen_by operation test yes no self.now.at) }
    {
        let Operation {
            refused,
            left,
            right,
            result: gives,
            ..
        } = operation;
        let checks = [(Rule::BadOperands, !is_scalar(&test.ctype) || refused)];
        let held = ((test, gives), (left, yes), (right, no));
        let (((test, gives), (left, yes), (right, no)), _) = both(held, judge(self.at, &checks))?;
        let arms = both_converted(self.alloc, left, yes, right, no);
        let ((test, gives), (yes, no)) = both((test, gives), arms)?;
        Ok(typed_cond(self.alloc, test, yes, no, gives, self.at)?)
    }

    /// A cast that is written.
    pub fn cast(&self, to: CType, of: TypedExpr) -> Result<TypedExpr, Fault>
        ensures { Gives result (cast_node self.now.tags.now to of self.now.at) }
    {
        let checks = [
            (Rule::BadOperands, !can_be_cast(&of.ctype, &to)),
            (Rule::IntPointerCast, crosses(self.tags, &of, &to)),
        ];
        let ((of, to), _) = both((of, to), judge(self.at, &checks))?;
        Ok(typed_cast(self.alloc, false, of, to, self.at)?)
    }

    /// An operator before its operand.
    pub fn prefix(&self, op: PrefixOp, of: TypedExpr) -> Result<TypedExpr, Fault>
        ensures { Gives result (prefix_node self.now.tags.now op of self.now.at) }
    {
        let single = unary(self.alloc, self.tags, op, &of.ctype);
        let (of, single) = both(of, single)?;
        self.prefixed(single, op, of)
    }

    fn prefixed(&self, single: Single, op: PrefixOp, of: TypedExpr) -> Result<TypedExpr, Fault>
        ensures { Gives result (prefixed_by single op of self.now.at) }
    {
        let Single {
            incomplete,
            refused,
            operand,
            result: gives,
        } = single;
        let checks = [
            (Rule::IncompleteType, incomplete),
            (Rule::BadOperands, refused),
            (Rule::NotLvalue, !is_wanted(op, &of)),
        ];
        let ((of, operand, gives), _) = both((of, operand, gives), judge(self.at, &checks))?;
        let (gives, of) = both(gives, converted_to(self.alloc, operand, of))?;
        Ok(typed_prefix(self.alloc, op, of, gives, self.at)?)
    }

    /// An operator behind its operand.
    pub fn postfix(&self, op: PostfixOp, of: TypedExpr) -> Result<TypedExpr, Fault>
        ensures { Gives result (postfix_node self.now.tags.now op of self.now.at) }
    {
        let single = stepped(self.tags, &of.ctype);
        let (of, single) = both(of, single)?;
        self.stepped(single, op, of)
    }

    fn stepped(&self, single: Single, op: PostfixOp, of: TypedExpr) -> Result<TypedExpr, Fault>
        ensures { Gives result (stepped_by single op of self.now.at) }
    {
        let Single {
            incomplete,
            refused,
            operand,
            result: gives,
        } = single;
        operand.let_go();
        let checks = [
            (Rule::IncompleteType, incomplete),
            (Rule::BadOperands, refused),
            (Rule::NotLvalue, !is_modifiable(&of)),
        ];
        let ((of, gives), _) = both((of, gives), judge(self.at, &checks))?;
        Ok(typed_postfix(self.alloc, op, of, gives, self.at)?)
    }

    /// The size of an expression's type, which is neither converted nor evaluated.
    pub fn size_of(&self, of: TypedExpr) -> Result<TypedExpr, Fault>
        ensures { Gives result (sizeof_node self.now.tags.now of self.now.at) }
    {
        let checks = [(Rule::IncompleteType, !has_size(self.tags, &of.ctype))];
        let (of, _) = both(of, judge(self.at, &checks))?;
        Ok(typed_sizeof(self.alloc, of, size_type(), self.at)?)
    }

    /// The size of a type.
    pub fn size_of_type(&self, of: CType) -> Result<TypedExpr, Fault>
        ensures { Gives result (sizeof_type_node self.now.tags.now of self.now.at) }
    {
        let checks = [(Rule::IncompleteType, !has_size(self.tags, &of))];
        let (of, _) = both(of, judge(self.at, &checks))?;
        Ok(TypedExpr {
            kind: TypedKind::SizeofType(of),
            ctype: size_type(),
            place: self.at,
        })
    }

    /// An element of an array: a pointer and an integer in the order of the text.
    pub fn index(&self, a: TypedExpr, b: TypedExpr) -> Result<TypedExpr, Fault>
        ensures { Gives result (index_node self.now.tags.now a b self.now.at) }
    {
        let single = subscript(self.tags, &a, &b);
        let ((a, b), single) = both((a, b), single)?;
        self.indexed(single, a, b)
    }

    fn indexed(&self, single: Single, a: TypedExpr, b: TypedExpr) -> Result<TypedExpr, Fault>
        ensures { Gives result (indexed_by single a b self.now.at) }
    {
        let Single {
            incomplete,
            refused,
            operand,
            result: gives,
        } = single;
        operand.let_go();
        let checks = [
            (Rule::IncompleteType, incomplete),
            (Rule::BadOperands, refused),
        ];
        let ((a, b, gives), _) = both((a, b, gives), judge(self.at, &checks))?;
        Ok(typed_index(self.alloc, a, b, gives, self.at)?)
    }
}
