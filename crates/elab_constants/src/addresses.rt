//! What an expression is as an address constant, and whether it is a constant (C11 6.6p7 and p9, 6.7.9p4).

ghost use Rattle.std.specs.Prelude.{◌≡◌};
ghost use Rattle.elab_meaning.specs.Addresses.{address_of, cast_pointer, is_constant, part_of, plus};
ghost use Rattle.elab_constants.specs.Operands.{operand};
ghost use Rattle.elab_constants.specs.Steps.{directed};

use crate::pointers::{Objects, by_pointer, chosen, null};
use crate::steps::Steps;
use c_layout::{Tags, is_array, is_pointer};
use c_tree::{
    BinaryOp, Constant, DataDef, PrefixOp, TypedExpr, TypedKind, constant_of, evaluated,
    is_trailing_member, number_type,
};
use elab_meaning::{AddressConstant, Pointer};

impl Objects<'_> {
    /// A pointer moved by an integer constant expression, forth or back.
    #[cycle(address)]
    fn plus(&self, pointer: &TypedExpr, index: &TypedExpr, back: bool) -> AddressConstant
        ensures { result ≡ plus self.now.tags.now self.now.objects.now (directed back)
            (operand self.now.tags.now self.now.objects.now pointer.now) (operand self.now.tags.now self.now.objects.now index.now) }
    {
        match evaluated(self.tags, index) {
            Constant::NotConstant => AddressConstant::NotConstant,
            Constant::Undefined => AddressConstant::Undefined,
            Constant::Value(bits) => {
                let steps = Steps::of(bits, number_type(&index.ctype).signed);
                self.moved(
                    self.pointer_of(pointer),
                    &pointer.ctype,
                    steps.directed(back),
                )
            }
        }
    }

    /// An operand that is converted to a pointer.
    #[cycle(address)]
    fn converted(&self, of: &TypedExpr) -> AddressConstant
        ensures { result ≡ cast_pointer self.now.tags.now self.now.objects.now (operand self.now.tags.now self.now.objects.now of.now) }
    {
        if is_array(&of.ctype) {
            let trails = is_trailing_member(self.tags, of);
            self.array(self.place_of(of), &of.ctype, trails)
        } else if is_pointer(&of.ctype) {
            by_pointer(self.pointer_of(of))
        } else {
            null(evaluated(self.tags, of))
        }
    }

    /// An expression as an address constant. Each node below it is evaluated once: as a pointer, as a place, or in a number.
    #[cycle(address)]
    fn pointer_of(&self, expr: &TypedExpr) -> AddressConstant
        ensures { result ≡ (part_of self.now.tags.now self.now.objects.now expr.now).pointer }
    {
        match &expr.kind {
            TypedKind::Cast { of, .. } => self.converted(of.get()),
            TypedKind::Prefix {
                op: PrefixOp::Address,
                of,
            } => by_pointer(self.place_of(of.get())),
            TypedKind::Binary { op, a, b } => match op {
                BinaryOp::Add if is_pointer(&a.get().ctype) => {
                    by_pointer(self.plus(a.get(), b.get(), false))
                }
                BinaryOp::Add => by_pointer(self.plus(b.get(), a.get(), false)),
                BinaryOp::Sub => by_pointer(self.plus(a.get(), b.get(), true)),
                _ => AddressConstant::NotConstant,
            },
            TypedKind::Cond { test, yes, no } => by_pointer(chosen(
                evaluated(self.tags, test.get()),
                self.pointer_of(yes.get()),
                self.pointer_of(no.get()),
            )),
            _ => AddressConstant::NotConstant,
        }
    }

    /// The pointer to the place that an expression designates.
    #[cycle(address)]
    fn place_of(&self, expr: &TypedExpr) -> AddressConstant
        ensures { result ≡ (part_of self.now.tags.now self.now.objects.now expr.now).place }
    {
        match &expr.kind {
            TypedKind::Object(number) => self.object(*number),
            TypedKind::Index { base, index } => {
                if is_pointer(&base.get().ctype) {
                    self.plus(base.get(), index.get(), false)
                } else {
                    self.plus(index.get(), base.get(), false)
                }
            }
            TypedKind::Prefix {
                op: PrefixOp::Indirection,
                of,
            } => by_pointer(self.pointer_of(of.get())),
            TypedKind::Member {
                base,
                arrow,
                member,
            } => {
                let base = base.get();
                let trails = is_trailing_member(self.tags, expr);
                if *arrow {
                    let pointer = by_pointer(self.pointer_of(base));
                    self.member_behind(pointer, &base.ctype, *member, trails)
                } else {
                    self.member(self.place_of(base), &base.ctype, *member, trails)
                }
            }
            _ => AddressConstant::NotConstant,
        }
    }
}

/// The pointer that an address constant is, with the structures and unions and the data objects so far; none of any other
/// expression.
pub fn address_of(tags: &Tags, objects: &[DataDef], expr: &TypedExpr) -> Option<Pointer>
    ensures { result ≡ address_of tags.now objects.now expr.now }
{
    if !is_pointer(&expr.ctype) {
        return None;
    }
    let given = Objects { tags, objects };
    match given.pointer_of(expr) {
        AddressConstant::Value { pointer, .. } => Some(pointer),
        _ => None,
    }
}

/// Whether an expression may initialise a static object: an integer constant expression or an address constant.
pub fn is_constant(tags: &Tags, objects: &[DataDef], expr: &TypedExpr) -> bool
    ensures { result ≡ is_constant tags.now objects.now expr.now }
{
    constant_of(tags, expr).is_some() || address_of(tags, objects, expr).is_some()
}
