//! Pointers into objects with static storage: moved, to members, and to the elements of arrays (C11 6.5.6p8 and 6.6p9).

ghost use Rattle.std.specs.Prelude.{◌≡◌, ◌==◌, ◌≤◌, ◌*ℤ◌, pos, true, false, IfSome, if◌then◌else◌};
ghost use Rattle.elab_meaning.specs.Addresses.{array_at, beside, by_pointer, member_at, member_of, member_size, moved, moved_pointer, moved_spot, object_size, part_at, size_of, with_address, with_number};
ghost use Rattle.c_layout.specs.Layouts.{offset};
ghost use Rattle.c_layout.specs.Types.{pointed};
ghost use Rattle.elab_constants.specs.Steps.{signed_count};

use crate::steps::{Steps, reached};
use c_layout::{CType, Tags, declared_layout_of, layout_of, offset_of, tag_of};
use c_tree::{Constant, DataDef};
use elab_meaning::{AddressConstant, Pointer, Spot};

/// The same on a pointer path.
pub fn by_pointer(of: AddressConstant) -> AddressConstant
    ensures { result ≡ by_pointer of }
{
    match of {
        AddressConstant::Value { pointer, .. } => AddressConstant::Value {
            is_named: false,
            pointer,
        },
        other => other,
    }
}

/// Beside an operand that isn't evaluated: that one must be an address constant too.
fn beside(operand: AddressConstant, of: AddressConstant) -> AddressConstant
    ensures { result ≡ beside operand of }
{
    match operand {
        AddressConstant::NotConstant => operand,
        _ => of,
    }
}

/// The arm that a test chooses.
pub fn chosen(test: Constant, yes: AddressConstant, no: AddressConstant) -> AddressConstant
    ensures { result ≡ beside yes (beside no (with_number test (λ n. if n == 0 then no else yes))) }
{
    let arm = match test {
        Constant::NotConstant => AddressConstant::NotConstant,
        Constant::Undefined => AddressConstant::Undefined,
        Constant::Value(0) => no,
        Constant::Value(_) => yes,
    };
    beside(yes, beside(no, arm))
}

/// The null pointer, of an integer constant expression of value 0.
pub fn null(of: Constant) -> AddressConstant
    ensures { result ≡ with_number of (λ n. if n == 0 then AddressConstant.Value false Pointer.Null else AddressConstant.NotConstant) }
{
    match of {
        Constant::Undefined => AddressConstant::Undefined,
        Constant::Value(0) => AddressConstant::Value {
            is_named: false,
            pointer: Pointer::Null,
        },
        _ => AddressConstant::NotConstant,
    }
}

/// A part of an object: where it begins, its bytes, and whether it ends where the object does.
#[derive(Clone, Copy)]
struct Part {
    offset: u64,
    size: u64,
    trails: bool,
}

/// What pointers are judged by: the structures and unions, and the data objects so far.
#[derive(Clone, Copy)]
pub struct Objects<'a> {
    pub tags: &'a Tags,
    pub objects: &'a [DataDef],
}

impl Objects<'_> {
    /// The bytes of an object.
    fn size(&self, number: u32) -> u32
        ensures { result ≡ object_size self.now.tags.now self.now.objects.now number }
    {
        match self.objects.get(number as usize) {
            Some(object) => object.size,
            None => 0,
        }
    }

    /// The pointer to an object.
    pub fn object(&self, number: u32) -> AddressConstant
        ensures { result ≡ AddressConstant.Value true (Pointer.At (record { object = number; offset = 0; end = object_size self.now.tags.now self.now.objects.now number })) }
    {
        AddressConstant::Value {
            is_named: true,
            pointer: Pointer::At(Spot {
                object: number,
                offset: 0,
                end: self.size(number),
            }),
        }
    }

    /// The bytes of a type, where it has a size within the limit.
    fn size_of(&self, ctype: &CType) -> Option<u64>
        ensures { result ≡ size_of self.now.tags.now self.now.objects.now ctype.now }
    {
        match layout_of(self.tags, ctype) {
            Ok(layout) => Some(layout.size),
            Err(_) => None,
        }
    }

    /// A pointer into an object that is moved: from the object's start to one past its end.
    fn moved_spot(&self, is_named: bool, spot: Spot, steps: Steps, element: u64) -> AddressConstant
        ensures { result ≡ moved_spot self.now.tags.now self.now.objects.now is_named spot (signed_count steps *ℤ pos element) }
    {
        match reached(self.size(spot.object), spot.offset, steps, element) {
            Some(offset) => AddressConstant::Value {
                is_named,
                pointer: Pointer::At(Spot {
                    object: spot.object,
                    offset,
                    end: spot.end,
                }),
            },
            None => AddressConstant::Undefined,
        }
    }

    /// Any pointer that is moved: null by nothing but 0.
    fn moved_by(&self, of: AddressConstant, steps: Steps, element: u64) -> AddressConstant
        ensures { result ≡ with_address of (moved_pointer self.now.tags.now self.now.objects.now (signed_count steps *ℤ pos element)) }
    {
        match of {
            AddressConstant::Value {
                is_named,
                pointer: Pointer::At(spot),
            } => self.moved_spot(is_named, spot, steps, element),
            AddressConstant::Value {
                pointer: Pointer::Null,
                ..
            } => {
                if steps.count == 0 || element == 0 {
                    of
                } else {
                    AddressConstant::Undefined
                }
            }
            _ => of,
        }
    }

    /// A pointer of that type, moved by so many of what it points to.
    pub fn moved(&self, of: AddressConstant, ctype: &CType, steps: Steps) -> AddressConstant
        ensures { result ≡ moved self.now.tags.now self.now.objects.now (pointed ctype.now) (signed_count steps) of }
    {
        let CType::Ptr(to) = ctype else {
            return AddressConstant::NotConstant;
        };
        match self.size_of(to.get()) {
            Some(element) => self.moved_by(of, steps, element),
            None => AddressConstant::NotConstant,
        }
    }

    /// A part of an object: it begins within the object, and on a named path ends within it.
    fn part(&self, is_named: bool, spot: Spot, part: Part) -> AddressConstant
        ensures { result ≡ part_at self.now.tags.now self.now.objects.now is_named spot part.offset part.size part.trails }
    {
        let whole = self.size(spot.object);
        let Some(room) = u64::from(whole).checked_sub(part.offset) else {
            return AddressConstant::Undefined;
        };
        if is_named && part.size > room {
            return AddressConstant::Undefined;
        }
        let end = if part.trails {
            whole
        } else {
            (part.offset + part.size.min(room)) as u32
        };
        AddressConstant::Value {
            is_named,
            pointer: Pointer::At(Spot {
                object: spot.object,
                offset: part.offset as u32,
                end,
            }),
        }
    }

    /// An array at a place, used as a pointer. One without a size ends where it does as a member or variable.
    pub fn array(&self, place: AddressConstant, ctype: &CType, trails: bool) -> AddressConstant
        ensures { result ≡ with_address place (array_at self.now.tags.now self.now.objects.now (size_of self.now.tags.now self.now.objects.now ctype.now) trails) }
    {
        match place {
            AddressConstant::Value {
                pointer: Pointer::Null,
                ..
            } => AddressConstant::Undefined,
            AddressConstant::Value {
                is_named,
                pointer: Pointer::At(spot),
            } => match self.size_of(ctype) {
                Some(size) => self.part(
                    is_named,
                    spot,
                    Part {
                        offset: u64::from(spot.offset),
                        size,
                        trails,
                    },
                ),
                None => place,
            },
            _ => place,
        }
    }

    /// Where a member begins.
    fn member_offset(&self, tag: u32, member: u32) -> Option<u64>
        ensures start { result ≡ offset self.now.tags.now tag member }
        ensures small { IfSome result (λ n. n ≤ 4194304) }
    {
        offset_of(self.tags, tag, member as usize)
    }

    /// The bytes of a member: a flexible array member takes none (C11 6.7.2.1p18).
    fn member_size(&self, tag: u32, member: u32) -> Option<u64>
        ensures { result ≡ member_size self.now.tags.now self.now.objects.now tag member }
    {
        let def = self.tags.get(tag)?;
        let member = def.members.get(member as usize)?;
        match declared_layout_of(self.tags, &member.ctype) {
            Ok(layout) => Some(layout.size),
            Err(_) => None,
        }
    }

    /// A part of what a pointer points to. Null has none.
    fn member_at(&self, of: AddressConstant, member: Part) -> AddressConstant
        requires { member.offset ≤ 4194304 }
        ensures { result ≡ with_address of (member_at self.now.tags.now self.now.objects.now member.offset member.size member.trails) }
    {
        match of {
            AddressConstant::Value {
                is_named,
                pointer: Pointer::At(spot),
            } => self.part(
                is_named,
                spot,
                Part {
                    offset: u64::from(spot.offset) + member.offset,
                    size: member.size,
                    trails: member.trails,
                },
            ),
            AddressConstant::Value {
                pointer: Pointer::Null,
                ..
            } => AddressConstant::Undefined,
            _ => of,
        }
    }

    /// The member of that number of a structure or union.
    pub fn member(
        &self,
        of: AddressConstant,
        ctype: &CType,
        member: u32,
        trails: bool,
    ) -> AddressConstant
        ensures { result ≡ member_of self.now.tags.now self.now.objects.now ctype.now member trails of }
    {
        let Some(tag) = tag_of(ctype) else {
            return AddressConstant::NotConstant;
        };
        match (
            self.member_offset(tag, member),
            self.member_size(tag, member),
        ) {
            (Some(offset), Some(size)) => self.member_at(
                of,
                Part {
                    offset,
                    size,
                    trails,
                },
            ),
            _ => AddressConstant::NotConstant,
        }
    }

    /// The member of that number of what a pointer points to.
    pub fn member_behind(
        &self,
        of: AddressConstant,
        ctype: &CType,
        member: u32,
        trails: bool,
    ) -> AddressConstant
        ensures { result ≡ member_of self.now.tags.now self.now.objects.now (pointed ctype.now) member trails of }
    {
        match ctype {
            CType::Ptr(to) => self.member(of, to.get(), member, trails),
            _ => AddressConstant::NotConstant,
        }
    }
}
