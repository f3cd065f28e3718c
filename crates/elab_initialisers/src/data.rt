//! Static variables: the constants that their initialisers' leaves must be, and the bytes and links that these make (C11 6.7.9p4 and
//! p10).

ghost use Rattle.std.specs.Prelude.{◌≡◌, ℕ, ◌++◌, [], ◌∷◌, IfOk, OnOk};
ghost use Rattle.elab_meaning.specs.Initialisers.{is_constant_leaf, leaf_bytes, leaves, links_of, stored, variable_of};
ghost use Rattle.elab_meaning.specs.Statements.{constant_leaves};
ghost use Rattle.elab_scope.specs.States.{Types};
ghost use Rattle.elab_initialisers.specs.Stored.{stored_leaves};

use crate::bytes::{store, store_number};
use c_layout::Tags;
use c_tree::{DataDef, Link, TypedExpr, TypedInit, TypedKind, constant_of, int_type};
use elab_constants::{address_of, is_constant};
use elab_meaning::Pointer;
use elab_scope::State;
use fc_base::{Fault, NoMemory, Rule, Text};
use sqlite_items::Items;
use std::alloc::Global;

/// Whether a leaf is constant: a string is.
pub fn is_constant_leaf(tags: &Tags, objects: &[DataDef], value: &TypedExpr) -> bool
    ensures { (offset : ℕ) → result ≡ is_constant_leaf tags.now objects.now (record { offset = offset; value = value.now }) }
{
    match &value.kind {
        TypedKind::Str(_) => true,
        _ => is_constant(tags, objects, value),
    }
}

/// Refuses the first leaf that isn't constant.
pub fn constant_leaves(state: &State, init: &TypedInit) -> Result<(), Fault>
    ensures { Types (constant_leaves (leaves init.now)) state.now result state.now }
{
    match init {
        TypedInit::Expr { value, .. } => {
            if is_constant_leaf(state.scope.tags(), state.scope.objects(), value) {
                Ok(())
            } else {
                Err(Fault::refused(Rule::NotConstant, value.place))
            }
        }
        TypedInit::List { items, .. } => {
            for item in items.as_slice() {
                constant_leaves(state, item)?;
            }
            Ok(())
        }
    }
}

/// What the data of static variables are made by: the structures and unions, and the data objects so far.
#[derive(Clone, Copy)]
pub struct StaticData<'a> {
    pub alloc: Global,
    pub tags: &'a Tags,
    pub objects: &'a [DataDef],
}

impl StaticData<'_> {
    /// Stores the bytes of a leaf. Those of a pointer are zero, and its link says where it points.
    fn store_leaf(&self, bytes: &mut Vec<u8>, at: u32, value: &TypedExpr) -> Result<(), NoMemory>
        ensures { OnOk result (bytes.new.items ≡ stored at (leaf_bytes self.now.tags.now self.now.objects.now (record { offset = at; value = value.now })) bytes.old.items) }
    {
        match &value.kind {
            TypedKind::Str(text) => store(bytes, at as usize, text.bytes()),
            _ => match int_type(&value.ctype) {
                Some(of) => {
                    let number = constant_of(self.tags, value).unwrap_or(0);
                    store_number(bytes, at as usize, of.width, number)
                }
                None => store(bytes, at as usize, &[]),
            },
        }
    }

    /// Stores the bytes of each leaf.
    fn store_leaves(&self, bytes: &mut Vec<u8>, init: &TypedInit) -> Result<(), NoMemory>
        ensures { OnOk result (bytes.new.items ≡ stored_leaves self.now.tags.now self.now.objects.now bytes.old.items (leaves init.now)) }
    {
        match init {
            TypedInit::Expr { at, value } => self.store_leaf(bytes, *at, value),
            TypedInit::List { items, .. } => {
                for item in items.as_slice() {
                    self.store_leaves(bytes, item)?;
                }
                Ok(())
            }
        }
    }

    /// Adds the link of a leaf that is a pointer.
    fn link_leaf(&self, links: &mut Items<Link>, at: u32, value: &TypedExpr) -> Result<(), NoMemory>
        ensures { OnOk result (links.new ≡ links.old ++ links_of self.now.tags.now self.now.objects.now (record { offset = at; value = value.now } ∷ [])) }
    {
        if let Some(Pointer::At(spot)) = address_of(self.tags, self.objects, value) {
            links.push(Link {
                at,
                target: spot.object,
                offset: spot.offset,
                end: spot.end,
            })?;
        }
        Ok(())
    }

    /// Adds the links of all leaves.
    fn link_leaves(&self, links: &mut Items<Link>, init: &TypedInit) -> Result<(), NoMemory>
        ensures { OnOk result (links.new ≡ links.old ++ links_of self.now.tags.now self.now.objects.now (leaves init.now)) }
    {
        match init {
            TypedInit::Expr { at, value } => self.link_leaf(links, *at, value),
            TypedInit::List { items, .. } => {
                for item in items.as_slice() {
                    self.link_leaves(links, item)?;
                }
                Ok(())
            }
        }
    }

    /// A static variable of that size, all zero.
    pub fn zeroed(&self, name: &[u8], size: u32) -> Result<DataDef, NoMemory>
        ensures { IfOk result (λ d. d ≡ variable_of self.now.tags.now self.now.objects.now name.now size []) }
    {
        let bytes = vec![in self.alloc; 0; size as usize]?;
        let name = Text::from_bytes(self.alloc, name)?;
        Ok(DataDef {
            name,
            size,
            writable: true,
            bytes: Items::from_vec(bytes),
            links: Items::new(self.alloc),
        })
    }

    /// A static variable of that size with the leaves of its initialiser, zero elsewhere.
    pub fn variable(&self, name: &[u8], size: u32, init: &TypedInit) -> Result<DataDef, NoMemory>
        ensures { IfOk result (λ d. d ≡ variable_of self.now.tags.now self.now.objects.now name.now size (leaves init.now)) }
    {
        let mut bytes = vec![in self.alloc; 0; size as usize]?;
        self.store_leaves(&mut bytes, init)?;
        let mut links = Items::new(self.alloc);
        self.link_leaves(&mut links, init)?;
        let name = Text::from_bytes(self.alloc, name)?;
        Ok(DataDef {
            name,
            size,
            writable: true,
            bytes: Items::from_vec(bytes),
            links,
        })
    }
}
