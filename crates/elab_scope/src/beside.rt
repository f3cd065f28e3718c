//! What typing keeps of a file besides its scope: headers, functions, and the function that is being read.

ghost use Rattle.std.specs.Prelude.{◌≡◌, ◌==◌, ◌<◌, ◌+◌, not, List, [], ◌∷◌, ◌++◌, length, filter, map, reverse, position, slice_set, option_map, IfOk, OnOk, OnErr};
ghost use Rattle.std.specs.List.{list_any};
ghost use Rattle.std.specs.Str.{bytes_eq};
ghost use Rattle.elab_meaning.specs.Typing.{nothing_beside};
ghost use Rattle.elab_meaning.specs.Externals.{declared_of, has_number};
ghost use Rattle.elab_scope.specs.Functions.{declared, replaced, with_name, local_of, body_of};

use crate::bodies::Bodies;
use crate::initialised::Initialised;
use crate::names::Names;
use crate::numbered::Numbered;
use c_headers::HeaderId;
use c_layout::CType;
use c_tree::{Counts, FnDef, LocalDef, TypedStmt};
use fc_base::{NoMemory, Place, Text};
use sqlite_items::Items;
use std::alloc::Global;
use std::marker::Model;
use std::mem;

/// What the declarations of a function so far say of it: the place of its first declarator, whether its body has been
/// read, whether one of them says inline, and the numbers of its `alloc_size`, from 1 (GCC manual, "Common Function
/// Attributes").
#[derive(Clone, Copy)]
pub struct Facts {
    pub place: Place,
    pub has_body: bool,
    pub inlined: bool,
    pub alloc_size: Option<(u32, Option<u32>)>,
}

/// What typing keeps of a file besides its scope. The locals are those of the function that is being read.
#[derive(Drop)]
pub struct Beside {
    alloc: Global,
    numbered: Numbered,
    included: Vec<HeaderId>,
    functions: Names<Facts>,
    bodies: Bodies,
    initialised: Initialised,
    open_tags: Vec<u32>,
    locals: Items<LocalDef>,
    literals: u64,
}

impl Model for Beside {
    ghost use Rattle.std.specs.Prelude.{map, reverse};
    ghost use Rattle.std.specs.Coded.{codes};
    ghost use Rattle.c_layout.specs.contracts.types.CType as ctypes;
    ghost use Rattle.c_tree.specs.contracts.typed.TypedStmt as stmts;
    ghost use Rattle.elab_meaning.specs.Typing.{Beside as Meant};
    ghost use Rattle.elab_scope.specs.Functions.{latest, body_of, local_of};

    ghost Value = { Meant };

    ghost coded = { Prim.hlevel (codes, ctypes.the_row.coded, stmts.the_row.coded) };

    ghost view = { λ b. record { numbered = b.numbered; included = reverse b.included.items; functions = latest b.functions; bodies = map body_of b.bodies; initialised = b.initialised; open_tags = b.open_tags.items; locals = map local_of b.locals; literals = b.literals } };
}

impl Beside {
    /// A file before its first external declaration, with no function numbered yet.
    pub fn new(alloc: Global) -> Beside
        ensures { result ≡ nothing_beside [] }
    {
        Beside {
            alloc,
            numbered: Numbered::new(alloc),
            included: Vec::new(alloc),
            functions: Names::new(alloc),
            bodies: Bodies::new(alloc),
            initialised: Initialised::new(alloc),
            open_tags: Vec::new(alloc),
            locals: Items::new(alloc),
            literals: 0,
        }
    }

    /// Numbers a function with a body behind those that are numbered, where it isn't among them.
    pub fn number(&mut self, name: &[u8]) -> Result<(), NoMemory>
        ensures ok { OnOk result (self.new ≡ record self.old { numbered = with_name name.now self.old.numbered }) }
        ensures err { OnErr result (self.new ≡ self.old) }
    {
        self.numbered.push(name)
    }

    /// The number of a function with a body, none of another.
    pub fn number_of(&self, name: &[u8]) -> Option<usize>
        ensures { result ≡ position (λ other. bytes_eq other name.now) self.now.numbered }
    {
        self.numbered.number_of(name)
    }

    /// How many functions have a body.
    pub fn numbered(&self) -> usize
        ensures { result ≡ length self.now.numbered }
    {
        self.numbered.len()
    }

    /// The headers that are included, the first one first.
    pub fn included(&self) -> &[HeaderId]
        ensures { reverse result.now ≡ self.now.included }
    {
        self.included.as_slice()
    }

    pub fn include(&mut self, header: HeaderId) -> Result<(), NoMemory>
        ensures ok { OnOk result (self.new ≡ record self.old { included = header ∷ self.old.included }) }
        ensures err { OnErr result (self.new ≡ self.old) }
    {
        self.included.push(header)?;
        Ok(())
    }

    /// What the declarations of a function say of it, none where it has none.
    pub fn declared(&self, name: &[u8]) -> Option<&Facts>
        ensures { option_map (λ facts. declared name.now facts.now) result ≡ declared_of self.now.functions name.now }
    {
        let number = self.functions.last(name)?;
        self.functions.get(number)
    }

    /// Says this of a function, in place of what was said of it before.
    pub fn declare(&mut self, name: Text, facts: Facts) -> Result<(), NoMemory>
        ensures ok { OnOk result (self.new ≡ record self.old { functions = replaced (declared name facts) self.old.functions }) }
        ensures err { OnErr result (self.new ≡ self.old) }
    {
        self.functions.push(name, facts)
    }

    /// How many bodies have been read.
    pub fn bodies(&self) -> usize
        ensures { result ≡ length self.now.bodies }
    {
        self.bodies.len()
    }

    /// The functions whose bodies have been read, which are taken out.
    pub fn take_bodies(&mut self) -> Items<FnDef>
        ensures bodies { map body_of result ≡ self.old.bodies }
        ensures taken { self.new ≡ record self.old { bodies = [] } }
    {
        let bodies = mem::replace(&mut self.bodies, Bodies::new(self.alloc));
        bodies.finish()
    }

    /// Whether an object has an initialiser.
    pub fn is_initialised(&self, number: u32) -> bool
        ensures { result ≡ has_number self.now.initialised number }
    {
        self.initialised.has(number)
    }

    pub fn initialise(&mut self, number: u32) -> Result<(), NoMemory>
        ensures ok { OnOk result (self.new ≡ record self.old { initialised = number ∷ self.old.initialised }) }
        ensures err { OnErr result (self.new ≡ self.old) }
    {
        self.initialised.push(number)
    }

    /// Whether the body of a structure or union is being read.
    pub fn is_open(&self, tag: u32) -> bool
        ensures { result ≡ list_any (λ other. other == tag) self.now.open_tags }
    {
        self.open_tags.iter().any(|other| *other == tag)
    }

    /// The body of a structure or union begins. Few bodies stand in one another.
    pub fn open_tag(&mut self, tag: u32) -> Result<(), NoMemory>
        ensures ok { OnOk result (self.new ≡ record self.old { open_tags = tag ∷ self.old.open_tags }) }
        ensures err { OnErr result (self.new ≡ self.old) }
    {
        self.open_tags.insert(0, tag)?;
        Ok(())
    }

    /// The body of a structure or union has ended.
    pub fn close_tag(&mut self, tag: u32)
        ensures { self.new ≡ record self.old { open_tags = filter (λ other. not (other == tag)) self.old.open_tags } }
    {
        take_out(&mut self.open_tags, tag);
    }

    /// A function is read from here on, and has no locals yet.
    pub fn begin_function(&mut self)
        ensures { self.new ≡ record self.old { locals = [] } }
    {
        self.locals = Items::new(self.alloc);
    }

    /// Adds a local of the function that is being read, and gives its number.
    pub fn add_local(&mut self, name: Text, ctype: CType) -> Result<u32, NoMemory>
        ensures number { IfOk result (λ number. number ≡ length self.old.locals) }
        ensures added { IfOk result (λ _. self.new ≡ record self.old { locals = self.old.locals ++ (name, ctype) ∷ [] }) }
        ensures same { OnErr result (self.new ≡ self.old) }
    {
        let Ok(number) = u32::try_from(self.locals.len()) else {
            return Err(NoMemory);
        };
        self.locals.push(local(name, ctype))?;
        Ok(number)
    }

    /// Gives a local its whole type.
    pub fn set_local(&mut self, number: u32, name: Text, ctype: CType)
        requires { number < length self.old.locals }
        ensures { self.new ≡ record self.old { locals = slice_set self.old.locals number (name, ctype) } }
    {
        replace_local(&mut self.locals, number, local(name, ctype));
    }

    /// The function that is being read ends: its body is kept with its locals, of which none are left. What its calls
    /// make of it isn't known yet.
    pub fn end_function(
        &mut self,
        name: Text,
        params: Items<CType>,
        result_type: CType,
        body: TypedStmt,
    ) -> Result<(), NoMemory>
        ensures { OnOk result (self.new ≡ record self.old { bodies = self.old.bodies ++ record { name = name; params = params; result = result_type; locals = self.old.locals; body = body } ∷ []; locals = [] }) }
    {
        let locals = mem::replace(&mut self.locals, Items::new(self.alloc));
        self.bodies.push(FnDef {
            name,
            params,
            result: result_type,
            inlined: false,
            alloc_size: None,
            locals,
            counts: NO_COUNTS,
            body,
        })
    }

    /// What the string literals that initialise arrays take of the sum of data.
    pub fn literals(&self) -> u64
        ensures { result ≡ self.now.literals }
    {
        self.literals
    }

    pub fn count_literal(&mut self, room: u64) -> Result<(), NoMemory>
        ensures ok { OnOk result (self.new ≡ record self.old { literals = self.old.literals + room }) }
        ensures err { OnErr result (self.new ≡ self.old) }
    {
        let Some(literals) = self.literals.checked_add(room) else {
            return Err(NoMemory);
        };
        self.literals = literals;
        Ok(())
    }
}

/// Counts before a function's body has been counted.
const NO_COUNTS: Counts = Counts {
    nodes: 0,
    joins: 0,
    vars: 0,
    frame: 0,
};

/// Takes a number out of a list.
fn take_out(numbers: &mut Vec<u32>, number: u32)
    ensures { numbers.new.items ≡ filter (λ other. not (other == number)) numbers.old.items }
{
    numbers.retain(|other| *other != number);
}

fn replace_local(locals: &mut Items<LocalDef>, number: u32, def: LocalDef)
    requires { number < length locals.old }
    ensures { map local_of locals.new ≡ slice_set (map local_of locals.old) number (local_of def) }
{
    locals.set(number as usize, def);
}

/// A local before it is known whether its address is taken.
fn local(name: Text, ctype: CType) -> LocalDef
    ensures { local_of result ≡ (name, ctype) }
{
    LocalDef {
        name,
        ctype,
        in_register: false,
    }
}
