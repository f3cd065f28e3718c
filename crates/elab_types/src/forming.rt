//! What the parts of a declarator make of a type, from the outside in (C11 6.7.6).

ghost use Rattle.std.specs.Prelude.{◌≡◌, suc, is_some, IfOk, true};
ghost use Rattle.c_layout.specs.Types.{is_array, is_structure};
ghost use Rattle.c_layout.specs.Layouts.{layout};
ghost use Rattle.c_layout.specs.Depths.{capped_depth};
ghost use Rattle.elab_meaning.specs.Declarations.{is_too_large};
ghost use Rattle.elab_types.specs.Stands.{is_over, is_settled};
ghost use Rattle.elab_types.specs.Forming.{type_of, is_function, is_zero, is_wide, array_of, deeper_of, deepest_of, unformed, pointed_to, starred, arrayed, returned};

use c_layout::{CType, DEEPEST_TYPE, Depth, LayoutFault, Tags, depths_of, is_array, layout_of};
use elab_conversions::has_size;
use fc_base::NoMemory;
use shared_values::Shared;
use sqlite_items::Items;
use std::alloc::Global;

/// So many parameters or arguments at most.
pub const MOST_PARAMETERS: usize = 60;

/// What is declared: an object, or a function.
#[derive(Drop)]
pub enum Made {
    Object(CType),
    Function { params: Items<CType>, of: CType },
}

/// What the parts of a declarator break, in the order of the rules.
#[derive(Clone, Copy)]
pub struct Broken {
    pub bad_type: bool,
    pub too_large: bool,
    pub by_value: bool,
    pub function_pointer: bool,
    pub too_many: bool,
}

/// What a declarator makes of a type so far. A type over the limit of depth, or with a bound that a type can't hold, isn't
/// built: it is `cut`, and another one of its kind stands in its place.
#[derive(Drop)]
pub struct Formed {
    pub made: Made,
    pub depth: Depth,
    pub broken: Broken,
    cut: bool,
}

const NOTHING_BROKEN: Broken = Broken {
    bad_type: false,
    too_large: false,
    by_value: false,
    function_pointer: false,
    too_many: false,
};

impl Made {
    pub fn is_function(&self) -> bool
        ensures { result ≡ is_function self.now }
    {
        matches!(self, Made::Function { .. })
    }

    /// The type of an object. Of a function it is void, which no accepted declaration shows.
    pub fn into_type(self) -> CType
        ensures { result ≡ type_of self }
    {
        match self {
            Made::Object(ctype) => ctype,
            Made::Function { .. } => CType::Void,
        }
    }
}

fn deeper(depth: u32) -> u32
    ensures { result ≡ capped_depth (suc depth) }
{
    depth.saturating_add(1).min(DEEPEST_TYPE + 1)
}

/// Both depths, each the greater of the two.
fn deepest(a: Depth, b: Depth) -> Depth
    ensures { result ≡ deeper_of a b }
{
    Depth {
        plain: a.plain.max(b.plain),
        behind: a.behind.max(b.behind),
    }
}

fn is_too_large(tags: &Tags, ctype: &CType) -> bool
    ensures { result ≡ is_too_large tags.now ctype.now }
{
    match layout_of(tags, ctype) {
        Err(LayoutFault::TooBig) => true,
        _ => false,
    }
}

pub fn is_structure(ctype: &CType) -> bool
    ensures { result ≡ is_structure ctype.now }
{
    matches!(ctype, CType::Struct(_) | CType::Union(_))
}

/// An array of a type. A count that a type can't hold is cut to the greatest one.
fn array(alloc: Global, of: CType, bound: Option<u64>) -> Result<CType, NoMemory>
    ensures { IfOk result (λ t. t ≡ array_of of bound) }
{
    let of = Shared::new(alloc, of)?;
    match bound {
        None => Ok(CType::OpenArray(of)),
        Some(count) => {
            let count = u32::try_from(count).unwrap_or(u32::MAX);
            Ok(CType::Array(of, count))
        }
    }
}

fn is_zero(bound: Option<u64>) -> bool
    ensures { result ≡ is_zero bound }
{
    match bound {
        None => false,
        Some(count) => count == 0,
    }
}

fn is_wide(bound: Option<u64>) -> bool
    ensures { result ≡ is_wide bound }
{
    match bound {
        None => false,
        Some(count) => count > 4294967295,
    }
}

/// The greatest of a depth and those of these types.
fn deepest_of(tags: &Tags, depth: Depth, types: &[CType]) -> Depth
    ensures { result ≡ deepest_of tags.now depth types.now }
{
    let mut greatest = depth;
    for ctype in types {
        greatest = deepest(depths_of(tags, ctype), greatest);
    }
    greatest
}

impl Formed {
    /// A type before any declarator.
    pub fn of(tags: &Tags, ctype: CType) -> Formed
        ensures { result ≡ unformed tags.now ctype }
    {
        let depth = depths_of(tags, &ctype);
        Formed {
            made: Made::Object(ctype),
            depth,
            broken: NOTHING_BROKEN,
            cut: false,
        }
    }

    /// Whether it is over the limit of bytes, or of depth.
    pub fn is_over(&self) -> bool
        ensures { result ≡ is_over self.now }
    {
        self.broken.too_large || self.depth.plain > DEEPEST_TYPE
    }

    /// Whether it is the type itself, or a rule is broken.
    pub fn is_settled(&self) -> bool
        ensures { result ≡ is_settled self.now }
    {
        !self.cut || self.broken.bad_type || self.is_over()
    }

    /// A pointer to it. One that is over the limit of depth isn't built.
    fn pointed_to(self, alloc: Global) -> Result<Formed, NoMemory>
        ensures { IfOk result (λ f. f ≡ pointed_to self) }
    {
        let Formed {
            made,
            depth,
            broken,
            cut,
        } = self;
        let behind = deeper(depth.behind);
        let is_past = behind > DEEPEST_TYPE;
        let is_function = made.is_function();
        let of = if is_past {
            CType::Void
        } else {
            made.into_type()
        };
        Ok(Formed {
            made: Made::Object(CType::Ptr(Shared::new(alloc, of)?)),
            depth: Depth {
                plain: behind,
                behind,
            },
            broken: Broken {
                function_pointer: broken.function_pointer || is_function,
                ..broken
            },
            cut: cut || is_past,
        })
    }

    /// A pointer, so many times.
    pub fn starred(self, alloc: Global, stars: usize) -> Result<Formed, NoMemory>
        ensures { IfOk result (λ f. f ≡ starred stars self) }
    {
        let mut formed = self;
        for _star in 0..stars {
            formed = formed.pointed_to(alloc)?;
        }
        Ok(formed)
    }

    /// An array of it, with a bound or none.
    pub fn arrayed(self, alloc: Global, tags: &Tags, bound: Option<u64>) -> Result<Formed, NoMemory>
        ensures { IfOk result (λ f. f ≡ arrayed tags.now bound self) }
    {
        let Formed {
            made,
            depth,
            broken,
            cut,
        } = self;
        let of = made.into_type();
        let is_bad = broken.bad_type || !has_size(tags, &of) || is_zero(bound);
        let whole = array(alloc, of, bound)?;
        let is_large = is_too_large(tags, &whole);
        Ok(Formed {
            made: Made::Object(whole),
            depth: Depth {
                plain: deeper(depth.plain),
                behind: deeper(depth.behind),
            },
            broken: Broken {
                bad_type: is_bad,
                too_large: broken.too_large || is_large,
                ..broken
            },
            cut: cut || is_wide(bound),
        })
    }

    /// A function of parameters of these types that gives it.
    pub fn returned(self, tags: &Tags, params: Items<CType>) -> Formed
        ensures { result ≡ returned tags.now params self }
    {
        let Formed {
            made,
            depth,
            broken,
            cut,
        } = self;
        let is_function = made.is_function();
        let of = made.into_type();
        let depth = deepest_of(tags, depth, params.as_slice());
        let broken = Broken {
            bad_type: broken.bad_type || is_function || is_array(&of),
            by_value: broken.by_value || is_structure(&of),
            too_many: broken.too_many || params.len() > MOST_PARAMETERS,
            ..broken
        };
        Formed {
            made: Made::Function { params, of },
            depth,
            broken,
            cut,
        }
    }
}
