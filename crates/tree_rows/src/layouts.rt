//! Types with their sizes and alignments, and structures and unions with the offsets of their members.

ghost use Rattle.std.specs.Prelude.{◌≡◌, false, slice_get, IsSomeAnd, IsTrue, ◌↔◌};

use c_layout::{CType, Layout, LayoutFault, Member, TagDef, Tags, depths_of, layout_of, offset_of};
use fc_base::{NoMemory, Text, Width};
use shared_values::Shared;
use sqlite_items::Items;
use std::alloc::Global;
use std::process::Abort;
use std::test::Fail;

/// The type that another is derived from in the end.
#[derive(Clone, Copy)]
enum Base {
    Void,
    Int(Width),
    Struct(u32),
    Union(u32),
}

/// What is derived from a type (C11 6.2.5).
#[derive(Clone, Copy)]
enum Derivation {
    Pointer,
    Array(u32),
    OpenArray,
}

/// A type by its base and what is derived from it, one after another.
type Derived = (Base, &'static [Derivation]);

const CHAR: Base = Base::Int(Width::W1);

const SHORT: Base = Base::Int(Width::W2);

const INT: Base = Base::Int(Width::W4);

const LONG: Base = Base::Int(Width::W8);

fn base_type(base: Base) -> CType {
    match base {
        Base::Void => CType::Void,
        Base::Int(width) => CType::Int {
            width,
            signed: true,
            plain_char: matches!(width, Width::W1),
            long_long: false,
        },
        Base::Struct(tag) => CType::Struct(tag),
        Base::Union(tag) => CType::Union(tag),
    }
}

fn derived_type(alloc: Global, of: CType, derivation: Derivation) -> Result<CType, NoMemory> {
    let of = Shared::new(alloc, of)?;
    Ok(match derivation {
        Derivation::Pointer => CType::Ptr(of),
        Derivation::Array(count) => CType::Array(of, count),
        Derivation::OpenArray => CType::OpenArray(of),
    })
}

fn type_of(alloc: Global, (base, derivations): Derived) -> Result<CType, NoMemory> {
    let mut ctype = base_type(base);
    for derivation in derivations {
        ctype = derived_type(alloc, ctype, *derivation)?;
    }
    Ok(ctype)
}

/// A type, and its layout.
type TypeRow = (Derived, Result<Layout, LayoutFault>);

const TYPES: &[TypeRow] = &[
    ((CHAR, &[]), Ok(Layout { size: 1, align: 1 })),
    ((SHORT, &[]), Ok(Layout { size: 2, align: 2 })),
    ((INT, &[]), Ok(Layout { size: 4, align: 4 })),
    ((LONG, &[]), Ok(Layout { size: 8, align: 8 })),
    ((Base::Void, &[]), Err(LayoutFault::Incomplete)),
    ((Base::Struct(7), &[]), Err(LayoutFault::Incomplete)),
    // pointers
    (
        (Base::Void, &[Derivation::Pointer]),
        Ok(Layout { size: 8, align: 8 }),
    ),
    (
        (Base::Struct(7), &[Derivation::Pointer]),
        Ok(Layout { size: 8, align: 8 }),
    ),
    // arrays
    (
        (INT, &[Derivation::OpenArray]),
        Err(LayoutFault::Incomplete),
    ),
    (
        (Base::Void, &[Derivation::Array(3)]),
        Err(LayoutFault::Incomplete),
    ),
    (
        (CHAR, &[Derivation::Array(4194304)]),
        Ok(Layout {
            size: 4194304,
            align: 1,
        }),
    ),
    (
        (CHAR, &[Derivation::Array(4194305)]),
        Err(LayoutFault::TooBig),
    ),
    (
        (
            LONG,
            &[Derivation::Array(4294967295), Derivation::Array(4294967295)],
        ),
        Err(LayoutFault::TooBig),
    ),
];

fn assert_layout(rt: &impl Abort, tags: &Tags, ctype: &CType, layout: Result<Layout, LayoutFault>) {
    assert!(rt; layout_of(tags, ctype) == layout);
}

fn assert_types(
    rt: &impl Abort,
    alloc: Global,
    tags: &Tags,
    rows: &[TypeRow],
) -> Result<(), NoMemory> {
    for &(derived, layout) in rows {
        let ctype = type_of(alloc, derived)?;
        assert_layout(rt, tags, &ctype, layout);
    }
    Ok(())
}

#[test]
fn layouts_of_types(rt: HostRuntime) -> Result<(), Fail> {
    let alloc = rt.alloc();
    let tags = Tags::new(alloc);
    let asserted = assert_types(&rt, alloc, &tags, TYPES);
    drop(tags);
    asserted?;
    Ok(())
}

/// The members of a structure or union, its layout, and where each member stands, from the first on.
struct Row {
    is_union: bool,
    members: &'static [Derived],
    layout: Result<Layout, LayoutFault>,
    offsets: &'static [Option<u64>],
}

/// Complete structures and unions, numbered from 0.
const COMPLETE: &[Row] = &[
    // struct V { char buf1[10]; int b; char buf2[10]; }
    Row {
        is_union: false,
        members: &[
            (CHAR, &[Derivation::Array(10)]),
            (INT, &[]),
            (CHAR, &[Derivation::Array(10)]),
        ],
        layout: Ok(Layout { size: 28, align: 4 }),
        offsets: &[Some(0), Some(12), Some(16), None],
    },
    // union { struct V a; long b; }
    Row {
        is_union: true,
        members: &[(Base::Struct(0), &[]), (LONG, &[])],
        layout: Ok(Layout { size: 32, align: 8 }),
        offsets: &[Some(0), Some(0)],
    },
    // struct { char n; short open[]; }
    Row {
        is_union: false,
        members: &[(CHAR, &[]), (SHORT, &[Derivation::OpenArray])],
        layout: Ok(Layout { size: 2, align: 2 }),
        offsets: &[Some(0), Some(2)],
    },
    // struct { char a[4194304]; char b; char c; }
    Row {
        is_union: false,
        members: &[
            (CHAR, &[Derivation::Array(4194304)]),
            (CHAR, &[]),
            (CHAR, &[]),
        ],
        layout: Err(LayoutFault::TooBig),
        offsets: &[Some(0), Some(4194304), None],
    },
    // struct { char a; long b; char c[N]; }, whose members alone stay within the limit, as in the next one
    Row {
        is_union: false,
        members: &[
            (CHAR, &[]),
            (LONG, &[]),
            (CHAR, &[Derivation::Array(4194288)]),
        ],
        layout: Ok(Layout {
            size: 4194304,
            align: 8,
        }),
        offsets: &[Some(0), Some(8), Some(16)],
    },
    Row {
        is_union: false,
        members: &[
            (CHAR, &[]),
            (LONG, &[]),
            (CHAR, &[Derivation::Array(4194289)]),
        ],
        layout: Err(LayoutFault::TooBig),
        offsets: &[Some(0), Some(8), Some(16)],
    },
];

/// Structures that aren't complete, numbered from 6, behind the others. A member without a size stands among theirs.
const INCOMPLETE: &[Row] = &[
    // struct { char n; short open[]; char m; }
    Row {
        is_union: false,
        members: &[(CHAR, &[]), (SHORT, &[Derivation::OpenArray]), (CHAR, &[])],
        layout: Err(LayoutFault::Incomplete),
        offsets: &[Some(0), Some(2), None],
    },
    // struct { char n; void v; char m; }
    Row {
        is_union: false,
        members: &[(CHAR, &[]), (Base::Void, &[]), (CHAR, &[])],
        layout: Err(LayoutFault::Incomplete),
        offsets: &[Some(0), None, None],
    },
];

/// Arrays of structures.
const ARRAYS: &[TypeRow] = &[(
    (Base::Struct(6), &[Derivation::Array(2)]),
    Err(LayoutFault::Incomplete),
)];

/// A member without a name.
fn member(alloc: Global, derived: Derived) -> Result<Member, NoMemory> {
    let name = Text::from_bytes(alloc, b"")?;
    let ctype = type_of(alloc, derived)?;
    Ok(Member { name, ctype })
}

fn push_members(
    members: &mut Items<Member>,
    alloc: Global,
    list: &[Derived],
) -> Result<(), NoMemory> {
    for &derived in list {
        members.push(member(alloc, derived)?)?;
    }
    Ok(())
}

/// The members of a row, and the tag of each row.
fn parts(alloc: Global, row: &Row) -> Result<(Text, Items<Member>), NoMemory> {
    let name = Text::from_bytes(alloc, b"V")?;
    let mut members = Items::new(alloc);
    let pushed = push_members(&mut members, alloc, row.members);
    match pushed {
        Ok(()) => Ok((name, members)),
        Err(NoMemory) => Err(NoMemory),
    }
}

fn complete(alloc: Global, row: &Row) -> Result<TagDef, NoMemory> {
    let (name, members) = parts(alloc, row)?;
    Ok(TagDef {
        name,
        is_union: row.is_union,
        members,
        complete: true,
    })
}

fn add(rt: &impl Abort, tags: &mut Tags, def: TagDef) -> Result<u32, NoMemory> {
    assert!(rt; tags.have_sizes(def.members.as_slice()));
    tags.add(def)
}

/// Adds what isn't complete, whether its members have sizes or not.
fn add_incomplete(alloc: Global, tags: &mut Tags, row: &Row) -> Result<u32, NoMemory> {
    let (name, members) = parts(alloc, row)?;
    tags.add(TagDef {
        name,
        is_union: row.is_union,
        members,
        complete: false,
    })
}

fn tagged(is_union: bool, tag: u32) -> CType {
    if is_union {
        CType::Union(tag)
    } else {
        CType::Struct(tag)
    }
}

fn assert_offset(rt: &impl Abort, tags: &Tags, tag: u32, member: usize, offset: Option<u64>) {
    assert!(rt; offset_of(tags, tag, member) == offset);
}

fn assert_offsets(rt: &impl Abort, tags: &Tags, tag: u32, offsets: &[Option<u64>]) {
    for (member, offset) in offsets.iter().enumerate() {
        assert_offset(rt, tags, tag, member, *offset);
    }
}

/// Asserts that the structure or union is laid out as the row says.
fn assert_laid_out(rt: &impl Abort, tags: &Tags, tag: u32, row: &Row) {
    assert_layout(rt, tags, &tagged(row.is_union, tag), row.layout);
    assert_offsets(rt, tags, tag, row.offsets);
}

fn assert_complete(rt: &impl Abort, alloc: Global, tags: &mut Tags) -> Result<(), NoMemory> {
    for row in COMPLETE {
        let tag = add(rt, tags, complete(alloc, row)?)?;
        assert_laid_out(rt, tags, tag, row);
    }
    Ok(())
}

fn assert_incomplete(rt: &impl Abort, alloc: Global, tags: &mut Tags) -> Result<(), NoMemory> {
    for row in INCOMPLETE {
        let tag = add_incomplete(alloc, tags, row)?;
        assert_laid_out(rt, tags, tag, row);
    }
    Ok(())
}

fn assert_rows(rt: &impl Abort, alloc: Global, tags: &mut Tags) -> Result<(), NoMemory> {
    assert_complete(rt, alloc, tags)?;
    assert_incomplete(rt, alloc, tags)?;
    assert_types(rt, alloc, tags, ARRAYS)?;
    assert_offset(rt, tags, 9, 0, None);
    Ok(())
}

#[test]
fn structures_and_unions(rt: HostRuntime) -> Result<(), Fail> {
    let alloc = rt.alloc();
    let mut tags = Tags::new(alloc);
    let asserted = assert_rows(&rt, alloc, &mut tags);
    drop(tags);
    asserted?;
    Ok(())
}

/// `struct node`, not complete.
const OPEN_NODE: &Row = &Row {
    is_union: false,
    members: &[],
    layout: Err(LayoutFault::Incomplete),
    offsets: &[],
};

/// `struct node { short n; struct node *next; }`
const NODE: &Row = &Row {
    is_union: false,
    members: &[(SHORT, &[]), (Base::Struct(0), &[Derivation::Pointer])],
    layout: Ok(Layout { size: 16, align: 8 }),
    offsets: &[Some(0), Some(8)],
};

fn is_incomplete(tags: &Tags, tag: u32) -> bool
    ensures { IsTrue result ↔ IsSomeAnd (slice_get tags.now tag) (λ def. def.complete ≡ false) }
{
    match tags.get(tag) {
        Some(def) => !def.complete,
        None => false,
    }
}

/// Puts a definition in the place of one that isn't complete.
fn set(rt: &impl Abort, tags: &mut Tags, tag: u32, def: TagDef) {
    assert!(rt; tags.have_sizes(def.members.as_slice()));
    assert!(rt; is_incomplete(tags, tag));
    tags.set(tag, def);
}

fn assert_nodes(rt: &impl Abort, alloc: Global, tags: &mut Tags) -> Result<(), NoMemory> {
    assert!(rt; tags.have_sizes(&[]));
    let node = add_incomplete(alloc, tags, OPEN_NODE)?;
    assert_laid_out(rt, tags, node, OPEN_NODE);
    set(rt, tags, node, complete(alloc, NODE)?);
    assert_laid_out(rt, tags, node, NODE);
    Ok(())
}

/// A tag that is mentioned first and has a pointer to itself.
#[test]
fn a_tag_completed_later(rt: HostRuntime) -> Result<(), Fail> {
    let alloc = rt.alloc();
    let mut tags = Tags::new(alloc);
    let asserted = assert_nodes(&rt, alloc, &mut tags);
    drop(tags);
    asserted?;
    Ok(())
}

/// A pointer that is 400 deep.
fn deep_pointer(alloc: Global) -> Result<CType, NoMemory> {
    let mut ctype = CType::Void;
    for _ in 0..400 {
        ctype = derived_type(alloc, ctype, Derivation::Pointer)?;
    }
    Ok(ctype)
}

/// Half a million mentions of a deep type share its parts.
#[test]
fn deep_types_are_shared(rt: HostRuntime) -> Result<(), NoMemory> {
    let alloc = rt.alloc();
    let tags = Tags::new(alloc);
    let ctype = deep_pointer(alloc)?;
    assert!(rt; depths_of(&tags, &ctype).plain == 400);
    let mut mentions = Items::new(alloc);
    for _ in 0..500_000 {
        mentions.push(ctype.share()?)?;
    }
    let is_shared = match mentions.as_slice().last() {
        Some(mention) => mention.is_same(&ctype),
        None => false,
    };
    assert!(rt; is_shared);
    Ok(())
}

/// A structure of so many members of type int.
fn wide(alloc: Global, count: u32) -> Result<TagDef, NoMemory> {
    let mut members = Items::new(alloc);
    for _ in 0..count {
        members.push(member(alloc, (INT, &[]))?)?;
    }
    let name = Text::from_bytes(alloc, b"V")?;
    Ok(TagDef {
        name,
        is_union: false,
        members,
        complete: true,
    })
}

/// A structure of 30,000 members, each of which is asked for its place: no call goes along those before it.
#[test]
fn many_members(rt: HostRuntime) -> Result<(), NoMemory> {
    let alloc = rt.alloc();
    let mut tags = Tags::new(alloc);
    let tag = add(&rt, &mut tags, wide(alloc, 30_000)?)?;
    for member in 0..30_000_u32 {
        let offset = u64::from(member) * 4;
        assert_offset(&rt, &tags, tag, member as usize, Some(offset));
    }
    Ok(())
}
