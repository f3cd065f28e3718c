//! The types of C with their sizes and offsets.
#![tactic(auto)]

mod depths;
mod kinds;
mod laws;
mod layouts;
mod library;
mod sizes;
mod tags;
mod types;

pub use c_headers::{HeaderNumber, HeaderType, lib_by_name};
pub use c_library::{LibFn, lib_mode};
pub use depths::{DEEPEST_TYPE, Depth, depths_of};
pub use kinds::{
    agreeing_pointers, is_char, is_integer, is_open_array, is_scalar, is_void, promoted, tag_of,
};
pub use laws::{alignment_law, next_multiple_law, placement_law};
pub use layouts::{declared_layout_of, layout_of, offset_of};
pub use library::{header_ctype, lib_ctype, lib_parameters, lib_result};
pub use tags::{Member, TagDef, Tags};
pub use types::{CType, Layout, LayoutFault, element, is_array, is_pointer, pointed};
