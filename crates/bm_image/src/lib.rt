//! Images: what a machine is opened on, and its bytes.
#![tactic(auto)]

mod faults;
mod fitting;
mod images;
mod reading;
mod spelling;

pub use faults::{ImageFault, ImageKind, ReadFault};
pub use images::{Bounds, FnRec, Image};
pub use reading::read_image;
pub use spelling::write_image;
