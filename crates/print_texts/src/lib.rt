//! What a print comes to, before anything is stored or written.
#![tactic(auto)]

mod lengths;
mod numbers;
mod padding;
mod parts;

pub use lengths::{
    Measured, accepts, argument, cells, conversion_length, measure, meets, most, reads,
};
pub use numbers::{Number, ROOM, write_number};
pub use padding::{Padding, padding_of};
pub use parts::{Part, next_part};
