//! The stack: where it stands, and how much of it there is.

ghost use Rattle.std.specs.Prelude.{◌≤◌, ◌<◌, ℕ, length};
ghost use Rattle.bm_image.specs.Images.{function_at};

use bm_image::FnRec;

/// Where the frame of the first call begins.
pub const STACK_START: u32 = 5_242_880;

/// The most that the frames of the live calls may sum to, in bytes.
pub const STACK_FRAMES: u32 = 4_194_304;

/// The most that the weights of the live calls may sum to.
pub const STACK_WEIGHTS: u32 = 16_777_216;

/// The least weight of these functions.
pub fn least_weight(functions: &[FnRec]) -> u32
    requires { (k : ℕ) → k < length functions.now → 1 ≤ (function_at functions.now k).weight }
    ensures some { 1 ≤ result }
    ensures least { (k : ℕ) → k < length functions.now → result ≤ (function_at functions.now k).weight }
{
    let mut least = STACK_WEIGHTS;
    for k in 0..functions.len() {
        let weight = functions[k].weight;
        if weight < least {
            least = weight;
        }
    }
    least
}
