//! The text with its lines joined.

ghost use Rattle.std.specs.Prelude.{◌≡◌, ◌<◌, length, IfOk, false};
ghost use Rattle.c_lexer.specs.Places.{bytes_of, places_of};
ghost use Rattle.c_lexer.specs.Joined.{begins_line, joined};

use fc_base::Place;
use std::alloc::{AllocError, Global};

/// The bytes that are left, and the place of each in the file.
#[derive(Drop)]
pub struct Joined {
    pub bytes: Vec<u8>,
    pub places: Vec<Place>,
}

fn begins_line(bytes: &[u8]) -> bool
    ensures { result ≡ begins_line bytes.now }
{
    match bytes {
        [b, ..] => *b == b'\n',
        [] => false,
    }
}

/// The bytes without each backslash that a newline follows, and without that newline.
#[tactic(auto, unfolding(crate::specs::Joined::joined))]
pub fn join_lines(alloc: Global, mut bytes: &[u8]) -> Result<Joined, AllocError>
    requires { length bytes.now < 4294967295 }
    ensures bytes { IfOk result (λ text. text.bytes.items ≡ bytes_of (joined false 1 1 bytes.entry.now)) }
    ensures places { IfOk result (λ text. text.places.items ≡ places_of (joined false 1 1 bytes.entry.now)) }
{
    let mut left = Vec::new(alloc);
    let mut places = Vec::new(alloc);
    let mut place = Place { line: 1, col: 1 };
    let mut is_joined = false;
    while let [b, rest @ ..] = bytes {
        let next_line = Place {
            line: place.line + 1,
            col: 1,
        };
        if is_joined {
            is_joined = false;
            place = next_line;
        } else if *b == b'\\' && begins_line(rest) {
            is_joined = true;
        } else {
            left.push(*b)?;
            places.push(place)?;
            place = if *b == b'\n' {
                next_line
            } else {
                Place {
                    line: place.line,
                    col: place.col + 1,
                }
            };
        }
        bytes = rest;
    }
    Ok(Joined {
        bytes: left,
        places,
    })
}
