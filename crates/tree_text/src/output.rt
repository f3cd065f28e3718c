//! What trees are printed into, and the smallest parts of a text.

use fc_base::{NoMemory, Text};
use std::alloc::Global;

/// A text that grows without an answer to each part. Once the memory was wanting nothing more is added, and `finish`
/// says so.
#[derive(Drop)]
pub struct Output {
    text: String,
    is_short: bool,
}

impl Output {
    pub fn new(alloc: Global) -> Output {
        Output {
            text: String::new(alloc),
            is_short: false,
        }
    }

    pub fn push_str(&mut self, part: &str) {
        if !self.is_short {
            self.is_short = self.text.push_str(part).is_err();
        }
    }

    pub fn push_number(&mut self, value: u64) {
        if !self.is_short {
            self.is_short = write!(self.text, "{value}").is_err();
        }
    }

    /// How many there are of something, between two texts.
    pub fn push_count(&mut self, before: &str, count: usize, behind: &str) {
        self.push_str(before);
        self.push_number(count as u64);
        self.push_str(behind);
    }

    /// The bytes as the characters of these numbers.
    pub fn push_text(&mut self, text: &Text) {
        for byte in text.bytes() {
            if !self.is_short {
                self.is_short = self.text.push(char::from(*byte)).is_err();
            }
        }
    }

    /// The whole text, if there was memory for all of it.
    pub fn finish(self) -> Result<String, NoMemory> {
        if self.is_short {
            Err(NoMemory)
        } else {
            Ok(self.text)
        }
    }
}
