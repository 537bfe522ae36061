//! A sentence on its way to the caller.

use std::fmt;

/// The most bytes of a sentence. What has no room is left out.
const MOST_BYTES: usize = 256;

/// A sentence that is being written. Writing it allocates nothing, and never fails.
#[derive(Drop)]
pub(crate) struct Sentence {
    bytes: [u8; MOST_BYTES],
    len: usize,
}

impl Sentence {
    /// A sentence with nothing in it.
    pub(crate) fn new() -> Sentence {
        Sentence {
            bytes: [0; MOST_BYTES],
            len: 0,
        }
    }

    /// Its bytes.
    pub(crate) fn as_bytes(&self) -> &[u8] {
        let (written, _) = self.bytes.split_at(self.len.min(MOST_BYTES));
        written
    }

    /// Appends a byte, if there is room.
    fn push(&mut self, byte: u8) {
        if self.len < MOST_BYTES {
            self.bytes[self.len] = byte;
            self.len += 1;
        }
    }
}

impl fmt::Write for Sentence {
    /// Appends a part of a sentence. It is kept out of line: a sentence has many parts.
    #[inline(never)]
    fn write_str(&mut self, part: &str) -> fmt::Result {
        for &byte in part.as_bytes() {
            self.push(byte);
        }
        Ok(())
    }
}
