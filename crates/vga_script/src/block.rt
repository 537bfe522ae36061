//! The bytes that a call of the video BIOS reads from memory.
ghost use Rattle.std.specs.Prelude.{◌≡◌};

use std::marker::Model;

/// A block of bytes, borrowed from where it stands: it allocates nothing. Contracts see its list.
#[derive(Drop)]
pub struct Block<'a> {
    bytes: &'a [u8],
}

impl<'a> Model for Block<'a> {
    ghost use Rattle.std.specs.Prelude.{ℕ, List};

    ghost Value = { List ℕ };

    ghost view = { λ block. block.bytes.now };
}

impl<'a> Block<'a> {
    /// A block of these bytes.
    pub fn of_slice(bytes: &'a [u8]) -> Block<'a>
        ensures { result ≡ bytes.now }
    {
        Block { bytes }
    }

    /// The block's bytes, borrowed as a slice.
    pub fn as_slice(&self) -> &'a [u8]
        ensures { result.now ≡ self.now }
    {
        self.bytes
    }
}
