//! A font of one height.
ghost use Rattle.std.specs.Prelude.{◌≡◌, ◌<◌, ◌*◌, IfOk, IsOkUnless, length};
ghost use Rattle.bios_modes.specs.Fonts.{glyph_row};
ghost use Rattle.bios_modes.specs.Bounds.{AreBytes};

use super::bounds::bytes_are_below_256;
use std::alloc::Global;
use std::marker::Model;
use vga_bits::{Bytes, Fault};

/// The glyphs of 256 characters, each of H rows: 8, 14 or 16.
///
/// Contracts see the list of bytes: a byte for each row, top row first, characters in the order of
/// their codes.
#[derive(Drop)]
pub struct Font<const H: usize> {
    rows: Bytes,
}

impl<const H: usize> Model for Font<H> {
    ghost use Rattle.std.specs.Prelude.{ℕ, List, length, ◌≡◌, ◌*◌};

    ghost Value = { List ℕ };

    ghost view = { λ f. f.rows };

    ghost invariant = { λ f. length f.rows ≡ 256 * H };
}

impl<const H: usize> Font<H> {
    /// A font of these bytes, of which there are 256 times H. It can only fail with `OutOfMemory`.
    pub(crate) fn of_bytes(alloc: Global, bytes: &[u8]) -> Result<Font<H>, Fault>
        requires { length bytes.now ≡ 256 * H }
        ensures ok { IfOk result (λ font. font ≡ bytes.now) }
        ensures err { IsOkUnless result Fault.OutOfMemory }
    {
        let rows = Bytes::copy(alloc, bytes)?;
        Ok(Font { rows })
    }

    /// A copy of the font. It can only fail with `OutOfMemory`.
    pub(crate) fn copy(&self, alloc: Global) -> Result<Font<H>, Fault>
        ensures ok { IfOk result (λ font. font ≡ self.now) }
        ensures err { IsOkUnless result Fault.OutOfMemory }
    {
        Font::of_bytes(alloc, self.rows.as_slice())
    }

    /// The rows are bytes. The clause is for proofs: the function does nothing.
    pub fn bounds(&self)
        ensures { AreBytes self.now }
    {
        bytes_are_below_256(self.rows.as_slice());
    }

    /// Row r of character c; r is below H. Bit 7 is the leftmost dot.
    pub fn byte(&self, c: u8, r: usize) -> u8
        requires { r < H }
        ensures { result ≡ glyph_row H self.now c r }
    {
        self.rows.as_slice()[H * c as usize + r]
    }
}
