//! The three ways in which modes use the memory.
ghost use Rattle.std.specs.Prelude.{◌≡◌};
ghost use Rattle.bios_modes.specs.Kinds.{kind_of as kind_of_mode, is_text as is_text_mode};
ghost use Rattle.bios_modes.specs.Kinds.{is_mode_of_256_colours as is_packed_mode};

use super::modes::mode_row;

/// How a mode uses the memory.
#[derive(Clone, Copy, PartialEq, Eq, Debug)]
pub enum Kind {
    /// Characters and attributes by turns.
    Text,
    /// 16 colours: a bit of each of four planes for a pixel.
    Planar,
    /// 256 colours: a byte for a pixel.
    Packed,
}

/// How a mode uses the memory, by its number; a number without a mode gives 16 colours.
pub fn kind_of(mode: u8) -> Kind
    ensures { result ≡ kind_of_mode mode }
{
    match mode_row(mode) {
        Some(row) => row.kind,
        None => Kind::Planar,
    }
}

/// Whether a mode is text.
pub fn is_text(mode: u8) -> bool
    ensures { result ≡ is_text_mode mode }
{
    match kind_of(mode) {
        Kind::Text => true,
        Kind::Planar | Kind::Packed => false,
    }
}

/// Whether a mode has 256 colours.
pub fn is_mode_of_256_colours(mode: u8) -> bool
    ensures { result ≡ is_packed_mode mode }
{
    match kind_of(mode) {
        Kind::Packed => true,
        Kind::Text | Kind::Planar => false,
    }
}
