//! The graphics controller: its registers, and their fields in the order of the registers. Its
//! ports are in `ports.rt`.
ghost use Rattle.std.specs.Prelude.{◌≡◌, ℕ};
ghost use Rattle.std.specs.Int.{bit_at};
ghost use Rattle.vga_bits.specs.Bits.{is_set as is_set_of};
ghost use Rattle.vga_host.specs.Ports.{is_refused_graphics_write};
ghost use Rattle.vga_host.specs.Graphics.{set_reset, is_set_reset_enabled, colour_compare, rotate_count, function_select, read_map_select, read_map_pair, write_mode, is_read_compare, is_odd_even_read, is_shift_256, is_graphics, is_256_colours, is_compared, bit_mask, memory_map};

use super::Host;
use vga_bits::is_set;
use vga_planes::PlaneSet;

/// The numbers of the graphics controller's registers.
pub(super) const SET_RESET: usize = 0;

pub(super) const ENABLE_SET_RESET: usize = 1;

pub(super) const COLOUR_COMPARE: usize = 2;

pub(super) const DATA_ROTATE: usize = 3;

pub(super) const READ_MAP_SELECT: usize = 4;

pub(super) const GRAPHICS_MODE: usize = 5;

pub(super) const MISCELLANEOUS: usize = 6;

pub(super) const COLOUR_DONT_CARE: usize = 7;

pub(super) const BIT_MASK: usize = 8;

/// The last register.
pub(super) const LAST: u8 = 8;

/// The bits that the index keeps.
pub(super) const INDEX_MASK: u8 = 0x0F;

/// The bits that the registers keep, from register 0.
pub(super) const GFX_MASKS: [u8; 9] = [0x0F, 0x0F, 0x0F, 0x1F, 0x03, 0x7B, 0x0F, 0x0F, 0xFF];

/// Whether a write of `v` to register `i` is refused: there is no such register, or the value asks
/// for shift register mode.
pub(super) fn is_refused_graphics_write(i: u8, v: u8) -> bool
    ensures { result ≡ is_refused_graphics_write i v }
{
    i > LAST || (i == GRAPHICS_MODE as u8 && is_set(v, 5))
}

impl Host {
    /// The planes whose set/reset bit is 1.
    pub(super) fn set_reset(&self) -> PlaneSet
        ensures { (p : ℕ) → bit_at result p ≡ set_reset self.now p }
    {
        self.gfx.read(SET_RESET)
    }

    /// The planes that, in write mode 0, take their set/reset bit.
    pub(super) fn set_reset_enabled(&self) -> PlaneSet
        ensures { (p : ℕ) → is_set_of result p ≡ is_set_reset_enabled self.now p }
    {
        self.gfx.read(ENABLE_SET_RESET)
    }

    /// The planes whose compare bit is 1.
    pub(super) fn colour_compare(&self) -> PlaneSet
        ensures { (p : ℕ) → bit_at result p ≡ colour_compare self.now p }
    {
        self.gfx.read(COLOUR_COMPARE)
    }

    /// By how many bits, 0 to 7, a written byte is rotated right.
    pub(super) fn rotate_count(&self) -> u8
        ensures { result ≡ rotate_count self.now }
    {
        self.gfx.field(DATA_ROTATE, 2, 0)
    }

    /// How data and latch are combined: 0 keeps the data, 1 is AND, 2 is OR, 3 is XOR.
    pub(super) fn function_select(&self) -> u8
        ensures { result ≡ function_select self.now }
    {
        self.gfx.field(DATA_ROTATE, 4, 3)
    }

    /// The plane that is read, 0 to 3.
    pub(super) fn read_map_select(&self) -> u8
        ensures { result ≡ read_map_select self.now }
    {
        self.gfx.field(READ_MAP_SELECT, 1, 0)
    }

    /// The pair of planes that is read where even and odd addresses are kept apart: 0 or 1.
    pub(super) fn read_map_pair(&self) -> u8
        ensures { result ≡ read_map_pair self.now }
    {
        self.gfx.field(READ_MAP_SELECT, 1, 1)
    }

    /// The write mode, 0 to 3.
    pub(super) fn write_mode(&self) -> u8
        ensures { result ≡ write_mode self.now }
    {
        self.gfx.field(GRAPHICS_MODE, 1, 0)
    }

    /// Whether a read compares colours.
    pub(super) fn is_read_compare(&self) -> bool
        ensures { result ≡ is_read_compare self.now }
    {
        self.gfx.bit(GRAPHICS_MODE, 3)
    }

    /// Whether even and odd addresses are kept apart on reads.
    pub(super) fn is_odd_even_read(&self) -> bool
        ensures { result ≡ is_odd_even_read self.now }
    {
        self.gfx.bit(GRAPHICS_MODE, 4)
    }

    /// Whether the shift registers make bytes of 256 colours.
    fn is_shift_256(&self) -> bool
        ensures { result ≡ is_shift_256 self.now }
    {
        self.gfx.bit(GRAPHICS_MODE, 6)
    }

    /// The memory map, 0 to 3, which chooses the window of the display memory.
    pub fn memory_map(&self) -> u8
        ensures { result ≡ memory_map self.now }
    {
        self.gfx.field(MISCELLANEOUS, 3, 2)
    }

    /// Whether dots come from the planes, and not from glyphs of characters.
    pub fn is_graphics(&self) -> bool
        ensures { result ≡ is_graphics self.now }
    {
        self.gfx.bit(MISCELLANEOUS, 0)
    }

    /// Whether dots are bytes of 256 colours.
    pub fn is_256_colours(&self) -> bool
        ensures { result ≡ is_256_colours self.now }
    {
        self.is_graphics() && self.is_shift_256()
    }

    /// The planes that are compared.
    pub(super) fn compared_planes(&self) -> PlaneSet
        ensures { (p : ℕ) → is_set_of result p ≡ is_compared self.now p }
    {
        self.gfx.read(COLOUR_DONT_CARE)
    }

    /// The bit mask. Bit i of each plane may change if bit i of the mask is 1.
    pub(super) fn bit_mask(&self) -> u8
        ensures { (i : ℕ) → bit_at result i ≡ bit_mask self.now i }
    {
        self.gfx.read(BIT_MASK)
    }
}
