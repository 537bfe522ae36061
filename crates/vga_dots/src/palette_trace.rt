//! How the four bits of the dot at the beam become the number of a colour.
ghost use Rattle.std.specs.Prelude.{◌≡◌, true, false, if◌then◌else◌, MatchOption};
ghost use Rattle.vga_host.specs.Graphics.{is_256_colours};
ghost use Rattle.vga_bits.specs.Bits.{field};
ghost use Rattle.vga_attr.specs.Fields.{is_colour_select_wide, colour_select_middle};
ghost use Rattle.vga_dots.specs.PaletteTrace.{IsPaletteTrace};

use crate::colour::nibble;
use crate::display::Display;
use vga_attr::Attr;
use vga_bits::is_set;

/// The registers of the attribute controller above the palette's that have a part in it.
const MODE_CONTROL: usize = 0x10;

const COLOUR_PLANE_ENABLE: usize = 0x12;

const COLOUR_SELECT: usize = 0x14;

/// From the four bits of a dot to the palette register that they select, and from its six bits to
/// the eight of the colour's number: bits 3 to 0 of the palette register, then `middle`, then
/// `high`.
///
/// From the IBM PS/2 Hardware Interface Technical Reference, Video Subsystems, "Color Plane Enable
/// Register", "Internal Palette Registers" and "Color Select Register".
#[derive(Clone, Copy)]
pub struct PaletteTrace {
    /// The four bits of the dot: of text, or one of each plane.
    pub nibble: u8,
    /// The number of the palette register, 0 to 15: the four bits, without those of planes that
    /// colour plane enable leaves out.
    pub register: u8,
    /// What the palette register holds, 0 to 63.
    pub value: u8,
    /// Whether bits 5 and 4 of the number come from colour select, and not from the palette
    /// register: mode control bit 7.
    pub is_colour_select_wide: bool,
    /// Bits 5 and 4 of the number, 0 to 3.
    pub middle: u8,
    /// Bits 7 and 6 of the number, 0 to 3, which come from colour select.
    pub high: u8,
}

/// Bits 5 and 4 of a colour's number: of colour select, or of what the palette register holds.
fn middle_bits(attr: &Attr, value: u8) -> u8
    ensures { result ≡ (if is_colour_select_wide attr.now then colour_select_middle attr.now
        else field value 5 4) }
{
    let registers = attr.regs();
    if is_set(registers[MODE_CONTROL], 7) {
        registers[COLOUR_SELECT] % 4
    } else {
        (value >> 4) % 4
    }
}

impl PaletteTrace {
    /// How the four bits of the dot at the beam become a number, in text or in 16 colours.
    fn of_nibble(display: &Display<'_>) -> PaletteTrace
        requires few { is_256_colours display.now.host ≡ false }
        ensures { IsPaletteTrace display.now result }
    {
        let attr = display.attr();
        let registers = attr.regs();
        let nibble = nibble(display);
        let register = nibble & (registers[COLOUR_PLANE_ENABLE] % 16);
        let value = registers[register as usize];
        PaletteTrace {
            nibble,
            register,
            value,
            is_colour_select_wide: is_set(registers[MODE_CONTROL], 7),
            middle: middle_bits(attr, value),
            high: (registers[COLOUR_SELECT] >> 2) % 4,
        }
    }

    /// How the four bits of the dot at the beam become a number; `None` in 256 colours, where the
    /// number is a byte of a plane.
    pub(crate) fn at_beam(display: &Display<'_>) -> Option<PaletteTrace>
        ensures { MatchOption result (is_256_colours display.now.host ≡ true)
            (IsPaletteTrace display.now) }
    {
        if display.host().is_256_colours() {
            None
        } else {
            Some(PaletteTrace::of_nibble(display))
        }
    }
}
