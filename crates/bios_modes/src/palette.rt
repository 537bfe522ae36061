//! The default palettes.
ghost use Rattle.std.specs.Prelude.{◌≡◌, ◌<◌, ◌≤◌};
ghost use Rattle.std.specs.Int.{bit_at};
ghost use Rattle.bios_modes.specs.Palette.{component_of_two_bits as component_of};
ghost use Rattle.bios_modes.specs.Palette.{colour_of_six_bits as six_bits_of};
ghost use Rattle.bios_modes.specs.Palette.{colour_with_bright_bit as bright_bit_of};
ghost use Rattle.bios_modes.specs.Palette.{default_colour_in_monochrome_text as intensity_of};
ghost use Rattle.bios_modes.specs.Palette.{default_colour_in_256_colours as byte_of};
ghost use Rattle.bios_modes.specs.Palette.{palette_entry, is_monochrome_mode};
ghost use Rattle.bios_modes.specs.Palette.{default_palette_of_mode as palette_of_mode, dac_entry as entry_of};

use super::modes::mode_row;

/// The default palettes.
#[derive(Clone, Copy, PartialEq, Eq, Debug)]
pub enum Palette {
    /// 64 colours, with two bits for each component.
    Colours64,
    /// Black and two greys.
    Monochrome,
    /// 16 colours, with a bit for each component and one for brightness.
    Colours16,
    /// 16 colours, 16 greys, and 224 colours by the bits of a byte.
    Colours256,
}

/// Two thirds of the full 3F, which the strong bit of a component adds.
const STRONG: u8 = 0x2A;
/// One third of the full 3F, which the weak bit of a component adds.
const WEAK: u8 = 0x15;

/// Bit i of a byte.
fn bit(n: u8, i: u32) -> u8
    requires { i < 8 }
    ensures value { result ≡ bit_at n i }
    ensures small { result ≤ 1 }
{
    (n >> i) & 1
}

/// A component made of two bits.
fn component_of_two_bits(n: u8, strong: u32, weak: u32) -> u8
    requires strong { strong < 8 }
    requires weak { weak < 8 }
    ensures { result ≡ component_of n strong weak }
{
    STRONG * bit(n, strong) + WEAK * bit(n, weak)
}

/// A colour with two bits for each component.
fn colour_of_six_bits(n: u8) -> [u8; 3]
    ensures { result ≡ six_bits_of n }
{
    [
        component_of_two_bits(n, 2, 5),
        component_of_two_bits(n, 1, 4),
        component_of_two_bits(n, 0, 3),
    ]
}

/// One of 16 colours, with a bit for each component and one for brightness.
fn colour_with_bright_bit(n: u8, bright: u32) -> [u8; 3]
    requires { bright < 8 }
    ensures { result ≡ bright_bit_of bright n }
{
    let is_brown = n % 8 == 6 && bit(n, bright) == 0;
    let green = if is_brown {
        WEAK
    } else {
        component_of_two_bits(n, 1, bright)
    };
    [
        component_of_two_bits(n, 2, bright),
        green,
        component_of_two_bits(n, 0, bright),
    ]
}

/// Black, or one of two greys.
fn default_colour_in_monochrome_text(n: u8) -> [u8; 3]
    ensures { result ≡ intensity_of n }
{
    let level = if bit(n, 3) == 1 {
        STRONG + WEAK * bit(n, 4)
    } else {
        0
    };
    [level; 3]
}

/// One of 16 colours, of 16 greys, or of 224 colours by the bits of a byte.
fn default_colour_in_256_colours(n: u8) -> [u8; 3]
    ensures { result ≡ byte_of n }
{
    match n {
        0x00..=0x0F => colour_with_bright_bit(n, 3),
        0x10..=0x1F => [(63 * (n as u16 - 16) / 15) as u8; 3],
        _ => [9 * (n / 32), 9 * (n / 4 % 8), 21 * (n % 4)],
    }
}

impl Palette {
    /// Red, green and blue of entry n, each 0 to 3F (hexadecimal).
    pub fn entry(self, n: u8) -> [u8; 3]
        ensures { result ≡ palette_entry self n }
    {
        match self {
            Palette::Colours64 => colour_of_six_bits(n),
            Palette::Monochrome => default_colour_in_monochrome_text(n),
            Palette::Colours16 => colour_with_bright_bit(n, 4),
            Palette::Colours256 => default_colour_in_256_colours(n),
        }
    }
}

/// The default palette of a mode; a number without a mode gives that of mode 3.
pub fn default_palette_of_mode(mode: u8) -> Palette
    ensures { result ≡ palette_of_mode mode }
{
    match mode_row(mode) {
        Some(row) => row.palette,
        None => Palette::Colours64,
    }
}

/// Red, green and blue of entry n of a mode's default palette, each 0 to 3F (hexadecimal).
pub fn dac_entry(mode: u8, n: u8) -> [u8; 3]
    ensures { result ≡ entry_of mode n }
{
    default_palette_of_mode(mode).entry(n)
}

/// Whether a mode is monochrome.
pub fn is_monochrome(mode: u8) -> bool
    ensures { result ≡ is_monochrome_mode mode }
{
    default_palette_of_mode(mode) == Palette::Monochrome
}
