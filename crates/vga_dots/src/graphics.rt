//! Graphics: from the planes to the four bits, or the byte, of a dot.
ghost use Rattle.std.specs.Prelude.{◌≡◌, ◌<◌};
ghost use Rattle.std.specs.Int.{bit_at};
ghost use Rattle.vga_dots.specs.Graphics.{plane_bits as bits_of_planes};
ghost use Rattle.vga_dots.specs.Graphics.{planar_nibble as nibble_of_planes};
ghost use Rattle.vga_dots.specs.Graphics.{packed_byte as byte_of_planes};

use crate::display::Display;
use crate::source_dot::SourceDot;
use vga_host::Host;

/// Bit `i`, 0 to 7, of a byte, as 0 or 1.
pub(crate) fn bit(byte: u8, i: u8) -> u8
    requires { i < 8 }
    ensures value { result ≡ bit_at byte i }
    ensures below { result < 2 }
{
    (byte >> i) & 1
}

/// Bit `i`, 0 to 7, of each plane's byte at an address, with plane 0 as the lowest bit.
#[tactic(auto, unfolding(crate::specs::Graphics::plane_bits))]
fn plane_bits(host: &Host, address: u16, i: u8) -> u8
    requires { i < 8 }
    ensures { result ≡ bits_of_planes host.now address i }
{
    let planes = host.planes();
    bit(planes.byte(0, address), i)
        + 2 * bit(planes.byte(1, address), i)
        + 4 * bit(planes.byte(2, address), i)
        + 8 * bit(planes.byte(3, address), i)
}

/// The four bits of a dot in 16 colours.
#[tactic(auto, unfolding(crate::specs::Graphics::planar_nibble))]
pub(crate) fn planar_nibble(display: &Display<'_>, source: SourceDot) -> u8
    ensures { result ≡ nibble_of_planes display.now.host display.now.crtc source }
{
    if source.dot < 8 {
        let address = display.fetch_address(source.counter);
        plane_bits(display.host(), address, 7 - source.dot)
    } else {
        0
    }
}

/// The byte of a dot in 256 colours.
#[tactic(auto, unfolding(crate::specs::Graphics::packed_byte))]
pub(crate) fn packed_byte(display: &Display<'_>, source: SourceDot) -> u8
    ensures { result ≡ byte_of_planes display.now.host display.now.crtc source }
{
    if source.dot < 8 {
        let address = display.fetch_address(source.counter);
        display.planes().byte((source.dot / 2) as usize, address)
    } else {
        0
    }
}
