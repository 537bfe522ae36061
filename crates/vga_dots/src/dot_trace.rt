//! Where the colour of the dot at the beam comes from: each number and each decision on the way.
ghost use Rattle.std.specs.Prelude.{◌≡◌};
ghost use Rattle.vga_dots.specs.Display.{display_of};
ghost use Rattle.vga_dots.specs.DotTrace.{IsDotTrace, bytes_in_order};

use crate::colour::{colour_number, dot_colour};
use crate::display::Display;
use crate::palette_trace::PaletteTrace;
use crate::source_dot::{SourceDot, panning_shift};
use crate::text_trace::TextTrace;
use vga_attr::Attr;
use vga_crtc::Crtc;
use vga_dac::Dac;
use vga_host::Host;
use vga_planes::Planes;

/// Where the colour of a dot comes from.
///
/// What the display memory makes of the dot is told even where something else decides its colour:
/// if `is_screen_off`, the dot is black; else, if the palette is not shown, `number` is the
/// overscan colour; else it is that of `palette` or, in 256 colours, the byte of the plane
/// `source.dot / 2`, or 0 for the ninth dot.
#[derive(Clone, Copy)]
pub struct DotTrace {
    /// Whether the dot is a display dot, as bit 0 of input status 1 says by 0. The picture shows
    /// only these.
    pub is_display: bool,
    /// By how many dots, 0 to 8, the picture is panned to the left.
    pub panning_shift: u8,
    /// The character that the dot comes from, by its counter, and the dot of it, 0 to 8: after
    /// panning, so the character may be the one after the beam's.
    pub source: SourceDot,
    /// The address in each plane that the character is fetched from.
    pub address: u16,
    /// The bytes of planes 0 to 3 at the address.
    pub bytes: [u8; 4],
    /// What text makes of the dot; `None` in graphics.
    pub text: Option<TextTrace>,
    /// How the palette gives the number of the colour; `None` in 256 colours.
    pub palette: Option<PaletteTrace>,
    /// Whether the palette is shown, and not the overscan colour.
    pub is_palette_shown: bool,
    /// The number of the colour, 0 to 255, before the DAC's mask.
    pub number: u8,
    /// The DAC's mask.
    pub mask: u8,
    /// The number of the DAC's entry: the bits of the colour's number that the mask lets pass.
    pub entry: u8,
    /// Whether the screen is off.
    pub is_screen_off: bool,
    /// Red, green and blue, 0 to 63 each.
    pub colour: [u8; 3],
}

/// The bytes of planes 0 to 3 at an address.
fn bytes_at_address(planes: &Planes, address: u16) -> [u8; 4]
    ensures { result ≡ bytes_in_order planes.now address }
{
    [
        planes.byte(0, address),
        planes.byte(1, address),
        planes.byte(2, address),
        planes.byte(3, address),
    ]
}

/// Where the colour of the dot at the beam comes from, by the registers and the display memory as
/// they are now. Where a frame begins, take its start first (`Crtc::take_start`). For a dot that is
/// not at the beam, place the beam there (`Crtc::with_beam`).
///
/// From the IBM PS/2 Hardware Interface Technical Reference, Video Subsystems.
pub fn trace_dot(host: &Host, crtc: &Crtc, attr: &Attr, dac: &Dac) -> DotTrace
    ensures { IsDotTrace (display_of host.now crtc.now attr.now dac.now) result }
{
    let display = Display::new(host, crtc, attr, dac);
    let source = SourceDot::at_beam(&display);
    let address = display.fetch_address(source.counter);
    let number = colour_number(&display);
    let mask = dac.mask();
    DotTrace {
        is_display: crtc.is_display(),
        panning_shift: panning_shift(&display),
        source,
        address,
        bytes: bytes_at_address(host.planes(), address),
        text: TextTrace::at_beam(&display, source, address),
        palette: PaletteTrace::at_beam(&display),
        is_palette_shown: attr.is_palette_shown(),
        number,
        mask,
        entry: number & mask,
        is_screen_off: host.is_screen_off(),
        colour: dot_colour(host, crtc, attr, dac),
    }
}
