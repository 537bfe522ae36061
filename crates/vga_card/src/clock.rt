//! What the clock reaches next, and how fast it runs.
ghost use Rattle.std.specs.Prelude.{◌≡◌, ◌≤◌, IfSome};
ghost use Rattle.vga_card.specs.Card.{CardState};
ghost use Rattle.vga_card.specs.Clock.{clock_rate as clock_rate_of, IsRasterTiming};

use crate::card::Card;
use vga_crtc::Crtc;
use vga_host::Host;

/// How many dots lead to the end of the frame and to the next changes of input status 1, if no
/// register is written meanwhile; how many dots a line and a frame have; and how many dots come a
/// second.
#[derive(Clone, Copy, Debug, PartialEq, Eq)]
pub struct RasterTiming {
    /// How many dots lead to the end of the frame under way.
    pub to_frame: u32,
    /// How many lead to the next change of bit 0 of input status 1, which is 0 at a display dot;
    /// `None` if it never changes.
    pub to_display: Option<u32>,
    /// How many lead to the next change of bit 3 of input status 1, which is 1 in the vertical
    /// retrace; `None` if it never changes.
    pub to_retrace: Option<u32>,
    /// How many dots a line has.
    pub line_dots: u32,
    /// How many dots a frame has.
    pub frame_dots: u32,
    /// How many lines a frame has.
    pub lines: u16,
    /// Dots a second, before the sequencer halves them: 25,175,000 or 28,322,000.
    pub rate: u32,
    /// Whether the sequencer halves the rate.
    pub is_halved: bool,
}

/// Dots a second, as bits 3 and 2 of the miscellaneous output register select the clock.
fn clock_rate(misc: u8) -> u32
    ensures { result ≡ clock_rate_of misc }
{
    if misc / 4 % 4 == 1 {
        28_322_000
    } else {
        25_175_000
    }
}

/// The timing of every card with these registers.
pub(crate) fn raster_timing(crtc: &Crtc, host: &Host, misc: u8) -> RasterTiming
    ensures clock { (card : CardState) → crtc.now ≡ card.crtc → host.now ≡ card.host
        → misc ≡ card.misc → IsRasterTiming card result }
    ensures display { IfSome result.to_display (λ n. n ≤ 4800000) }
    ensures retrace { IfSome result.to_retrace (λ n. n ≤ 4800000) }
{
    let width = host.character_width();
    let line_dots = crtc.fields().characters() as u32 * width as u32;
    let lines = crtc.fields().lines();
    RasterTiming {
        to_frame: crtc.dots_to_frame_end(width),
        to_display: crtc.dots_to_display_change(width),
        to_retrace: crtc.dots_to_retrace_change(width),
        line_dots,
        frame_dots: line_dots * lines as u32,
        lines,
        rate: clock_rate(misc),
        is_halved: host.is_clock_halved(),
    }
}

impl Card {
    /// The dots to the end of the frame and to the next changes of input status 1, and the rate of
    /// the dot clock, by the registers as they are.
    pub fn clock(&self) -> RasterTiming
        ensures clock { IsRasterTiming self.now result }
        ensures display { IfSome result.to_display (λ n. n ≤ 4800000) }
        ensures retrace { IfSome result.to_retrace (λ n. n ≤ 4800000) }
    {
        let regs = self.regs();
        raster_timing(regs.crtc, regs.host, regs.misc)
    }
}
