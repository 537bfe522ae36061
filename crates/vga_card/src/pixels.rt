//! How large the screen shows a pixel of memory.
ghost use Rattle.std.specs.Prelude.{◌≡◌, ◌<◌, ◌≤◌};
ghost use Rattle.vga_card.specs.Pixels.{pixel_height, pixel_width};

use crate::card::{Card, Regs};

/// How many dots of a line, 1 or 2, and how many scan lines, 1 to 64, show one pixel of memory.
#[derive(Clone, Copy, Debug, PartialEq, Eq)]
pub struct PixelSize {
    pub width: u32,
    pub height: u32,
}

impl Card {
    /// How large the screen shows a pixel, by the registers as they are.
    pub fn pixel_size(&self) -> PixelSize
        ensures width { result.width ≡ pixel_width self.now }
        ensures height { result.height ≡ pixel_height self.now }
        ensures some_width { 0 < result.width }
        ensures narrow { result.width ≤ 2 }
        ensures some_height { 0 < result.height }
        ensures low { result.height ≤ 64 }
    {
        let Regs { host, crtc, .. } = self.regs();
        let is_wide = host.is_256_colours() && host.is_eight_dots();
        let lines = if host.is_graphics() {
            crtc.fields().maximum_scan_line() as u32 + 1
        } else {
            1
        };
        PixelSize {
            width: if is_wide { 2 } else { 1 },
            height: if crtc.fields().is_double_scan() {
                2 * lines
            } else {
                lines
            },
        }
    }
}
