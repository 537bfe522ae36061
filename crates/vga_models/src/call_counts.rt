//! Counting how often each function ended in each way in each mode, in text with characters of each
//! height, and finding ways that were not met.
ghost use Rattle.std.specs.Prelude.{◌≡◌, ◌<◌};

use crate::plain_modes::{HEIGHTS, Kind, MODES, PlainMode};
use crate::plain_refusals::{high, low};
use bios_services::Regs;
use std::alloc::{AllocError, Global};
use vga_bits::Refusal;

/// How many times scripts of whole frames must meet each way.
pub const OFTEN: u32 = 3;

/// A function with its subfunction, and how it ended: accepted, or refused for this reason.
#[derive(Clone, Copy, PartialEq, Eq)]
struct Ending {
    function: u8,
    part: u8,
    refusal: Option<Refusal>,
}

/// How often a function ended in this way in a mode, with characters of a height.
#[derive(Clone, Copy)]
struct Count {
    mode: u8,
    height: u8,
    ending: Ending,
    times: u32,
}

impl Count {
    /// Whether it counts this way in this mode, with characters of this height.
    fn is_of(self, mode: u8, height: u8, ending: Ending) -> bool {
        self.mode == mode && self.height == height && self.ending == ending
    }
}

/// How often each way was met, how often it must be, and the mode and height of each frame drawn.
#[derive(Drop)]
pub struct CallCounts {
    often: u32,
    counts: Vec<Count>,
    drawn: Vec<(u8, u8)>,
    refused: u32,
}

/// Functions and subfunctions that are accepted in every mode, besides mode sets.
const ACCEPTED: [(u8, u8); 30] = [
    (0x01, 0),
    (0x02, 0),
    (0x03, 0),
    (0x05, 0),
    (0x06, 0),
    (0x07, 0),
    (0x08, 0),
    (0x09, 0),
    (0x0A, 0),
    (0x0E, 0),
    (0x0F, 0),
    (0x10, 0x00),
    (0x10, 0x01),
    (0x10, 0x02),
    (0x10, 0x03),
    (0x10, 0x07),
    (0x10, 0x08),
    (0x10, 0x09),
    (0x10, 0x10),
    (0x10, 0x12),
    (0x10, 0x15),
    (0x10, 0x17),
    (0x10, 0x18),
    (0x10, 0x19),
    (0x12, 0),
    (0x13, 0),
    (0x13, 1),
    (0x13, 2),
    (0x13, 3),
    (0x1A, 0),
];

/// Functions and subfunctions that are refused for these reasons in every mode.
const REFUSED: [(u8, u8, Refusal); 30] = [
    (0x00, 0, Refusal::BadMode),
    (0x05, 0, Refusal::BadPage),
    (0x08, 0, Refusal::Outside),
    (0x09, 0, Refusal::Outside),
    (0x09, 0, Refusal::CountPast),
    (0x0A, 0, Refusal::Outside),
    (0x0A, 0, Refusal::CountPast),
    (0x0E, 0, Refusal::Outside),
    (0x10, 0x00, Refusal::BadRegister),
    (0x10, 0x02, Refusal::BadBlock),
    (0x10, 0x03, Refusal::BadRegister),
    (0x10, 0x07, Refusal::BadRegister),
    (0x10, 0x10, Refusal::BadRegister),
    (0x10, 0x12, Refusal::BadRegister),
    (0x10, 0x12, Refusal::BadBlock),
    (0x10, 0x15, Refusal::BadRegister),
    (0x10, 0x17, Refusal::BadRegister),
    (0x11, 0x10, Refusal::BadFunction),
    (0x11, 0x11, Refusal::BadFunction),
    (0x11, 0x12, Refusal::BadFunction),
    (0x11, 0x14, Refusal::BadFunction),
    (0x11, 0xFF, Refusal::BadFunction),
    (0x12, 0, Refusal::BadFunction),
    (0x13, 0, Refusal::Outside),
    (0x13, 0, Refusal::BadBlock),
    (0x13, 1, Refusal::BadBlock),
    (0x13, 2, Refusal::BadBlock),
    (0x13, 3, Refusal::BadBlock),
    (0x13, 0xFF, Refusal::BadFunction),
    (0x1A, 0, Refusal::BadFunction),
];

/// Functions and subfunctions that are accepted in text with characters of each height, and that
/// depend on how the cells are arranged.
const ACCEPTED_AT_HEIGHT: [(u8, u8); 17] = [
    (0x00, 0),
    (0x02, 0),
    (0x05, 0),
    (0x06, 0),
    (0x07, 0),
    (0x08, 0),
    (0x09, 0),
    (0x0A, 0),
    (0x0E, 0),
    (0x11, 0x10),
    (0x11, 0x11),
    (0x11, 0x12),
    (0x11, 0x14),
    (0x13, 0),
    (0x13, 1),
    (0x13, 2),
    (0x13, 3),
];

/// Functions and subfunctions that are refused for these reasons in text with characters of each
/// height.
const REFUSED_AT_HEIGHT: [(u8, u8, Refusal); 7] = [
    (0x02, 0, Refusal::BadPage),
    (0x05, 0, Refusal::BadPage),
    (0x08, 0, Refusal::Outside),
    (0x09, 0, Refusal::Outside),
    (0x09, 0, Refusal::CountPast),
    (0x0A, 0, Refusal::CountPast),
    (0x0E, 0, Refusal::Outside),
];

/// The subfunctions of 11, which graphics modes refuse.
const GLYPH_PARTS: [u8; 4] = [0x10, 0x11, 0x12, 0x14];

/// Why text modes refuse glyphs of a block.
const BLOCK_REFUSALS: [Refusal; 3] = [Refusal::CountPast, Refusal::BadBlock, Refusal::BadHeight];

/// Functions that are refused if BH names a page that does not exist, in modes of several pages.
const PAGED: [u8; 6] = [0x02, 0x03, 0x08, 0x09, 0x0A, 0x13];

/// The subfunction, if the function has any. All invalid ones of strings count as one, and so do
/// those of glyphs.
fn counted_subfunction(regs: Regs) -> u8 {
    let al = low(regs.ax);
    match high(regs.ax) {
        0x10 => al,
        0x11 if GLYPH_PARTS.contains(&al) => al,
        0x13 if al < 4 => al,
        0x11 | 0x13 => 0xFF,
        _ => 0,
    }
}

/// A function and subfunction that is accepted.
fn accepted(function: u8, part: u8) -> Ending {
    Ending {
        function,
        part,
        refusal: None,
    }
}

/// A function and subfunction that is refused for this reason.
fn refused(function: u8, part: u8, refusal: Refusal) -> Ending {
    Ending {
        function,
        part,
        refusal: Some(refusal),
    }
}

impl CallCounts {
    /// No counts so far. Each way must be met `often` times.
    pub fn new(alloc: Global, often: u32) -> CallCounts {
        CallCounts {
            often,
            counts: Vec::new(alloc),
            drawn: Vec::new(alloc),
            refused: 0,
        }
    }

    /// How many calls were refused.
    pub fn refused(&self) -> u32 {
        self.refused
    }

    /// Counts a call in a mode, with characters of the height before the call.
    pub fn count_call(
        &mut self,
        mode: PlainMode,
        regs: Regs,
        refusal: Option<Refusal>,
    ) -> Result<(), AllocError> {
        let ending = Ending {
            function: high(regs.ax),
            part: counted_subfunction(regs),
            refusal,
        };
        if refusal.is_some() {
            self.refused = self.refused.saturating_add(1);
        }
        if !self.count_if_met_before(mode, ending) {
            self.counts.push(Count {
                mode: mode.number,
                height: mode.height,
                ending,
                times: 1,
            })?;
        }
        Ok(())
    }

    /// Counts a way that was met before in this mode with characters of this height; returns false
    /// if it was not met before.
    fn count_if_met_before(&mut self, mode: PlainMode, ending: Ending) -> bool {
        for count in self.counts.iter_mut() {
            if count.is_of(mode.number, mode.height, ending) {
                count.times = count.times.saturating_add(1);
                return true;
            }
        }
        false
    }

    /// Counts a frame that is drawn in a mode.
    pub fn count_frame(&mut self, mode: PlainMode) -> Result<(), AllocError> {
        self.drawn.push((mode.number, mode.height))?;
        Ok(())
    }

    /// Whether a way was met too seldom in a mode, with characters of any height.
    fn is_met_too_seldom_in_mode(&self, mode: u8, ending: Ending) -> bool {
        let mut times = 0u32;
        for count in self.counts.iter() {
            if count.mode == mode && count.ending == ending {
                times = times.saturating_add(count.times);
            }
        }
        times < self.often
    }

    /// Whether a way was met too seldom in a mode, with characters of this height.
    fn is_met_too_seldom_at_height(&self, mode: u8, height: u8, ending: Ending) -> bool {
        for count in self.counts.iter() {
            if count.is_of(mode, height, ending) {
                return count.times < self.often;
            }
        }
        true
    }

    /// A function that was accepted too seldom in a mode, or refused too seldom in one of its ways.
    fn call_met_too_seldom_in_mode(&self, mode: PlainMode) -> Option<(u8, u8)> {
        self.call_accepted_too_seldom_in_mode(mode.number)
            .or(self.call_refused_too_seldom_in_mode(mode.number))
            .or(self.bad_page_call_refused_too_seldom_in_mode(mode))
            .or(self.pixel_call_met_too_seldom_in_mode(mode))
    }

    /// A function that was accepted too seldom in a mode.
    fn call_accepted_too_seldom_in_mode(&self, mode: u8) -> Option<(u8, u8)> {
        for (function, part) in ACCEPTED {
            if self.is_met_too_seldom_in_mode(mode, accepted(function, part)) {
                return Some((function, part));
            }
        }
        None
    }

    /// A function that was refused too seldom for a reason that it has in every mode.
    fn call_refused_too_seldom_in_mode(&self, mode: u8) -> Option<(u8, u8)> {
        for (function, part, refusal) in REFUSED {
            if self.is_met_too_seldom_in_mode(mode, refused(function, part, refusal)) {
                return Some((function, part));
            }
        }
        None
    }

    /// A function that was refused too seldom for its page in a mode of several pages.
    fn bad_page_call_refused_too_seldom_in_mode(&self, mode: PlainMode) -> Option<(u8, u8)> {
        if mode.pages <= 1 {
            return None;
        }
        for function in PAGED {
            if self.is_met_too_seldom_in_mode(mode.number, refused(function, 0, Refusal::BadPage)) {
                return Some((function, 0));
            }
        }
        None
    }

    /// The same of functions for pixels, which text modes refuse.
    fn pixel_call_met_too_seldom_in_mode(&self, mode: PlainMode) -> Option<(u8, u8)> {
        let number = mode.number;
        for function in [0x0C, 0x0D] {
            let is_met_too_seldom_in_mode = if mode.kind == Kind::Text {
                self.is_met_too_seldom_in_mode(number, refused(function, 0, Refusal::WrongKind))
            } else {
                self.is_met_too_seldom_in_mode(number, accepted(function, 0))
                    || self.is_met_too_seldom_in_mode(
                        number,
                        refused(function, 0, Refusal::Outside),
                    )
                    || (mode.pages > 1
                        && self.is_met_too_seldom_in_mode(
                            number,
                            refused(function, 0, Refusal::BadPage),
                        ))
            };
            if is_met_too_seldom_in_mode {
                return Some((function, 0));
            }
        }
        None
    }

    /// The same of function 11, which graphics modes refuse.
    fn glyph_call_met_too_seldom_in_mode(&self, mode: PlainMode) -> Option<(u8, u8)> {
        let number = mode.number;
        let is_text = mode.kind == Kind::Text;
        for part in GLYPH_PARTS {
            let is_met_too_seldom_in_mode = if is_text {
                self.is_met_too_seldom_in_mode(number, accepted(0x11, part))
            } else {
                self.is_met_too_seldom_in_mode(number, refused(0x11, part, Refusal::WrongKind))
            };
            if is_met_too_seldom_in_mode {
                return Some((0x11, part));
            }
        }
        for refusal in BLOCK_REFUSALS {
            if is_text && self.is_met_too_seldom_in_mode(number, refused(0x11, 0x10, refusal)) {
                return Some((0x11, 0x10));
            }
        }
        None
    }

    /// The same of text with characters of this height.
    fn call_met_too_seldom_at_height(&self, mode: u8, height: u8) -> Option<(u8, u8)> {
        self.call_accepted_too_seldom_at_height(mode, height)
            .or(self.call_refused_too_seldom_at_height(mode, height))
    }

    /// A function that was accepted too seldom in text with characters of this height.
    fn call_accepted_too_seldom_at_height(&self, mode: u8, height: u8) -> Option<(u8, u8)> {
        for (function, part) in ACCEPTED_AT_HEIGHT {
            if self.is_met_too_seldom_at_height(mode, height, accepted(function, part)) {
                return Some((function, part));
            }
        }
        None
    }

    /// A function that was refused too seldom for a reason that it has in text with characters of
    /// this height.
    fn call_refused_too_seldom_at_height(&self, mode: u8, height: u8) -> Option<(u8, u8)> {
        for (function, part, refusal) in REFUSED_AT_HEIGHT {
            if self.is_met_too_seldom_at_height(mode, height, refused(function, part, refusal)) {
                return Some((function, part));
            }
        }
        None
    }

    /// The same of text with characters of each height.
    fn call_met_too_seldom_at_some_height(&self, mode: PlainMode) -> Option<(u8, u8)> {
        if mode.kind != Kind::Text {
            return None;
        }
        HEIGHTS.iter().find_map(|height| self.call_met_too_seldom_at_height(mode.number, *height))
    }

    /// The mode set of a mode, if it was accepted too seldom.
    fn mode_set_accepted_too_seldom(&self, mode: PlainMode) -> Option<(u8, u8)> {
        if self.is_met_too_seldom_in_mode(mode.number, accepted(0x00, 0)) {
            Some((0x00, 0))
        } else {
            None
        }
    }

    /// The first function and subfunction that was not met often enough in each of its ways in each
    /// mode, among calls that set no mode and load no glyphs of text.
    pub fn call_met_too_seldom_within_frames(&self) -> Option<(u8, u8)> {
        MODES
            .iter()
            .find_map(|mode| self.call_met_too_seldom_in_mode(*mode))
    }

    /// The first function and subfunction that was not met often enough in each of its ways in each
    /// mode.
    pub fn call_met_too_seldom(&self) -> Option<(u8, u8)> {
        MODES
            .iter()
            .find_map(|mode| self.any_call_met_too_seldom_in_mode(*mode))
    }

    /// The first function and subfunction that was not met often enough in each of its ways in this
    /// mode.
    fn any_call_met_too_seldom_in_mode(&self, mode: PlainMode) -> Option<(u8, u8)> {
        self.mode_set_accepted_too_seldom(mode)
            .or(self.call_met_too_seldom_in_mode(mode))
            .or(self.glyph_call_met_too_seldom_in_mode(mode))
            .or(self.call_met_too_seldom_at_some_height(mode))
    }

    /// Whether too few frames were drawn in a mode with characters of this height.
    fn is_drawn_too_seldom(&self, mode: u8, height: u8) -> bool {
        let mut times = 0u32;
        for frame in self.drawn.iter() {
            if *frame == (mode, height) {
                times = times.saturating_add(1);
            }
        }
        times < self.often
    }

    /// The first text mode and height in which too few frames were drawn.
    pub fn mode_and_height_drawn_too_seldom(&self) -> Option<(u8, u8)> {
        for mode in [0x03, 0x07] {
            for height in HEIGHTS {
                if self.is_drawn_too_seldom(mode, height) {
                    return Some((mode, height));
                }
            }
        }
        None
    }
}
