//! Compares the adapter and its BIOS with the plain screen, dot by dot, on pseudo-random scripts of
//! BIOS calls, advances and frames in all six modes and with text of each height. Calls may stand
//! between any two dots. Modes are set and glyphs loaded at the first dot of a frame.
ghost use Rattle.std.specs.Prelude.{◌≡◌, ◌<◌};

use crate::beginning::Beginning;
use crate::call_counts::CallCounts;
use crate::difference::{Difference, picture_difference};
use crate::frame_scripts::{FrameScripts, ScriptCounts};
use crate::pair::Pair;
use crate::plain_drawing::PlainDrawing;
use crate::plain_modes::PlainMode;
use crate::plain_refusals::high;
use crate::random_calls::RandomCall;
use crate::random_font::make_font;
use crate::random_numbers::{is_one_in, next_below};
use crate::screens_outcome::ScreensOutcome;
use anyhow::Result;
use rand_pcg::Pcg32;
use std::alloc::Global;
use vga_bits::Refusal;

/// Only frames that a frame step ends count.
const COUNTS: ScriptCounts = ScriptCounts {
    scripts: 2,
    frames: 10,
    services: 112,
};

/// One of this many calls has an advance before it.
const SERVICES_TO_ADVANCE: u32 = 4;

/// In one of this many frames a graphics screen is read. A text screen is read in each frame.
const FRAMES_TO_READ: u32 = 5;

/// The most dots of an advance.
const MOST_DOTS: u32 = 16_777_216;

/// How many dots to advance by, with `left` dots left of the frame. Mostly there are few; sometimes
/// they lead to the frame's end, or to just before or after it; seldom over up to three frames, or
/// too far.
fn next_dots(random: &mut Pcg32, mode: PlainMode, left: u32) -> u32 {
    let line = mode.line_dots as u32;
    match next_below(random, 128) {
        0 => 0,
        1 => left,
        2 => left.saturating_sub(1),
        3 => left.saturating_add(1),
        4 => next_below(random, mode.frame_dots().saturating_mul(3).max(1)),
        5 => (MOST_DOTS + 1).saturating_add(next_below(random, line.max(1))),
        6..=47 => next_below(random, 16),
        48..=79 => next_below(random, 2 * line + 1),
        _ => next_below(random, 30 * line + 1),
    }
}

/// An adapter and a plain screen, which get the same calls, advances and frames.
#[derive(Drop)]
struct CutFrames<'a> {
    pair: Pair<'a>,
    drawing: PlainDrawing,
    /// The calls after the first dot of a frame. Each way must be met among them as well.
    within: CallCounts,
}

impl<'a> CutFrames<'a> {
    /// An adapter at power-on with this font file, and a plain screen at the first dot of a frame.
    fn new(alloc: Global, font: &'a [u8]) -> Result<CutFrames<'a>> {
        let pair = Pair::new(alloc, font)?;
        Ok(CutFrames {
            pair,
            drawing: PlainDrawing::new(alloc),
            within: CallCounts::new(alloc, 1),
        })
    }
}

impl CutFrames<'_> {
    /// Advances both.
    fn advance_difference(&mut self, dots: u32) -> Result<Option<Difference>> {
        let answer = self.pair.card.advance(dots);
        if dots > MOST_DOTS {
            let is_alike = answer == Err(Refusal::TooFar);
            return Ok(if is_alike {
                None
            } else {
                Some(Difference::Advance(dots))
            });
        }
        self.drawing.take_dots(&mut self.pair.plain, dots)?;
        Ok(if answer.is_ok() {
            None
        } else {
            Some(Difference::Advance(dots))
        })
    }

    /// Takes both to the frame's end, and compares the pictures.
    fn frame_difference(&mut self) -> Result<Option<Difference>> {
        let left = self.drawing.dots_left_of_frame(self.pair.plain.mode);
        self.pair.count_frame()?;
        self.drawing.take_dots(&mut self.pair.plain, left)?;
        let size = self.pair.plain.picture_size();
        Ok(picture_difference(self.pair.card.frame(), size, self.drawing.picture()))
    }

    /// Takes both to the next frame's first dot, by an advance or by a frame step.
    fn difference_on_way_to_next_frame(
        &mut self,
        random: &mut Pcg32,
    ) -> Result<Option<Difference>> {
        if is_one_in(random, 2) {
            return self.frame_difference();
        }
        let left = self.drawing.dots_left_of_frame(self.pair.plain.mode);
        self.advance_difference(left)
    }

    /// Whether a call must wait for the first dot of a frame, since it sets a mode or loads glyphs.
    fn must_wait_for_first_dot(&self, call: &RandomCall, refusal: Option<Refusal>) -> bool {
        let cuts_anew = matches!(high(call.regs.ax), 0x00 | 0x11);
        refusal.is_none() && cuts_anew && !self.drawing.is_at_first_dot()
    }

    /// Counts a call after the first dot of a frame.
    fn count_call(&mut self, call: &RandomCall, refusal: Option<Refusal>) -> Result<()> {
        if !self.drawing.is_at_first_dot() {
            self.within
                .count_call(self.pair.plain.mode, call.regs, refusal)?;
        }
        Ok(())
    }

    /// Makes a call on both. A call that sets a mode or loads glyphs is made at the first dot of a
    /// frame.
    fn service_difference(
        &mut self,
        random: &mut Pcg32,
        call: &RandomCall,
    ) -> Result<Option<Difference>> {
        let refusal = self.pair.plain.refusal(call.regs, call.block.as_slice());
        if self.must_wait_for_first_dot(call, refusal) {
            let difference = self.difference_on_way_to_next_frame(random)?;
            if difference.is_some() {
                return Ok(difference);
            }
        }
        self.count_call(call, refusal)?;
        self.pair.service_difference(call)
    }

    /// Makes the next advance.
    fn next_advance_difference(&mut self, random: &mut Pcg32) -> Result<Option<Difference>> {
        let mode = self.pair.plain.mode;
        let dots = next_dots(random, mode, self.drawing.dots_left_of_frame(mode));
        self.advance_difference(dots)
    }
}

impl FrameScripts for CutFrames<'_> {
    fn counts(&self) -> ScriptCounts {
        COUNTS
    }

    fn begin(&mut self, beginning: Beginning) -> Result<Option<Difference>> {
        self.pair.begin(beginning)
    }

    fn begin_anew_if_mode_has_changed(
        &mut self,
        beginning: Beginning,
    ) -> Result<Option<Difference>> {
        self.pair.begin_anew_if_mode_has_changed(beginning)
    }

    /// Makes the next call, sometimes after an advance.
    fn next_service(&mut self, random: &mut Pcg32) -> Result<Option<Difference>> {
        if is_one_in(random, SERVICES_TO_ADVANCE) {
            let difference = self.next_advance_difference(random)?;
            if difference.is_some() {
                return Ok(difference);
            }
        }
        let call = self.pair.next_call(random)?;
        self.service_difference(random, &call)
    }

    fn end_frame(&mut self, number: u32) -> Result<Option<Difference>> {
        let difference = self
            .pair
            .difference_of_text_or_wanted_screen(number % FRAMES_TO_READ == 0)?;
        if difference.is_some() {
            return Ok(difference);
        }
        self.frame_difference()
    }

    fn call_met_too_seldom(&self) -> Option<Difference> {
        let call = self.within.call_met_too_seldom_within_frames();
        Difference::of_calls_met_too_seldom(
            call,
            self.pair.counts.mode_and_height_drawn_too_seldom(),
        )
    }
}

/// Compares the adapter with plain screens, dot by dot, on pseudo-random scripts.
pub fn compare_cut_frames(alloc: Global) -> Result<ScreensOutcome> {
    let mut random = Pcg32::new(0x5EED, 6);
    let font = make_font(alloc)?;
    let mut frames = CutFrames::new(alloc, font.as_slice())?;
    let difference = frames.scripts(&mut random)?;
    Ok(frames.pair.outcome(difference))
}
