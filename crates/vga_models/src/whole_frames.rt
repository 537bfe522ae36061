//! Compares the adapter and its BIOS with the plain screen, on pseudo-random scripts of BIOS calls
//! and whole frames in all six modes and with text of each height: every answer, every refusal,
//! every picture, and screens that are read.
ghost use Rattle.std.specs.Prelude.{◌≡◌, ◌<◌};

use crate::beginning::Beginning;
use crate::difference::{Difference, picture_difference};
use crate::frame_scripts::{FrameScripts, ScriptCounts};
use crate::pair::Pair;
use crate::random_font::make_font;
use crate::screens_outcome::ScreensOutcome;
use anyhow::Result;
use rand_pcg::Pcg32;
use std::alloc::Global;

const COUNTS: ScriptCounts = ScriptCounts {
    scripts: 4,
    frames: 40,
    services: 28,
};

/// In one of this many frames a graphics screen is read. A text screen is read in each frame.
const FRAMES_TO_READ: u32 = 10;

/// An adapter and a plain screen, which get the same calls and whole frames.
#[derive(Drop)]
struct WholeFrames<'a> {
    pair: Pair<'a>,
}

impl<'a> WholeFrames<'a> {
    /// An adapter at power-on with this font file, and a plain screen.
    fn new(alloc: Global, font: &'a [u8]) -> Result<WholeFrames<'a>> {
        let pair = Pair::new(alloc, font)?;
        Ok(WholeFrames { pair })
    }
}

impl WholeFrames<'_> {
    /// Draws a whole frame on both.
    fn frame_difference(&mut self) -> Result<Option<Difference>> {
        self.pair.count_frame()?;
        let wanted = self.pair.plain.draw()?;
        Ok(picture_difference(
            self.pair.card.frame(),
            (wanted.width, wanted.height),
            wanted.bytes.as_slice(),
        ))
    }
}

impl FrameScripts for WholeFrames<'_> {
    fn counts(&self) -> ScriptCounts {
        COUNTS
    }

    fn begin(&mut self, beginning: Beginning) -> Result<Option<Difference>> {
        self.pair.begin(beginning)
    }

    fn begin_anew_if_mode_has_changed(
        &mut self,
        beginning: Beginning,
    ) -> Result<Option<Difference>> {
        self.pair.begin_anew_if_mode_has_changed(beginning)
    }

    fn next_service(&mut self, random: &mut Pcg32) -> Result<Option<Difference>> {
        let call = self.pair.next_call(random)?;
        self.pair.service_difference(&call)
    }

    fn end_frame(&mut self, number: u32) -> Result<Option<Difference>> {
        let difference = self.frame_difference()?;
        if difference.is_some() {
            return Ok(difference);
        }
        self.pair
            .difference_of_text_or_wanted_screen(number % FRAMES_TO_READ == 0)
    }

    fn call_met_too_seldom(&self) -> Option<Difference> {
        let counts = &self.pair.counts;
        Difference::of_calls_met_too_seldom(
            counts.call_met_too_seldom(),
            counts.mode_and_height_drawn_too_seldom(),
        )
    }
}

/// Compares the adapter with plain screens on pseudo-random scripts.
pub fn compare_whole_frames(alloc: Global) -> Result<ScreensOutcome> {
    let mut random = Pcg32::new(0x5EED, 4);
    let font = make_font(alloc)?;
    let mut frames = WholeFrames::new(alloc, font.as_slice())?;
    let difference = frames.scripts(&mut random)?;
    Ok(frames.pair.outcome(difference))
}
