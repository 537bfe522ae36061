//! Pseudo-random scripts of BIOS calls and frames, up to the first difference.

use crate::beginning::{BEGINNINGS, Beginning};
use crate::difference::Difference;
use anyhow::Result;
use rand_pcg::Pcg32;

/// How many scripts there are with each beginning, how many frames in each, and how many calls in
/// each frame.
#[derive(Clone, Copy)]
pub struct ScriptCounts {
    pub scripts: u32,
    pub frames: u32,
    pub services: u32,
}

/// An adapter and a plain screen that run scripts of BIOS calls and frames.
pub trait FrameScripts {
    /// How many there are of each.
    fn counts(&self) -> ScriptCounts;

    /// Begins a script on both.
    fn begin(&mut self, beginning: Beginning) -> Result<Option<Difference>>;

    /// Begins a script anew on both, if the mode is no longer that of its beginning.
    fn begin_anew_if_mode_has_changed(
        &mut self,
        beginning: Beginning,
    ) -> Result<Option<Difference>>;

    /// Makes the next call, with what comes before it.
    fn next_service(&mut self, random: &mut Pcg32) -> Result<Option<Difference>>;

    /// Ends the frame with this number in its script, and reads the screen that is shown.
    fn end_frame(&mut self, number: u32) -> Result<Option<Difference>>;

    /// What was met too seldom.
    fn call_met_too_seldom(&self) -> Option<Difference>;

    /// Makes the calls of a frame.
    fn services(&mut self, random: &mut Pcg32) -> Result<Option<Difference>> {
        for _ in 0..self.counts().services {
            let difference = self.next_service(random)?;
            if difference.is_some() {
                return Ok(difference);
            }
        }
        Ok(None)
    }

    /// Runs the frame with this number, and begins the script anew if the frame ends in another
    /// mode.
    fn frame(
        &mut self,
        random: &mut Pcg32,
        beginning: Beginning,
        number: u32,
    ) -> Result<Option<Difference>> {
        let difference = self.services(random)?;
        if difference.is_some() {
            return Ok(difference);
        }
        let difference = self.end_frame(number)?;
        if difference.is_some() {
            return Ok(difference);
        }
        self.begin_anew_if_mode_has_changed(beginning)
    }

    /// Runs a script, which begins anew after each frame that ends in another mode.
    fn script(&mut self, random: &mut Pcg32, beginning: Beginning) -> Result<Option<Difference>> {
        let difference = self.begin(beginning)?;
        if difference.is_some() {
            return Ok(difference);
        }
        for number in 0..self.counts().frames {
            let difference = self.frame(random, beginning, number)?;
            if difference.is_some() {
                return Ok(difference);
            }
        }
        Ok(None)
    }

    /// Runs a script of each beginning.
    fn round(&mut self, random: &mut Pcg32) -> Result<Option<Difference>> {
        for beginning in BEGINNINGS {
            let difference = self.script(random, beginning)?;
            if difference.is_some() {
                return Ok(difference);
            }
        }
        Ok(None)
    }

    /// Runs the scripts, and then finds what was met too seldom in them.
    fn scripts(&mut self, random: &mut Pcg32) -> Result<Option<Difference>> {
        for _ in 0..self.counts().scripts {
            let difference = self.round(random)?;
            if difference.is_some() {
                return Ok(difference);
            }
        }
        Ok(self.call_met_too_seldom())
    }
}
