//! The bounds of everything that the adapter holds.
ghost use Rattle.vga_card.specs.Bounds.{IsCard};

use super::Card;

impl Card {
    /// Each part is within its bounds, whatever was written. Registers hold only the bits that they
    /// keep, planes and latches hold bytes, and the beam stays within its own bounds. The clause is
    /// for proofs: nothing runs.
    pub fn bounds(&self)
        ensures { IsCard self.now }
    {
        self.host.bounds();
        self.crtc.bounds();
        self.attr.bounds();
        self.dac.bounds();
    }
}
