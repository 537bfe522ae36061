//! The bounds of everything that the CRT controller holds, whatever was written.
ghost use Rattle.vga_crtc.specs.Bounds.{IsCrtc};

use super::Crtc;

impl Crtc {
    /// Each register holds only the bits that it keeps, and the beam stays within its bounds,
    /// whatever was written. The clause is for proofs: nothing runs.
    pub fn bounds(&self)
        ensures { IsCrtc self.now }
    {
        self.registers.bounds();
    }
}
