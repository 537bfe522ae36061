//! The bounds of everything that the host path holds.
ghost use Rattle.vga_host.specs.Bounds.{IsHost};

use super::Host;

impl Host {
    /// Memory and latches hold bytes, and each register holds only bits of its mask, whatever was
    /// written. The clause is for proofs: nothing runs.
    pub fn bounds(&self)
        ensures { IsHost self.now }
    {
        self.planes.bounds();
        self.latch.bounds();
        self.seq.bounds();
        self.gfx.bounds();
    }
}
