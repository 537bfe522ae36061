//! The host path as bytes.
ghost use Rattle.std.specs.Prelude.{◌≡◌, ◌+◌, ◌≤◌, ◌↔◌, length, IsTrue};
ghost use Rattle.vga_bits.specs.Saved.{IsPut};
ghost use Rattle.vga_host.specs.Saved.{saved_latches, latches_from, saved_host, IsSavedHost};
ghost use Rattle.vga_host.specs.Saved.{host_from};

use super::Host;
use super::graphics::{self, GFX_MASKS};
use super::sequencer::{self, SEQ_MASKS};
use vga_bits::{are_within_masks, put_bytes};
use vga_planes::Latch;

/// The bytes of the latches, from plane 0.
fn latch_bytes(latch: Latch) -> [u8; 4]
    ensures { result ≡ saved_latches latch }
{
    [latch.byte(0), latch.byte(1), latch.byte(2), latch.byte(3)]
}

/// The latches that have these four bytes.
fn latch_from(bytes: &[u8]) -> Latch
    requires { length bytes.now ≡ 4 }
    ensures { result ≡ latches_from bytes.now }
{
    Latch::new([bytes[0], bytes[1], bytes[2], bytes[3]])
}

impl Host {
    /// How many bytes a host path has when it is saved.
    pub const SAVED_LEN: usize = 262_164;

    /// Puts the bytes of the host path into a slice from index `at` on. It returns the index after
    /// them. The order is: the latches, the sequencer's 5 registers, the graphics controller's 9,
    /// both indexes, and the display memory.
    #[tactic(auto, unfolding(crate::specs::Saved::saved_host))]
    pub fn save(&self, out: &mut [u8], at: usize) -> usize
        requires { at + 262164 ≤ length out.old }
        ensures put { IsPut out.old out.new at result (saved_host self.now) }
        ensures end { result ≡ at + 262164 }
    {
        let at = put_bytes(out, at, &latch_bytes(self.latch));
        let at = put_bytes(out, at, self.seq.values());
        let at = put_bytes(out, at, self.gfx.values());
        let at = put_bytes(out, at, &[self.seq_index, self.gfx_index]);
        self.planes.save(out, at)
    }

    /// Whether some bytes are those of a host path. Registers and indexes must hold only bits that
    /// they keep. Latches and memory may hold any bytes.
    pub fn is_saved(bytes: &[u8]) -> bool
        ensures { IsTrue result ↔ IsSavedHost bytes.now }
    {
        if bytes.len() != Host::SAVED_LEN {
            return false;
        }
        let rest = bytes.split_at(4).1;
        let (seq, rest) = rest.split_at(SEQ_MASKS.len());
        let (gfx, indexes) = rest.split_at(GFX_MASKS.len());
        are_within_masks(&SEQ_MASKS, seq)
            && are_within_masks(&GFX_MASKS, gfx)
            && indexes[0] <= sequencer::INDEX_MASK
            && indexes[1] <= graphics::INDEX_MASK
    }

    /// Restores latches, registers, indexes and memory from the bytes of a host path.
    #[tactic(auto, unfolding(crate::specs::Saved::host_from))]
    pub fn restore(&mut self, bytes: &[u8])
        requires { IsSavedHost bytes.now }
        ensures { self.new ≡ host_from bytes.now }
    {
        let (latch, rest) = bytes.split_at(4);
        let (seq, rest) = rest.split_at(SEQ_MASKS.len());
        let (gfx, rest) = rest.split_at(GFX_MASKS.len());
        let (indexes, memory) = rest.split_at(2);
        self.latch = latch_from(latch);
        self.seq.restore(seq);
        self.gfx.restore(gfx);
        self.access = self
            .access
            .with_sequencer(&self.seq)
            .with_graphics(&self.gfx);
        self.seq_index = indexes[0];
        self.gfx_index = indexes[1];
        self.planes.restore(memory);
    }

    /// A saved host path is restored in full. The clauses are for proofs: nothing runs.
    pub fn restore_gives_what_was_saved(&self)
        ensures saved { IsSavedHost (saved_host self.now) }
        ensures back { host_from (saved_host self.now) ≡ self.now }
    {
        self.planes.restore_gives_what_was_saved();
        self.bounds();
    }
}
