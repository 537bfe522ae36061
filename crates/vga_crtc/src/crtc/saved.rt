//! The CRT controller as bytes.
ghost use Rattle.std.specs.Prelude.{◌≡◌, ◌+◌, ◌≤◌, ◌↔◌, length, IsTrue};
ghost use Rattle.vga_bits.specs.Saved.{IsPut};
ghost use Rattle.vga_crtc.specs.Saved.{saved_crtc, IsSavedCrtc, crtc_from};

use super::Crtc;
use super::ports::INDEX_MASK;
use crate::beam::Beam;
use crate::registers::{COUNT, KEPT_BITS};
use vga_bits::{are_within_masks, put_byte, put_bytes};

impl Crtc {
    /// How many bytes a CRT controller has when it is saved.
    pub const SAVED_LEN: usize = 37;

    /// Puts the bytes of the CRT controller into a slice from index `at` on. It returns the index
    /// after them. The order is: the 25 registers, the controller's index, and the beam.
    #[tactic(auto, unfolding(crate::specs::Saved::saved_crtc))]
    pub fn save(&self, out: &mut [u8], at: usize) -> usize
        requires { at + 37 ≤ length out.old }
        ensures put { IsPut out.old out.new at result (saved_crtc self.now) }
        ensures end { result ≡ at + 37 }
    {
        let at = put_bytes(out, at, self.registers.values());
        let at = put_byte(out, at, self.index);
        put_bytes(out, at, &self.beam.saved())
    }

    /// Whether some bytes are those of a CRT controller. Registers and index must hold only bits
    /// that they keep, and the beam must be within its bounds.
    pub fn is_saved(bytes: &[u8]) -> bool
        ensures { IsTrue result ↔ IsSavedCrtc bytes.now }
    {
        if bytes.len() != Crtc::SAVED_LEN {
            return false;
        }
        let (registers, rest) = bytes.split_at(COUNT);
        let (index, beam) = rest.split_at(1);
        are_within_masks(&KEPT_BITS, registers) && index[0] <= INDEX_MASK && Beam::is_saved(beam)
    }

    /// The beam of the CRT controller with these 37 bytes.
    #[tactic(auto, unfolding(crate::specs::Saved::crtc_from))]
    pub fn saved_beam(bytes: &[u8]) -> Beam
        requires { length bytes.now ≡ 37 }
        ensures { result ≡ (crtc_from bytes.now).beam }
    {
        let rest = bytes.split_at(COUNT).1;
        Beam::from_saved(rest.split_at(1).1)
    }

    /// Restores registers, index and beam from the bytes of a CRT controller.
    #[tactic(auto, unfolding(crate::specs::Saved::crtc_from))]
    pub fn restore(&mut self, bytes: &[u8])
        requires { IsSavedCrtc bytes.now }
        ensures { self.new ≡ crtc_from bytes.now }
    {
        let (registers, rest) = bytes.split_at(COUNT);
        let (index, beam) = rest.split_at(1);
        self.registers.restore(registers);
        self.index = index[0];
        self.beam = Beam::from_saved(beam);
    }

    /// A saved CRT controller is restored in full. The clauses are for proofs: nothing runs.
    #[tactic(auto, using(crate::proofs::SavedLemmas::crtc_is_back))]
    pub fn restore_gives_what_was_saved(&self)
        ensures saved { IsSavedCrtc (saved_crtc self.now) }
        ensures back { crtc_from (saved_crtc self.now) ≡ self.now }
    {
        let _ = &self.index;
        self.bounds();
    }
}
