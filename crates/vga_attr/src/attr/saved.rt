//! The attribute controller as bytes.
ghost use Rattle.std.specs.Prelude.{◌≡◌, ◌+◌, ◌≤◌, ◌↔◌, length, IsTrue};
ghost use Rattle.vga_bits.specs.Saved.{IsPut};
ghost use Rattle.vga_attr.specs.Saved.{saved_attr, IsSavedAttr, attr_from};

use super::fields::colour_numbers_of;
use super::{Attr, INDEX_MASK, MASKS};
use vga_bits::{are_within_masks, flag_byte, put_bytes};

impl Attr {
    /// How many bytes an attribute controller has when it is saved.
    pub const SAVED_LEN: usize = 23;

    /// Puts the bytes of the attribute controller into a slice from index `at` on. It returns the
    /// index after them. The order is: the 21 registers, the controller's index, and 1 if the next
    /// write is data, else 0.
    #[tactic(auto, unfolding(crate::specs::Saved::saved_attr), using(vga_bits::proofs::SavedLemmas::put_behind))]
    pub fn save(&self, out: &mut [u8], at: usize) -> usize
        requires { at + 23 ≤ length out.old }
        ensures put { IsPut out.old out.new at result (saved_attr self.now) }
        ensures end { result ≡ at + 23 }
    {
        let at = put_bytes(out, at, self.registers.values());
        put_bytes(out, at, &[self.index, flag_byte(self.is_data)])
    }

    /// Whether some bytes are those of an attribute controller. Registers and index must hold only
    /// bits that they keep, and the flag must be 0 or 1.
    pub fn is_saved(bytes: &[u8]) -> bool
        ensures { IsTrue result ↔ IsSavedAttr bytes.now }
    {
        if bytes.len() != Attr::SAVED_LEN {
            return false;
        }
        let (registers, rest) = bytes.split_at(MASKS.len());
        are_within_masks(&MASKS, registers) && rest[0] <= INDEX_MASK && rest[1] <= 1
    }

    /// Restores registers, index and flip-flop from the bytes of an attribute controller.
    #[tactic(auto, unfolding(crate::specs::Saved::attr_from))]
    pub fn restore(&mut self, bytes: &[u8])
        requires { IsSavedAttr bytes.now }
        ensures { self.new ≡ attr_from bytes.now }
    {
        let (registers, rest) = bytes.split_at(MASKS.len());
        self.registers.restore(registers);
        self.numbers = colour_numbers_of(&self.registers);
        self.index = rest[0];
        self.is_data = rest[1] == 1;
    }

    /// A saved attribute controller is restored in full. The clauses are for proofs: nothing runs.
    #[tactic(auto, using(crate::proofs::SavedLemmas::attr_is_back))]
    pub fn restore_gives_what_was_saved(&self)
        ensures saved { IsSavedAttr (saved_attr self.now) }
        ensures back { attr_from (saved_attr self.now) ≡ self.now }
    {
        let _ = &self.index;
        self.bounds();
    }
}
