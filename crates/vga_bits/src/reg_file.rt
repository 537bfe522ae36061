//! A group of registers, each of which keeps the bits of its mask.
ghost use Rattle.std.specs.Prelude.{◌≡◌, ◌<◌, ◌≤◌, length, slice_index, slice_set, replicate};
ghost use Rattle.std.specs.Prelude.{bit_and};
ghost use Rattle.vga_bits.specs.Bits.{is_set as is_set_of, field as field_of};

use super::bits::is_set;
use std::marker::Model;

/// N registers of one byte each. A register keeps the bits of its mask; the others read as 0.
///
/// Contracts see a record of two lists: `masks`, and `values`, what each register holds.
#[derive(Drop)]
pub struct RegFile<const N: usize> {
    masks: [u8; N],
    values: [u8; N],
}

impl<const N: usize> Model for RegFile<N> {
    ghost use Rattle.vga_bits.specs.RegFile.{Registers, AreWithinMasks};

    ghost Value = { Registers };

    ghost view = { λ r. record { masks = r.masks; values = r.values } };

    ghost invariant = { λ r. AreWithinMasks r.masks r.values };
}

impl<const N: usize> RegFile<N> {
    ghost use Rattle.vga_bits.specs.RegFile.{AreWithinMasks};

    /// All registers 0, under these masks.
    #[tactic(auto, using(crate::proofs::RegisterLemmas::kept_zeros))]
    pub fn new(masks: [u8; N]) -> RegFile<N>
        ensures masks { result.masks ≡ masks.entry }
        ensures zeros { result.values ≡ replicate N 0 }
    {
        RegFile {
            masks,
            values: [0; N],
        }
    }

    /// What register `i` holds; `i` is below N.
    pub fn read(&self, i: usize) -> u8
        requires { i < N }
        ensures { result ≡ slice_index self.now.values i }
    {
        self.values[i]
    }

    /// What each register holds, from register 0.
    pub fn values(&self) -> &[u8; N]
        ensures { result.now ≡ self.now.values }
    {
        &self.values
    }

    /// Writes `v` to register `i`, below N. The register keeps the bits of its mask. The other
    /// registers stay the same.
    #[tactic(auto, using(crate::proofs::RegisterLemmas::kept_set))]
    pub fn write(&mut self, i: usize, v: u8)
        requires { i < N }
        ensures masks { self.new.masks ≡ self.old.masks }
        ensures values { self.new.values ≡ slice_set self.old.values i
            (bit_and v (slice_index self.old.masks i)) }
    {
        let register = &mut self.values[i];
        *register = v & self.masks[i];
    }

    /// Sets each register to its byte of the list. The bytes have no bits outside the masks.
    pub fn restore(&mut self, values: &[u8])
        requires count { length values.now ≡ N }
        requires kept { AreWithinMasks self.old.masks values.now }
        ensures masks { self.new.masks ≡ self.old.masks }
        ensures values { self.new.values ≡ values.now }
    {
        self.values.copy_from_slice(values);
    }

    /// There are N registers, and each holds only bits of its mask, whatever was written. The
    /// clauses are for proofs: nothing runs.
    pub fn bounds(&self)
        ensures count { length self.now.values ≡ N }
        ensures kept { AreWithinMasks self.now.masks self.now.values }
    {
        let _ = &self.values;
    }

    /// Whether bit `b`, 0 to 7, of register `i` is 1.
    pub fn bit(&self, i: usize, b: u32) -> bool
        requires register { i < N }
        requires place { b < 8 }
        ensures { result ≡ is_set_of (slice_index self.now.values i) b }
    {
        is_set(self.read(i), b)
    }

    /// Bits `hi` to `lo` of register `i` as a number, where `lo` is at most `hi` and `hi` at most
    /// 7.
    #[tactic(auto, using(crate::proofs::BitLemmas::field_mask))]
    pub fn field(&self, i: usize, hi: u32, lo: u32) -> u8
        requires register { i < N }
        requires high { hi < 8 }
        requires low { lo ≤ hi }
        ensures { result ≡ field_of (slice_index self.now.values i) hi lo }
    {
        let shifted = self.read(i) >> lo;
        let kept = 7 - (hi - lo);
        shifted & (0xFF >> kept)
    }
}
