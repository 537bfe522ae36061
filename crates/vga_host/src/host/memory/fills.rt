//! Fills that store whole words of the planes. This file serves speed alone: one, two or four
//! writes of two bytes in turn may amount to storing one word.
ghost use Rattle.std.specs.Prelude.{◌≡◌, ◌<◌, ◌≤◌, ◌+◌, ◌-◌, ◌^◌, true};
ghost use Rattle.vga_bits.specs.Bits.{is_set};
ghost use Rattle.vga_bits.specs.Four.{four_by_plane};
ghost use Rattle.vga_host.specs.Memory.Write.{written_byte};
ghost use Rattle.vga_host.specs.Memory.Runs.{after_puts, even_or_odd_byte, with_memory};
ghost use Rattle.vga_host.specs.Memory.Access.{IsAccess};
ghost use Rattle.vga_host.specs.Memory.PlaneWords.{alternating_plane_bytes, with_word_stored};
ghost use Rattle.vga_host.specs.Memory.PlaneWords.{word_of_writes_in_turn, AreWritesDecoded};
ghost use Rattle.vga_host.specs.Memory.PlaneWords.{AddressPicksNoPlane, FillsByFours, FillsByPairs};
ghost use Rattle.vga_host.specs.Memory.PlaneWords.{WritesStoreWords};

use super::access::MemoryAccess;
use crate::host::Host;
use vga_planes::{Latch, PlaneSet};

/// The bytes of two words in turn: planes 0 and 2 of `even`, and planes 1 and 3 of `odd`.
fn alternating_latch(even: Latch, odd: Latch) -> Latch
    ensures { result ≡ alternating_plane_bytes even odd }
{
    Latch::new([even.byte(0), odd.byte(1), even.byte(2), odd.byte(3)])
}

impl Host {
    /// Whether all addresses of n writes are decoded.
    pub(super) fn are_writes_decoded(
        &self,
        access: MemoryAccess,
        first: u32,
        n: u32,
        misc: u8,
    ) -> bool
        requires access { IsAccess access self.now }
        requires small { access.start + access.len < 2 ^ 32 }
        requires few { first + n < 2 ^ 32 }
        ensures start { result ≡ true → access.start ≤ first }
        ensures within { result ≡ true → AreWritesDecoded self.now misc first n
            (first - access.start) }
    {
        access.covers(first, n, misc)
    }

    /// Whether no bit of an address picks a plane, so that each write goes to all planes of the map
    /// mask.
    pub(super) fn address_picks_no_plane(&self, access: MemoryAccess) -> bool
        requires { IsAccess access self.now }
        ensures { result ≡ true → AddressPicksNoPlane self.now }
    {
        access.odd_even_off && !access.chain_four && !access.chain_odd_even
    }

    /// Whether the two low bits of an address pick the plane, and the offset in the window is a
    /// multiple of four.
    pub(super) fn fills_by_fours(&self, access: MemoryAccess, in_window: u32) -> bool
        requires { IsAccess access self.now }
        ensures { result ≡ true → FillsByFours self.now in_window }
    {
        access.chain_four && in_window % 4 == 0
    }

    /// Whether the lowest bit of an address picks planes, and the offset in the window is even.
    pub(super) fn fills_by_pairs(&self, access: MemoryAccess, in_window: u32) -> bool
        requires { IsAccess access self.now }
        ensures { result ≡ true → FillsByPairs self.now in_window }
    {
        access.chain_odd_even && !access.odd_even_off && !access.chain_four && in_window % 2 == 0
    }

    /// How many writes amount to storing a word: 1, 2 or 4, or 0 if no number is known to.
    fn writes_for_a_word(
        &self,
        access: MemoryAccess,
        first: u32,
        n: u32,
        even: u8,
        odd: u8,
        misc: u8,
    ) -> u32
        requires access { IsAccess access self.now }
        requires start { access.start ≤ first }
        requires within { AreWritesDecoded self.now misc first n (first - access.start) }
        ensures { 0 < result → WritesStoreWords result self.now misc first n (first - access.start)
            (even_or_odd_byte even odd) (λ i. word_of_writes_in_turn self.now even odd) }
    {
        let in_window = first - access.start;
        if even == odd && self.address_picks_no_plane(access) {
            1
        } else if self.fills_by_fours(access, in_window) {
            4
        } else if self.fills_by_pairs(access, in_window) {
            2
        } else {
            0
        }
    }

    /// Stores a word at an offset, in the planes of a set.
    pub(super) fn put_word(&mut self, at: u16, word: Latch, set: PlaneSet)
        ensures { self.new ≡ with_word_stored self.old (is_set set) at word }
    {
        self.planes.store(at, word, set);
    }

    /// Stores a word once for each whole group of `per` writes among n writes. It returns how many
    /// writes that covers.
    fn store_words(
        &mut self,
        access: MemoryAccess,
        per: u32,
        word: Latch,
        first: u32,
        n: u32,
        even: u8,
        odd: u8,
        misc: u8,
    ) -> u32
        requires access { IsAccess access self.old }
        requires start { access.start ≤ first }
        requires few { first + n < 2 ^ 32 }
        requires words { WritesStoreWords per self.old misc first n (first - access.start)
            (even_or_odd_byte even odd) (λ i. word) }
        ensures few { result ≤ n }
        ensures kept { with_memory self.old self.new.memory ≡ self.new }
        ensures put { self.new ≡ after_puts misc first (even_or_odd_byte even odd) result 0
            self.old }
    {
        let start = first - access.start;
        let mut done = 0;
        while n - done >= per {
            let in_window = ((start + done) % 65_536) as u16;
            self.put_word(in_window, word, access.map_mask);
            done += per;
        }
        done
    }

    /// Stores whole words where the first of n writes of two bytes in turn amount to that. It
    /// returns how many writes that covers. `bytes` and `others` are what writes of the even and of
    /// the odd byte store.
    pub(super) fn fill_words(
        &mut self,
        access: MemoryAccess,
        bytes: Latch,
        others: Latch,
        first: u32,
        n: u32,
        even: u8,
        odd: u8,
        misc: u8,
    ) -> u32
        requires access { IsAccess access self.old }
        requires small { access.start + access.len < 2 ^ 32 }
        requires bytes { bytes ≡ four_by_plane (λ p. written_byte self.old even p) }
        requires others { others ≡ four_by_plane (λ p. written_byte self.old odd p) }
        requires few { first + n < 2 ^ 32 }
        ensures few { result ≤ n }
        ensures kept { with_memory self.old self.new.memory ≡ self.new }
        ensures put { self.new ≡ after_puts misc first (even_or_odd_byte even odd) result 0
            self.old }
    {
        if !self.are_writes_decoded(access, first, n, misc) {
            return 0;
        }
        let per = self.writes_for_a_word(access, first, n, even, odd, misc);
        if per == 0 {
            return 0;
        }
        let word = alternating_latch(bytes, others);
        self.store_words(access, per, word, first, n, even, odd, misc)
    }
}
