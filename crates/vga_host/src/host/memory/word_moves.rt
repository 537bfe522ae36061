//! Moves of whole words of the planes. This file serves speed alone: one, two or four moves may
//! amount to copying one word.
ghost use Rattle.std.specs.Prelude.{◌≡◌, ◌<◌, ◌≤◌, ◌+◌, ◌-◌, ◌^◌, ℕ, true, false};
ghost use Rattle.vga_bits.specs.Bits.{is_set as is_set_of};
ghost use Rattle.vga_planes.specs.Planes.{byte_at};
ghost use Rattle.vga_host.specs.Sequencer.{is_in_map_mask};
ghost use Rattle.vga_host.specs.Memory.Runs.{after_moves};
ghost use Rattle.vga_host.specs.Memory.Access.{IsAccess};
ghost use Rattle.vga_host.specs.Memory.PlaneWords.{with_word_copied, AreMovesDecoded};
ghost use Rattle.vga_host.specs.Memory.PlaneWords.{ReadsPlanePairs, WritesPlanePairs};
ghost use Rattle.vga_host.specs.Memory.PlaneWords.{MovesCopyLatches, MovesCopyByPairs};
ghost use Rattle.vga_host.specs.Memory.PlaneWords.{MovesCopyByFours, MovesCopyWords};

use super::access::MemoryAccess;
use crate::host::Host;
use vga_bits::is_set;
use vga_planes::PlaneSet;

/// The map mask that contains all planes.
const ALL_PLANES: PlaneSet = 0b1111;

impl Host {
    /// Whether all addresses of n moves are decoded.
    fn are_moves_decoded(&self, access: MemoryAccess, from: u32, to: u32, n: u32, misc: u8) -> bool
        requires access { IsAccess access self.now }
        requires small { access.start + access.len < 2 ^ 32 }
        requires from { from + n < 2 ^ 32 }
        requires to { to + n < 2 ^ 32 }
        ensures starts { result ≡ true → (access.start ≤ from) × (access.start ≤ to) }
        ensures within { result ≡ true → AreMovesDecoded self.now misc from to n
            (from - access.start)
            (to - access.start) }
    {
        access.covers(from, n, misc) && access.covers(to, n, misc)
    }

    /// Whether moves store the latches, and no bit of an address picks a plane.
    fn moves_copy_latches(&self, access: MemoryAccess) -> bool
        requires { IsAccess access self.now }
        ensures { result ≡ true → MovesCopyLatches self.now }
    {
        access.stores_latches && access.odd_even_off && !access.chain_four && !access.chain_odd_even
    }

    /// Whether moves store bytes unchanged, the two low bits of an address pick the plane, and both
    /// offsets in the window are multiples of four.
    fn moves_copy_by_fours(&self, access: MemoryAccess, first: u32, target: u32) -> bool
        requires { IsAccess access self.now }
        ensures { result ≡ true → MovesCopyByFours self.now first target }
    {
        access.stores_byte
            && access.chain_four
            && !self.is_read_compare()
            && first % 4 == 0
            && target % 4 == 0
    }

    /// Whether a read picks plane 0 or 1 by the lowest bit of an address.
    fn reads_plane_pairs(&self) -> bool
        ensures { result ≡ true → ReadsPlanePairs self.now }
    {
        self.is_odd_even_read() && self.read_map_pair() == 0 && !self.is_read_compare()
    }

    /// Whether the map mask contains a plane.
    fn is_in_mask(&self, access: MemoryAccess, plane: u32) -> bool
        requires access { IsAccess access self.now }
        requires plane { plane < 4 }
        ensures { result ≡ is_in_map_mask self.now plane }
    {
        is_set(access.map_mask, plane)
    }

    /// Whether the map mask contains neither plane 2 nor plane 3.
    fn map_mask_lacks_upper_planes(&self, access: MemoryAccess) -> bool
        requires { IsAccess access self.now }
        ensures { result ≡ true → (is_in_map_mask self.now 2 ≡ false)
            × (is_in_map_mask self.now 3 ≡ false) }
    {
        !self.is_in_mask(access, 2) && !self.is_in_mask(access, 3)
    }

    /// Whether writes store bytes unchanged, the lowest bit of an address picks plane 0 or 1, and
    /// no other plane is written.
    fn writes_plane_pairs(&self, access: MemoryAccess) -> bool
        requires { IsAccess access self.now }
        ensures { result ≡ true → WritesPlanePairs self.now }
    {
        access.stores_byte
            && access.chain_odd_even
            && !access.odd_even_off
            && !access.chain_four
            && self.map_mask_lacks_upper_planes(access)
    }

    /// Whether moves store bytes unchanged, read and write only planes 0 and 1, and go from an even
    /// offset in the window to an even one.
    fn moves_copy_by_pairs(&self, access: MemoryAccess, first: u32, target: u32) -> bool
        requires { IsAccess access self.now }
        ensures { result ≡ true → MovesCopyByPairs self.now first target }
    {
        self.writes_plane_pairs(access)
            && self.reads_plane_pairs()
            && first % 2 == 0
            && target % 2 == 0
    }

    /// How many moves amount to copying a word: 1, 2 or 4, or 0 if no number is known to.
    fn moves_for_a_word(&self, access: MemoryAccess, from: u32, to: u32, n: u32, misc: u8) -> u32
        requires access { IsAccess access self.now }
        requires starts { (access.start ≤ from) × (access.start ≤ to) }
        requires within { AreMovesDecoded self.now misc from to n (from - access.start)
            (to - access.start) }
        ensures { 0 < result → MovesCopyWords result self.now misc from to n (from - access.start)
            (to - access.start) }
    {
        let first = from - access.start;
        let target = to - access.start;
        if self.moves_copy_latches(access) {
            1
        } else if self.moves_copy_by_fours(access, first, target) {
            4
        } else if self.moves_copy_by_pairs(access, first, target) {
            2
        } else {
            0
        }
    }

    /// Loads the latches with the word at an offset, and copies it to another, in the planes of a
    /// set.
    fn move_word(&mut self, from: u16, to: u16, set: PlaneSet)
        ensures moved { self.new ≡ with_word_copied self.old (is_set_of set) from to }
        ensures bytes { (p : ℕ) → p < 4 → byte_at self.old.memory p from < 256 }
    {
        self.planes.bounds();
        let bytes = self.planes.load(from);
        self.latch = bytes;
        self.planes.store(to, bytes, set);
    }

    /// Copies one word for each whole group of `per` moves among n moves. It returns how many moves
    /// that covers.
    #[inline(always)]
    fn copy_words(
        &mut self,
        access: MemoryAccess,
        per: u32,
        set: PlaneSet,
        from: u32,
        to: u32,
        n: u32,
        misc: u8,
    ) -> u32
        requires access { IsAccess access self.old }
        requires set { set ≡ access.map_mask }
        requires starts { (access.start ≤ from) × (access.start ≤ to) }
        requires from { from + n < 2 ^ 32 }
        requires to { to + n < 2 ^ 32 }
        requires words { MovesCopyWords per self.old misc from to n (from - access.start)
            (to - access.start) }
        ensures few { result ≤ n }
        ensures access { IsAccess access self.new }
        ensures moved { self.new ≡ after_moves misc from to result 0 self.old }
    {
        let first = from - access.start;
        let target = to - access.start;
        let mut done = 0;
        while n - done >= per {
            let in_window = ((first + done) % 65_536) as u16;
            let other = ((target + done) % 65_536) as u16;
            self.move_word(in_window, other, set);
            done += per;
        }
        done
    }

    /// Copies whole words where the first of n moves amount to that. It returns how many moves that
    /// covers.
    #[inline(never)]
    pub(super) fn move_words(
        &mut self,
        access: MemoryAccess,
        from: u32,
        to: u32,
        n: u32,
        misc: u8,
    ) -> u32
        requires access { IsAccess access self.old }
        requires small { access.start + access.len < 2 ^ 32 }
        requires from { from + n < 2 ^ 32 }
        requires to { to + n < 2 ^ 32 }
        ensures few { result ≤ n }
        ensures access { IsAccess access self.new }
        ensures moved { self.new ≡ after_moves misc from to result 0 self.old }
    {
        if !self.are_moves_decoded(access, from, to, n, misc) {
            return 0;
        }
        let per = self.moves_for_a_word(access, from, to, n, misc);
        if per == 0 {
            return 0;
        }
        // With all planes in the mask, a store need not look at the old word. A loop of its own
        // lets the compiler see that.
        if per == 1 && access.map_mask == ALL_PLANES {
            self.copy_words(access, 1, ALL_PLANES, from, to, n, misc)
        } else {
            self.copy_words(access, per, access.map_mask, from, to, n, misc)
        }
    }
}
