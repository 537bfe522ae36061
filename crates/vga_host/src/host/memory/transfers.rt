//! Writes of the caller's bytes to a run of addresses, and reads of a run into the caller's bytes.
//! This file serves speed alone. Where writes store bytes unchanged, whole words of the planes are
//! stored at once.
ghost use Rattle.std.specs.Prelude.{◌≡◌, ◌<◌, ◌≤◌, ◌⊎◌, ◌+◌, ◌-◌, ◌*◌, ◌/◌, ◌%◌, ◌^◌, ℕ};
ghost use Rattle.std.specs.Prelude.{length};
ghost use Rattle.std.specs.Prelude.{slice_index, false};
ghost use Rattle.vga_host.specs.Graphics.{is_read_compare};
ghost use Rattle.vga_host.specs.Memory.Read.{picked_plane};
ghost use Rattle.vga_host.specs.Memory.Address.{plane_offset};
ghost use Rattle.vga_host.specs.Memory.Access.{IsAccess};
ghost use Rattle.vga_host.specs.Memory.Runs.{after_puts, after_gets, byte_read_or_ff, with_memory};
ghost use Rattle.vga_host.specs.Memory.PlaneWords.{word_of_byte_group as word_of_byte_group_of};
ghost use Rattle.vga_host.specs.Memory.PlaneWords.{AreWritesDecoded, WritesStoreWords};

use super::access::MemoryAccess;
use crate::host::Host;
use vga_planes::Latch;

/// The bytes from index i on as a word: four of them, two that each go to two planes, or one that
/// goes to all four.
#[inline(always)]
fn word_of_byte_group(per: u32, bytes: &[u8], i: usize) -> Latch
    requires per { (per ≡ 1) ⊎ ((per ≡ 2) ⊎ (per ≡ 4)) }
    requires room { i + per ≤ length bytes.now }
    ensures { result ≡ word_of_byte_group_of per (slice_index bytes.now) i }
{
    match per {
        4 => Latch::new([bytes[i], bytes[i + 1], bytes[i + 2], bytes[i + 3]]),
        2 => Latch::new([bytes[i], bytes[i + 1], bytes[i], bytes[i + 1]]),
        _ => Latch::new([bytes[i], bytes[i], bytes[i], bytes[i]]),
    }
}

impl Host {
    /// How many of these bytes make a word of the planes when they are written: 1, 2 or 4, or 0 if
    /// no number is known to. Writes must store bytes unchanged and begin at a word's first offset.
    fn bytes_for_a_word(&self, access: MemoryAccess, first: u32, bytes: &[u8], misc: u8) -> u32
        requires access { IsAccess access self.now }
        requires start { access.start ≤ first }
        requires within { AreWritesDecoded self.now misc first (length bytes.now)
            (first - access.start) }
        ensures known { 0 < result → (result ≡ 1) ⊎ ((result ≡ 2) ⊎ (result ≡ 4)) }
        ensures words { 0 < result → WritesStoreWords result self.now misc first (length bytes.now)
            (first - access.start) (slice_index bytes.now)
            (word_of_byte_group_of result (slice_index bytes.now)) }
    {
        let in_window = first - access.start;
        if !access.stores_byte {
            0
        } else if self.address_picks_no_plane(access) {
            1
        } else if self.fills_by_fours(access, in_window) {
            4
        } else if self.fills_by_pairs(access, in_window) {
            2
        } else {
            0
        }
    }

    /// Stores one word for each whole group of `per` bytes. It returns how many bytes that covers.
    #[inline(always)]
    fn store_byte_groups(
        &mut self,
        access: MemoryAccess,
        per: u32,
        first: u32,
        bytes: &[u8],
        misc: u8,
    ) -> u32
        requires access { IsAccess access self.old }
        requires start { access.start ≤ first }
        requires few { first + length bytes.now < 2 ^ 32 }
        requires per { (per ≡ 1) ⊎ ((per ≡ 2) ⊎ (per ≡ 4)) }
        requires words { WritesStoreWords per self.old misc first (length bytes.now)
            (first - access.start)
            (slice_index bytes.now) (word_of_byte_group_of per (slice_index bytes.now)) }
        ensures few { result ≤ length bytes.now }
        ensures kept { with_memory self.old self.new.memory ≡ self.new }
        ensures put { self.new ≡ after_puts misc first (slice_index bytes.now) result 0 self.old }
    {
        let start = first - access.start;
        let n = bytes.len() as u32;
        let mut done = 0;
        while n - done >= per {
            let in_window = ((start + done) % 65_536) as u16;
            self.put_word(
                in_window,
                word_of_byte_group(per, bytes, done as usize),
                access.map_mask,
            );
            done += per;
        }
        done
    }

    /// Stores whole words where writes of the first of these bytes amount to that. It returns how
    /// many bytes that covers.
    #[inline(never)]
    fn store_whole_words(&mut self, access: MemoryAccess, first: u32, bytes: &[u8], misc: u8) -> u32
        requires access { IsAccess access self.old }
        requires small { access.start + access.len < 2 ^ 32 }
        requires few { first + length bytes.now < 2 ^ 32 }
        ensures few { result ≤ length bytes.now }
        ensures kept { with_memory self.old self.new.memory ≡ self.new }
        ensures put { self.new ≡ after_puts misc first (slice_index bytes.now) result 0 self.old }
    {
        if !self.are_writes_decoded(access, first, bytes.len() as u32, misc) {
            return 0;
        }
        // Each number of bytes has a loop of its own.
        match self.bytes_for_a_word(access, first, bytes, misc) {
            1 => self.store_byte_groups(access, 1, first, bytes, misc),
            2 => self.store_byte_groups(access, 2, first, bytes, misc),
            4 => self.store_byte_groups(access, 4, first, bytes, misc),
            _ => 0,
        }
    }

    /// Writes bytes to the addresses from the first on, in ascending order. A write to an address
    /// that is not decoded does nothing. `misc` is the miscellaneous output register.
    pub fn put_slice(&mut self, first: u32, bytes: &[u8], misc: u8)
        requires { first + length bytes.now < 2 ^ 32 }
        ensures { self.new ≡ after_puts misc first (slice_index bytes.now) (length bytes.now) 0
            self.old }
    {
        let access = self.access();
        let n = bytes.len() as u32;
        let done = self.store_whole_words(access, first, bytes, misc);
        for i in done..n {
            let word = self.written_bytes_by_shortcut(access.stores_byte, bytes[i as usize]);
            self.store_bytes_if_decoded(access, word, first + i, misc);
        }
    }

    /// Reads a run of addresses that are all decoded. For offset `w` in the window, a read picks
    /// plane `base + w % span`, at `w` rounded down to a multiple of `unit`.
    #[inline(always)]
    fn read_range_of_planes(
        &self,
        access: MemoryAccess,
        base: usize,
        span: u16,
        unit: u16,
        first: u32,
        bytes: &mut [u8],
        misc: u8,
    )
        requires access { IsAccess access self.now }
        requires start { access.start ≤ first }
        requires few { first + length bytes.old < 2 ^ 32 }
        requires within { AreWritesDecoded self.now misc first (length bytes.old)
            (first - access.start) }
        requires byte { is_read_compare self.now ≡ false }
        requires span { 0 < span }
        requires below { base + span ≤ 4 }
        requires picked { (w : ℕ) → base + w % span ≡ picked_plane self.now w }
        requires unit { 0 < unit }
        requires offset { (w : ℕ) → w / unit * unit ≡ plane_offset self.now w }
        ensures bytes { (i : ℕ) → i < length bytes.old →
            slice_index bytes.new i ≡ byte_read_or_ff self.now misc (first + i) }
        ensures size { length bytes.new ≡ length bytes.old }
    {
        let start = first - access.start;
        for i in 0..bytes.len() {
            let in_window = ((start + i as u32) % 65_536) as u16;
            let plane = base + (in_window % span) as usize;
            bytes[i] = self.planes().byte(plane, in_window / unit * unit);
        }
    }

    /// Reads addresses that are all decoded, in read mode 0. Each way to pick a plane and an offset
    /// has a loop of its own.
    #[inline(never)]
    fn read_decoded_range(&self, access: MemoryAccess, first: u32, bytes: &mut [u8], misc: u8)
        requires access { IsAccess access self.now }
        requires start { access.start ≤ first }
        requires few { first + length bytes.old < 2 ^ 32 }
        requires within { AreWritesDecoded self.now misc first (length bytes.old)
            (first - access.start) }
        requires byte { is_read_compare self.now ≡ false }
        ensures bytes { (i : ℕ) → i < length bytes.old →
            slice_index bytes.new i ≡ byte_read_or_ff self.now misc (first + i) }
        ensures size { length bytes.new ≡ length bytes.old }
    {
        if self.is_chain_four() {
            self.read_range_of_planes(access, 0, 4, 4, first, bytes, misc);
            return;
        }
        let pair = 2 * self.read_map_pair() as usize;
        let plane = self.read_map_select() as usize;
        match (self.is_odd_even_read(), access.chain_odd_even) {
            (true, true) => self.read_range_of_planes(access, pair, 2, 2, first, bytes, misc),
            (true, false) => self.read_range_of_planes(access, pair, 2, 1, first, bytes, misc),
            (false, true) => self.read_range_of_planes(access, plane, 1, 2, first, bytes, misc),
            (false, false) => self.read_range_of_planes(access, plane, 1, 1, first, bytes, misc),
        }
    }

    /// Reads the addresses from the first on, one after another.
    fn read_one_by_one(&mut self, access: MemoryAccess, first: u32, bytes: &mut [u8], misc: u8)
        requires access { IsAccess access self.old }
        requires small { access.start + access.len < 2 ^ 32 }
        requires few { first + length bytes.old < 2 ^ 32 }
        ensures latches { self.new ≡ after_gets misc first (length bytes.old) 0 self.old }
        ensures bytes { (i : ℕ) → i < length bytes.old →
            slice_index bytes.new i ≡ byte_read_or_ff self.old misc (first + i) }
        ensures size { length bytes.new ≡ length bytes.old }
    {
        for i in 0..bytes.len() {
            let address = first + i as u32;
            bytes[i] = self.byte_at_address_or_ff(access, address, misc);
            self.load_latches_if_decoded(access, address, misc);
        }
    }

    /// Reads the addresses from the first on, in ascending order, into the caller's bytes. A read
    /// of an address that is not decoded gives FF and loads no latch. `misc` is the miscellaneous
    /// output register.
    pub fn get_slice(&mut self, first: u32, bytes: &mut [u8], misc: u8)
        requires { first + length bytes.old < 2 ^ 32 }
        ensures latches { self.new ≡ after_gets misc first (length bytes.old) 0 self.old }
        ensures bytes { (i : ℕ) → i < length bytes.old →
            slice_index bytes.new i ≡ byte_read_or_ff self.old misc (first + i) }
        ensures size { length bytes.new ≡ length bytes.old }
    {
        let access = self.access();
        let n = bytes.len() as u32;
        if n == 0 || self.is_read_compare() || !self.are_writes_decoded(access, first, n, misc) {
            self.read_one_by_one(access, first, bytes, misc);
            return;
        }
        self.read_decoded_range(access, first, bytes, misc);
        // The latches are those of the last read.
        self.load_latches_if_decoded(access, first + (n - 1), misc);
    }
}
