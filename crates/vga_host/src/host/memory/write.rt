//! A write of a byte to display memory.
ghost use Rattle.std.specs.Prelude.{◌≡◌, ◌<◌, ◌↔◌, ℕ, if◌then◌else◌, IsTrue, OnOk, IfErr, IsOk};
ghost use Rattle.std.specs.Prelude.{true, false, ◌+◌};
ghost use Rattle.std.specs.Int.{bit_at};
ghost use Rattle.vga_bits.specs.Four.{four_by_plane};
ghost use Rattle.vga_host.specs.Memory.Access.{IsAccess};
ghost use Rattle.vga_host.specs.Memory.Address.{is_decoded, window_offset, plane_offset, is_reached};
ghost use Rattle.vga_host.specs.OffsetRun.{is_in_run};
ghost use Rattle.vga_host.specs.Graphics.{bit_mask, set_reset, is_set_reset_enabled, write_mode, is_graphics};
ghost use Rattle.vga_bits.specs.Words.{plane_bit_in_word};
ghost use Rattle.vga_host.specs.Memory.Write.{rotated_write_bit, data_bit_of_write, mask_bit};
ghost use Rattle.vga_host.specs.Memory.Write.{combined_bit};
ghost use Rattle.vga_host.specs.Memory.Write.{written_bit, written_byte, after_put, StoresByteUnchanged};

use super::access::MemoryAccess;
use crate::bytes::{combined, rotated_right};
use crate::host::Host;
use crate::offset_run::OffsetRun;
use vga_bits::Refusal;
use vga_planes::Latch;
use vga_planes::plane_words::{byte_in_all_planes, mask_of_planes, merged_by_mask};

impl Host {
    /// The rotated byte of a write.
    pub(super) fn rotated(&self, v: u8) -> u8
        ensures { (i : ℕ) → i < 8 → bit_at result i ≡ rotated_write_bit self.now v i }
    {
        rotated_right(v, self.rotate_count())
    }

    /// The data of the four planes in write mode 0, before the function and the mask.
    fn data_in_mode_0(&self, v: u8) -> u32
        ensures { (p i : ℕ) → p < 4 → i < 8 → plane_bit_in_word result p i
            ≡ (if is_set_reset_enabled self.now p then set_reset self.now p
            else rotated_write_bit self.now v i) }
    {
        let fill = mask_of_planes(self.set_reset());
        let enabled = mask_of_planes(self.set_reset_enabled());
        let bytes = byte_in_all_planes(self.rotated(v));
        merged_by_mask(fill, enabled, bytes)
    }

    /// The data of the four planes in the write modes 0, 2 and 3, before the function and the mask.
    pub(super) fn data(&self, v: u8) -> u32
        ensures { (p i : ℕ) → p < 4 → i < 8 → plane_bit_in_word result p i ≡ data_bit_of_write
            self.now v p i }
    {
        match self.write_mode() {
            0 => self.data_in_mode_0(v),
            2 => mask_of_planes(v),
            _ => mask_of_planes(self.set_reset()),
        }
    }

    /// The mask of a write in the write modes 0, 2 and 3. Each plane has the same mask.
    #[tactic(auto, using(std::proofs::lemmas::Nat::Bits::bit_at_and))]
    pub(super) fn effective_bit_mask(&self, v: u8) -> u8
        ensures { (i : ℕ) → i < 8 → bit_at result i ≡ mask_bit self.now v i }
    {
        if self.write_mode() == 3 {
            self.bit_mask() & self.rotated(v)
        } else {
            self.bit_mask()
        }
    }

    /// The mask of a write of `v` in the write modes 0, 2 and 3, in the bytes of all four planes.
    /// Where it is 0, the latch bit is stored.
    fn mask(&self, v: u8) -> u32
        ensures { (p i : ℕ) → p < 4 → i < 8 → plane_bit_in_word result p i ≡ mask_bit self.now v i }
    {
        byte_in_all_planes(self.effective_bit_mask(v))
    }

    /// The data of the four planes, combined with their latches by the function.
    #[tactic(auto, unfolding(crate::specs::Memory::Write::combined_bit))]
    pub(super) fn combined(&self, v: u8) -> u32
        ensures { (p i : ℕ) → p < 4 → i < 8 → plane_bit_in_word result p i ≡ combined_bit self.now v
            p i }
    {
        let data = self.data(v);
        let latch = self.latch.word();
        combined(self.function_select(), data, latch)
    }

    /// The word that a write stores in the planes that it reaches. The contract says it bit by bit.
    #[tactic(auto, unfolding(crate::specs::Memory::Write::written_bit))]
    fn written_word(&self, v: u8) -> u32
        ensures { (p i : ℕ) → p < 4 → i < 8 → plane_bit_in_word result p i ≡ written_bit self.now v
            p i }
    {
        let latch = self.latch.word();
        if self.write_mode() == 1 {
            latch
        } else {
            let source = self.combined(v);
            let mask = self.mask(v);
            merged_by_mask(source, mask, latch)
        }
    }

    /// The bytes that a write stores in the planes that it reaches, where it stores its byte
    /// unchanged.
    fn unchanged_bytes(&self, v: u8) -> Latch
        requires { StoresByteUnchanged self.now }
        ensures { result ≡ four_by_plane (λ p. written_byte self.now v p) }
    {
        Latch::from_word(byte_in_all_planes(v))
    }

    /// The bytes that a write stores in the planes that it reaches. `stores_byte` serves speed
    /// alone: it may always be false.
    pub(super) fn written_bytes_by_shortcut(&self, stores_byte: bool, v: u8) -> Latch
        requires { stores_byte ≡ true → StoresByteUnchanged self.now }
        ensures { result ≡ four_by_plane (λ p. written_byte self.now v p) }
    {
        if stores_byte {
            return self.unchanged_bytes(v);
        }
        let word = self.written_word(v);
        Latch::from_word(word)
    }

    /// The bytes that a write stores in write mode 1, in the planes that it reaches: the latches,
    /// whatever byte is written.
    pub(super) fn stored_latches(&self) -> Latch
        requires { write_mode self.now ≡ 1 }
        ensures { (v : ℕ) → result ≡ four_by_plane (λ p. written_byte self.now v p) }
    {
        let word = self.latch.word();
        Latch::from_word(word)
    }

    /// The bytes that a write stores in the planes that it reaches.
    pub(super) fn written(&self, v: u8) -> Latch
        ensures { result ≡ four_by_plane (λ p. written_byte self.now v p) }
    {
        self.written_bytes_by_shortcut(self.access().stores_byte, v)
    }

    /// Stores the bytes of a write in the planes that it reaches at an offset in the window. What
    /// the registers say of every cycle stays the same.
    #[inline(always)]
    fn store_in_window(&mut self, access: MemoryAccess, in_window: u16, bytes: Latch)
        requires { IsAccess access self.old }
        ensures put { (misc address v : ℕ) → IsTrue (is_decoded self.old misc address)
            → in_window ≡ window_offset self.old address
            → bytes ≡ four_by_plane (λ p. written_byte self.old v p)
            → self.new ≡ after_put self.old address v }
        ensures access { IsAccess access self.new }
    {
        let set = access.reached(in_window);
        let offset = access.offset(in_window);
        self.planes.store(offset, bytes, set);
    }

    /// Stores the bytes of two writes in turn, each in the planes that it reaches at its offset in
    /// the window.
    #[inline(always)]
    fn store_word_in_window(
        &mut self,
        access: MemoryAccess,
        first: u16,
        low: Latch,
        second: u16,
        high: Latch,
    )
        requires { IsAccess access self.old }
        ensures { (misc address v w : ℕ) → IsTrue (is_decoded self.old misc address)
            → IsTrue (is_decoded self.old misc (address + 1))
            → first ≡ window_offset self.old address
            → second ≡ window_offset self.old (address + 1)
            → low ≡ four_by_plane (λ p. written_byte self.old v p)
            → high ≡ four_by_plane (λ p. written_byte self.old w p)
            → self.new ≡ after_put (after_put self.old address v) (address + 1) w }
    {
        self.planes.store_in_turn(
            access.offset(first),
            low,
            access.reached(first),
            access.offset(second),
            high,
            access.reached(second),
        );
    }

    /// Writes a byte to an address of display memory. If the address is not decoded, the write is
    /// refused with `NotDecoded` and changes nothing. `misc` is the miscellaneous output register.
    ///
    /// To follow a write, read this file and two more. `access.rt` has what the registers say of an
    /// address: its offset in the window, its offset in a plane, and the planes that a write
    /// reaches. `store` of `vga_planes` keeps the bytes.
    pub fn put(&mut self, address: u32, v: u8, misc: u8) -> Result<(), Refusal>
        ensures decoded { IsOk result ↔ IsTrue (is_decoded self.old misc address) }
        ensures ok { OnOk result (self.new ≡ after_put self.old address v) }
        ensures refused { IfErr result (λ e. (e ≡ Refusal.NotDecoded) × (self.new ≡ self.old)) }
    {
        let access = self.access();
        let Some(in_window) = access.in_window(address, misc) else {
            return Err(Refusal::NotDecoded);
        };
        let bytes = self.written_bytes_by_shortcut(access.stores_byte, v);
        self.store_in_window(access, in_window, bytes);
        Ok(())
    }

    /// Writes a byte to an address of display memory, if the address is decoded and the write is
    /// known to store its byte unchanged. It returns whether it did; if not, nothing changes. It
    /// serves speed alone: it is inlined, and calls nothing.
    #[inline(always)]
    pub fn put_if_unchanged(&mut self, address: u32, v: u8, misc: u8) -> bool
        ensures done { result ≡ true → IsTrue (is_decoded self.old misc address)
            × (self.new ≡ after_put self.old address v) }
        ensures left { result ≡ false → self.new ≡ self.old }
    {
        let access = self.access();
        if !access.stores_byte {
            return false;
        }
        let Some(in_window) = access.in_window(address, misc) else {
            return false;
        };
        let unchanged = self.unchanged_bytes(v);
        self.store_in_window(access, in_window, unchanged);
        true
    }

    /// Writes a byte as `put_if_unchanged` does, if it is not stored at an offset of the run, nor, in
    /// text, in the plane of glyphs. It serves speed alone: it is inlined, and calls nothing.
    #[inline(always)]
    pub fn put_if_unchanged_outside(
        &mut self,
        run: OffsetRun,
        address: u32,
        v: u8,
        misc: u8,
    ) -> bool
        ensures done { result ≡ true → IsTrue (is_decoded self.old misc address)
            × (self.new ≡ after_put self.old address v) }
        ensures apart { result ≡ true
            → is_in_run run (plane_offset self.old (window_offset self.old address)) ≡ false }
        ensures beside { result ≡ true → is_graphics self.old ≡ false
            → is_reached self.old (window_offset self.old address) 2 ≡ false }
        ensures left { result ≡ false → self.new ≡ self.old }
    {
        let access = self.access();
        if !access.stores_byte {
            return false;
        }
        let Some(in_window) = access.in_window(address, misc) else {
            return false;
        };
        if self.reaches_run_or_glyphs(access, in_window, run) {
            return false;
        }
        let bytes = self.unchanged_bytes(v);
        self.store_in_window(access, in_window, bytes);
        true
    }

    /// Writes two bytes to an address of display memory and the next one, if both are decoded and
    /// the writes are known to store their bytes unchanged. It returns whether it did; if not,
    /// nothing changes. It serves speed alone: it is inlined, and calls nothing.
    #[inline(always)]
    pub fn put_word_if_unchanged(&mut self, address: u32, low: u8, high: u8, misc: u8) -> bool
        requires { address < 4294967295 }
        ensures done { result ≡ true → IsTrue (is_decoded self.old misc address)
            × IsTrue (is_decoded self.old misc (address + 1))
            × (self.new ≡ after_put (after_put self.old address low) (address + 1) high) }
        ensures left { result ≡ false → self.new ≡ self.old }
    {
        let access = self.access();
        if !access.stores_byte {
            return false;
        }
        let Some(first) = access.in_window(address, misc) else {
            return false;
        };
        let Some(second) = access.in_window(address + 1, misc) else {
            return false;
        };
        let low = self.unchanged_bytes(low);
        let high = self.unchanged_bytes(high);
        self.store_word_in_window(access, first, low, second, high);
        true
    }

    /// Writes two bytes as `put_word_if_unchanged` does, if neither is stored at an offset of the run,
    /// nor, in text, in the plane of glyphs. It serves speed alone: it is inlined, and calls nothing.
    #[inline(always)]
    pub fn put_word_if_unchanged_outside(
        &mut self,
        run: OffsetRun,
        address: u32,
        low: u8,
        high: u8,
        misc: u8,
    ) -> bool
        requires { address < 4294967295 }
        ensures done { result ≡ true → IsTrue (is_decoded self.old misc address)
            × IsTrue (is_decoded self.old misc (address + 1))
            × (self.new ≡ after_put (after_put self.old address low) (address + 1) high) }
        ensures apart { result ≡ true
            → (is_in_run run (plane_offset self.old (window_offset self.old address)) ≡ false)
            × (is_in_run run (plane_offset self.old (window_offset self.old (address + 1))) ≡ false) }
        ensures beside { result ≡ true → is_graphics self.old ≡ false
            → (is_reached self.old (window_offset self.old address) 2 ≡ false)
            × (is_reached self.old (window_offset self.old (address + 1)) 2 ≡ false) }
        ensures left { result ≡ false → self.new ≡ self.old }
    {
        let access = self.access();
        if !access.stores_byte {
            return false;
        }
        let Some(first) = access.in_window(address, misc) else {
            return false;
        };
        let Some(second) = access.in_window(address + 1, misc) else {
            return false;
        };
        if self.reaches_run_or_glyphs(access, first, run)
            || self.reaches_run_or_glyphs(access, second, run)
        {
            return false;
        }
        let low_bytes = self.unchanged_bytes(low);
        let high_bytes = self.unchanged_bytes(high);
        self.store_word_in_window(access, first, low_bytes, second, high_bytes);
        true
    }
}
