//! A read of a byte of display memory.
ghost use Rattle.std.specs.Prelude.{◌≡◌, ◌<◌, ◌↔◌, ◌+◌, ℕ, if◌then◌else◌, IsTrue, IfOk, IfErr, IsOk};
ghost use Rattle.std.specs.Prelude.{IfSome, None};
ghost use Rattle.std.specs.Int.{bit_at};
ghost use Rattle.vga_bits.specs.Bits.{byte_of_bits};
ghost use Rattle.vga_bits.specs.Four.{of_plane};
ghost use Rattle.vga_bits.specs.Words.{plane_bit_in_word};
ghost use Rattle.vga_host.specs.Memory.Access.{IsAccess};
ghost use Rattle.vga_host.specs.Memory.Address.{is_decoded, window_offset};
ghost use Rattle.vga_host.specs.Memory.Read.{agrees_with_compare, compared_bit, read_bit};
ghost use Rattle.vga_host.specs.Memory.Read.{picked_plane};
ghost use Rattle.vga_host.specs.Memory.Read.{read_byte, after_get};

use super::access::MemoryAccess;
use crate::bytes::bits_clear_in_all_planes;
use crate::host::Host;
use vga_bits::Refusal;
use vga_planes::Latch;
use vga_planes::plane_words::mask_of_planes;

impl Host {
    /// The plane that read mode 0 picks for an offset in the window.
    pub(super) fn picked_plane(&self, in_window: u16) -> usize
        ensures plane { result ≡ picked_plane self.now in_window }
        ensures below { result < 4 }
    {
        let in_window = in_window as usize;
        if self.is_chain_four() {
            in_window % 4
        } else if self.is_odd_even_read() {
            2 * self.read_map_pair() as usize + in_window % 2
        } else {
            self.read_map_select() as usize
        }
    }

    /// In read mode 1, the bits in which each compared plane differs from its compare bit.
    fn differing(&self, bytes: Latch) -> u32
        ensures { (p i : ℕ) → p < 4 → i < 8 → plane_bit_in_word result p i
            ≡ (if agrees_with_compare self.now bytes p i then 0 else 1) }
    {
        let word = bytes.word();
        let wanted = mask_of_planes(self.colour_compare());
        let compared = mask_of_planes(self.compared_planes());
        (word ^ wanted) & compared
    }

    /// In read mode 1, the bits in which all four planes agree.
    fn compared(&self, bytes: Latch) -> u8
        ensures { (i : ℕ) → i < 8 → bit_at result i ≡ compared_bit self.now bytes i }
    {
        bits_clear_in_all_planes(self.differing(bytes))
    }

    /// The byte that a read at an offset in the window returns, from the bytes loaded. `read_byte`
    /// returns the same; only here the contract says each bit.
    #[inline(always)]
    #[tactic(auto, unfolding(crate::specs::Memory::Read::read_bit))]
    fn read_byte_bitwise(&self, in_window: u16, bytes: Latch) -> u8
        ensures { (i : ℕ) → i < 8 → bit_at result i ≡ read_bit self.now in_window bytes i }
    {
        if self.is_read_compare() {
            self.compared(bytes)
        } else {
            bytes.byte(self.picked_plane(in_window))
        }
    }

    /// The byte that a read at an offset in the window returns, from the bytes loaded.
    #[inline(always)]
    pub(super) fn read_byte(&self, in_window: u16, bytes: Latch) -> u8
        ensures { result ≡ byte_of_bits (λ i. read_bit self.now in_window bytes i) }
    {
        self.read_byte_bitwise(in_window, bytes)
    }

    /// Reads the byte at an offset in the window, and loads the latches with the four bytes there.
    /// What the registers say of every cycle stays the same.
    #[inline(always)]
    fn get_in_window(&mut self, access: MemoryAccess, in_window: u16) -> u8
        requires { IsAccess access self.old }
        ensures read { (address : ℕ) → in_window ≡ window_offset self.old address
            → (result ≡ read_byte self.old address) × (self.new ≡ after_get self.old address) }
        ensures access { IsAccess access self.new }
    {
        let bytes = self.planes.load(access.offset(in_window));
        let answer = self.read_byte(in_window, bytes);
        self.latch = bytes;
        answer
    }

    /// Reads a byte of display memory, and loads the latches with the four bytes at its offset. If
    /// the address is not decoded, the read is refused with `NotDecoded` and changes nothing.
    /// `misc` is the miscellaneous output register.
    pub fn get(&mut self, address: u32, misc: u8) -> Result<u8, Refusal>
        ensures decoded { IsOk result ↔ IsTrue (is_decoded self.old misc address) }
        ensures ok { IfOk result (λ v. (v ≡ read_byte self.old address)
            × (self.new ≡ after_get self.old address)) }
        ensures refused { IfErr result (λ e. (e ≡ Refusal.NotDecoded) × (self.new ≡ self.old)) }
    {
        let access = self.access();
        let Some(in_window) = access.in_window(address, misc) else {
            return Err(Refusal::NotDecoded);
        };
        Ok(self.get_in_window(access, in_window))
    }

    /// Reads a byte of display memory in read mode 0, and loads the latches. It is `None`, and
    /// changes nothing, in read mode 1 and where the address is not decoded. It serves speed alone:
    /// it is inlined, and calls nothing.
    #[inline(always)]
    pub fn get_from_plane(&mut self, address: u32, misc: u8) -> Option<u8>
        ensures read { IfSome result (λ v. IsTrue (is_decoded self.old misc address)
            × (v ≡ read_byte self.old address) × (self.new ≡ after_get self.old address)) }
        ensures left { result ≡ None → self.new ≡ self.old }
    {
        if self.is_read_compare() {
            return None;
        }
        let access = self.access();
        let in_window = access.in_window(address, misc)?;
        Some(self.get_in_window(access, in_window))
    }

    /// Reads a byte of display memory and the next one in read mode 0, and loads the latches each
    /// time. It is `None`, and changes nothing, in read mode 1 and where one of the addresses is
    /// not decoded. It serves speed alone: it is inlined, and calls nothing.
    #[inline(always)]
    pub fn get_word_from_planes(&mut self, address: u32, misc: u8) -> Option<(u8, u8)>
        requires { address < 4294967295 }
        ensures decoded { IfSome result (λ v. IsTrue (is_decoded self.old misc address)
            × IsTrue (is_decoded self.old misc (address + 1))) }
        ensures read { IfSome result (λ v. (v.0 ≡ read_byte self.old address)
            × (v.1 ≡ read_byte (after_get self.old address) (address + 1))
            × (self.new ≡ after_get (after_get self.old address) (address + 1))) }
        ensures left { result ≡ None → self.new ≡ self.old }
    {
        if self.is_read_compare() {
            return None;
        }
        let access = self.access();
        let first = access.in_window(address, misc)?;
        let second = access.in_window(address + 1, misc)?;
        let low = self.get_in_window(access, first);
        let high = self.get_in_window(access, second);
        Some((low, high))
    }
}
