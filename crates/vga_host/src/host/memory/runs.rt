//! Runs of cycles of display memory. This file serves speed alone: what the registers say of a
//! cycle is looked up once for a run, because no cycle of memory changes a register.
ghost use Rattle.std.specs.Prelude.{◌≡◌, ◌<◌, ◌+◌, ◌-◌, ◌/◌, ◌%◌, ◌^◌, ◌==◌};
ghost use Rattle.std.specs.Prelude.{if◌then◌else◌};
ghost use Rattle.vga_host.specs.Graphics.{write_mode};
ghost use Rattle.vga_host.specs.Memory.Runs.{after_put_of_plane_bytes, after_get_if_decoded};
ghost use Rattle.vga_host.specs.Memory.Runs.{byte_read_or_ff, after_move_if_decoded, after_puts};
ghost use Rattle.vga_host.specs.Memory.Runs.{after_moves, even_or_odd_byte};
ghost use Rattle.vga_host.specs.Memory.Access.{IsAccess};

use super::access::MemoryAccess;
use crate::host::Host;
use vga_planes::Latch;

/// What a read of an address gives if the address is not decoded.
const REFUSED: u8 = 0xFF;

impl Host {
    /// Stores these four bytes in the planes that a write to an address reaches. It does nothing if
    /// the address is not decoded. `access` is what the registers say of every cycle.
    pub(super) fn store_bytes_if_decoded(
        &mut self,
        access: MemoryAccess,
        bytes: Latch,
        address: u32,
        misc: u8,
    )
        requires access { IsAccess access self.old }
        ensures { self.new ≡ after_put_of_plane_bytes self.old misc address bytes }
    {
        if let Some(in_window) = access.in_window(address, misc) {
            self.planes
                .store(access.offset(in_window), bytes, access.reached(in_window));
        }
    }

    /// What a read of an address gives, or FF if the address is not decoded. `access` is what the
    /// registers say of every cycle.
    pub(super) fn byte_at_address_or_ff(&self, access: MemoryAccess, address: u32, misc: u8) -> u8
        requires access { IsAccess access self.now }
        ensures { result ≡ byte_read_or_ff self.now misc address }
    {
        match access.in_window(address, misc) {
            Some(in_window) => {
                let bytes = self.planes().load(access.offset(in_window));
                self.read_byte(in_window, bytes)
            }
            None => REFUSED,
        }
    }

    /// Loads the latches from an address, if it is decoded. `access` is what the registers say of
    /// every cycle.
    pub(super) fn load_latches_if_decoded(&mut self, access: MemoryAccess, address: u32, misc: u8)
        requires access { IsAccess access self.old }
        ensures { self.new ≡ after_get_if_decoded self.old misc address }
    {
        if let Some(in_window) = access.in_window(address, misc) {
            self.latch = self.planes.load(access.offset(in_window));
        }
    }

    /// Loads the latches from an address, and stores them at another. The byte read does not
    /// matter.
    fn move_latches(&mut self, access: MemoryAccess, from: u32, to: u32, misc: u8)
        requires access { IsAccess access self.old }
        requires mode { write_mode self.old ≡ 1 }
        ensures { self.new ≡ after_move_if_decoded self.old misc from to }
    {
        self.load_latches_if_decoded(access, from, misc);
        let bytes = self.stored_latches();
        self.store_bytes_if_decoded(access, bytes, to, misc);
    }

    /// Reads a byte from an address, and writes it to another.
    fn move_byte(&mut self, access: MemoryAccess, from: u32, to: u32, misc: u8)
        requires access { IsAccess access self.old }
        ensures { self.new ≡ after_move_if_decoded self.old misc from to }
    {
        let byte = self.byte_at_address_or_ff(access, from, misc);
        self.load_latches_if_decoded(access, from, misc);
        let bytes = self.written(byte);
        self.store_bytes_if_decoded(access, bytes, to, misc);
    }

    /// Moves a byte from an address to another, as the write mode says.
    fn move_by_write_mode(&mut self, access: MemoryAccess, from: u32, to: u32, misc: u8)
        requires access { IsAccess access self.old }
        ensures { self.new ≡ after_move_if_decoded self.old misc from to }
    {
        if access.stores_latches {
            self.move_latches(access, from, to, misc);
        } else {
            self.move_byte(access, from, to, misc);
        }
    }

    /// Moves n bytes from one run of addresses to another, in ascending order. A refused read gives
    /// FF, and a refused write does nothing. `misc` is the miscellaneous output register.
    pub fn move_bytes(&mut self, from: u32, to: u32, n: u32, misc: u8)
        requires from { from + n < 2 ^ 32 }
        requires to { to + n < 2 ^ 32 }
        ensures { self.new ≡ after_moves misc from to n 0 self.old }
    {
        let access = self.access();
        let done = self.move_words(access, from, to, n, misc);
        for i in done..n {
            self.move_by_write_mode(access, from + i, to + i, misc);
        }
    }

    /// Writes two bytes in turn to n addresses from the first on. A refused write does nothing.
    /// `misc` is the miscellaneous output register.
    pub fn put_in_turn(&mut self, first: u32, n: u32, even: u8, odd: u8, misc: u8)
        requires { first + n < 2 ^ 32 }
        ensures { self.new ≡ after_puts misc first (even_or_odd_byte even odd) n 0 self.old }
    {
        let access = self.access();
        let bytes = self.written(even);
        let others = self.written(odd);
        let done = self.fill_words(access, bytes, others, first, n, even, odd, misc);
        for i in done..n {
            if i % 2 == 0 {
                self.store_bytes_if_decoded(access, bytes, first + i, misc);
            } else {
                self.store_bytes_if_decoded(access, others, first + i, misc);
            }
        }
    }
}
