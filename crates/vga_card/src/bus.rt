//! A bus: it answers cycles of a byte at ports and addresses.
ghost use Rattle.std.specs.Prelude.{◌≡◌, ◌<◌, ◌+◌, ◌^◌, length, slice_index};
ghost use Rattle.vga_card.specs.Bus.{BusMeaning, AtPort, AtAddress, card_meaning, after_puts};
ghost use Rattle.vga_card.specs.Bus.{after_moves};
ghost use Rattle.vga_host.specs.Memory.Runs.{even_or_odd_byte};

use crate::card::Card;
use vga_bits::Refusal;

/// What a refused read gives when its byte is moved.
const REFUSED: u8 = 0xFF;

/// A bus answers cycles of a byte at ports and addresses. An adapter is one; so is anything that
/// takes its place.
pub trait Bus {
    /// What a cycle does to the state, and what it returns.
    ghost meaning: { BusMeaning Self };

    /// Writes a byte to a port. It fails where the bus refuses the cycle.
    fn out(&mut self, port: u16, value: u8) -> Result<(), Refusal>
        ensures { (self.new, result) ≡ meaning.write self.old (AtPort port) value };

    /// Reads a byte from a port. It fails where the bus refuses the cycle.
    fn inp(&mut self, port: u16) -> Result<u8, Refusal>
        ensures { (self.new, result) ≡ meaning.read self.old (AtPort port) };

    /// Writes a byte to an address of memory. It fails where the bus refuses the cycle.
    fn put(&mut self, address: u32, value: u8) -> Result<(), Refusal>
        ensures { (self.new, result) ≡ meaning.write self.old (AtAddress address) value };

    /// Reads a byte from an address of memory. It fails where the bus refuses the cycle.
    fn get(&mut self, address: u32) -> Result<u8, Refusal>
        ensures { (self.new, result) ≡ meaning.read self.old (AtAddress address) };

    /// Writes two bytes in turn to n addresses from the first on. A refused write does nothing.
    fn put_in_turn(&mut self, first: u32, n: u32, even: u8, odd: u8)
        requires { first + n < 2 ^ 32 }
        ensures { self.new ≡ after_puts meaning first (even_or_odd_byte even odd) n 0 self.old }
    {
        for i in 0..n {
            let byte = if i % 2 == 0 { even } else { odd };
            let _ = self.put(first + i, byte);
        }
    }

    /// Moves n bytes from one run of addresses to another, in ascending order. A refused write does
    /// nothing, and a refused read gives FF.
    fn move_bytes(&mut self, from: u32, to: u32, n: u32)
        requires from { from + n < 2 ^ 32 }
        requires to { to + n < 2 ^ 32 }
        ensures { self.new ≡ after_moves meaning from to n 0 self.old }
    {
        for i in 0..n {
            let byte = match self.get(from + i) {
                Ok(byte) => byte,
                Err(_) => REFUSED,
            };
            let _ = self.put(to + i, byte);
        }
    }
}

/// A cycle of an adapter does what the register table says.
impl Bus for Card {
    ghost meaning = { card_meaning };

    fn out(&mut self, port: u16, value: u8) -> Result<(), Refusal> {
        Card::out(self, port, value)
    }

    fn inp(&mut self, port: u16) -> Result<u8, Refusal> {
        Card::inp(self, port)
    }

    fn put(&mut self, address: u32, value: u8) -> Result<(), Refusal> {
        Card::put(self, address, value)
    }

    fn get(&mut self, address: u32) -> Result<u8, Refusal> {
        Card::get(self, address)
    }

    fn put_in_turn(&mut self, first: u32, n: u32, even: u8, odd: u8) {
        Card::put_in_turn(self, first, n, even, odd);
    }

    fn move_bytes(&mut self, from: u32, to: u32, n: u32) {
        Card::move_bytes(self, from, to, n);
    }
}
