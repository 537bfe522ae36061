//! An adapter that counts the cycles that are issued on it.

use std::marker::Model;
use vga_bits::Refusal;
use vga_card::{Bus, Card};

/// An adapter, and how many cycles it has had.
///
/// Contracts see a record of both.
#[derive(Drop)]
pub struct CountedCard {
    card: Card,
    cycles: u32,
}

impl Model for CountedCard {
    ghost use Rattle.vga_tests.specs.Counted.{Counted};

    ghost Value = { Counted };

    ghost view = { λ c. record { card = c.card; cycles = c.cycles } };
}

impl CountedCard {
    /// An adapter that has had no cycles.
    pub fn new(card: Card) -> CountedCard {
        CountedCard { card, cycles: 0 }
    }

    /// How many cycles it has had since the last call.
    pub fn take_cycle_count(&mut self) -> u32 {
        let cycles = self.cycles;
        self.cycles = 0;
        cycles
    }
}

/// Each cycle is issued on the adapter, and counted.
impl Bus for CountedCard {
    ghost use Rattle.vga_tests.specs.Counted.{counted_meaning};

    ghost meaning = { counted_meaning };

    fn out(&mut self, port: u16, value: u8) -> Result<(), Refusal> {
        self.cycles = self.cycles.wrapping_add(1);
        self.card.out(port, value)
    }

    fn inp(&mut self, port: u16) -> Result<u8, Refusal> {
        self.cycles = self.cycles.wrapping_add(1);
        self.card.inp(port)
    }

    fn put(&mut self, address: u32, value: u8) -> Result<(), Refusal> {
        self.cycles = self.cycles.wrapping_add(1);
        self.card.put(address, value)
    }

    fn get(&mut self, address: u32) -> Result<u8, Refusal> {
        self.cycles = self.cycles.wrapping_add(1);
        self.card.get(address)
    }
}
