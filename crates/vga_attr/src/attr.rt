//! The attribute controller's registers, its index, and the flip-flop of port 3C0.
ghost use Rattle.std.specs.Prelude.{◌≡◌, ◌<◌, ◌↔◌, IsTrue, OnOk, IfOk, IfErr, IsErr};

mod fields;
mod saved;

use fields::colour_numbers_of;
use std::marker::Model;
use vga_bits::{Refusal, RegFile};

/// The bits that the registers keep, from register 0.
const MASKS: [u8; 21] = [
    0x3F, 0x3F, 0x3F, 0x3F, 0x3F, 0x3F, 0x3F, 0x3F, 0x3F, 0x3F, 0x3F, 0x3F, 0x3F, 0x3F, 0x3F, 0x3F,
    0xEF, 0xFF, 0x3F, 0x0F, 0x0F,
];

/// The bits that the index keeps: the register's number, and the palette address source.
const INDEX_MASK: u8 = 0x3F;

/// How many registers there are.
const REGISTERS: u8 = 21;

/// How many of the registers are the palette's, from register 0.
const PALETTE_REGISTERS: u8 = 16;

/// The attribute controller.
///
/// Contracts see one record: the registers, the index with the palette address source, and whether
/// the next write is data.
#[derive(Drop)]
pub struct Attr {
    registers: RegFile<21>,
    /// The colour number of each of the 16 values of a dot's four bits, kept for speed alone.
    numbers: [u8; 16],
    index: u8,
    is_data: bool,
}

impl Model for Attr {
    ghost use Rattle.std.specs.Prelude.{◌≡◌, ◌<◌};
    ghost use Rattle.vga_attr.specs.Attr.{AttrState};
    ghost use Rattle.vga_attr.specs.Colour.{AreColourNumbers};
    ghost use Rattle.vga_attr.specs.declared.attr.TheConstants.{MASKS};

    ghost Value = { AttrState };

    ghost view = { λ a. record {
      registers = a.registers.values;
      index = a.index;
      is_data = a.is_data;
    } };

    ghost invariant = { λ a. (a.registers.masks ≡ MASKS) × (a.index < 64)
        × AreColourNumbers a.numbers a.registers.values };
}

impl Attr {
    ghost use Rattle.vga_attr.specs.Attr.{power_on_attr, selected_register, is_refused_write};
    ghost use Rattle.vga_attr.specs.Attr.{registers_after_data};
    ghost use Rattle.vga_attr.specs.Attr.{after_write, is_refused_read, selected_register_value};
    ghost use Rattle.vga_attr.specs.Attr.{after_flip_flop_reset, IsAttr};

    /// The attribute controller at power-on: registers and index are 0, and the next write is an
    /// index.
    pub fn new() -> Attr
        ensures { result ≡ power_on_attr }
    {
        let registers = RegFile::new(MASKS);
        Attr {
            numbers: colour_numbers_of(&registers),
            registers,
            index: 0,
            is_data: false,
        }
    }

    /// Each register holds only the bits that it keeps, whatever was written: a palette register
    /// keeps six. The clause is for proofs: nothing runs.
    #[tactic(auto, using(crate::proofs::PaletteLemmas::palette_small))]
    pub fn bounds(&self)
        ensures { IsAttr self.now }
    {
        self.registers.bounds();
    }

    /// The number of the register that the index selects, 0 to 31.
    fn register(&self) -> u8
        ensures { result ≡ selected_register self.now }
    {
        self.index & 0x1F
    }

    /// Writes data to the register that the index selects, if it exists and is not locked.
    fn write_selected_register(&mut self, v: u8) -> Result<(), Refusal>
        ensures refused { IsErr result ↔ IsTrue (is_refused_read self.old) }
        ensures ok { OnOk result (self.new ≡ record self.old {
          registers =
              registers_after_data self.old v;
        }) }
        ensures err { IfErr result (λ e. (e ≡ Refusal.NotInProfile) × (self.new ≡ self.old)) }
    {
        let i = self.register();
        if i >= REGISTERS {
            return Err(Refusal::NotInProfile);
        }
        if i >= PALETTE_REGISTERS || !self.is_palette_shown() {
            self.registers.write(i as usize, v);
            self.numbers = colour_numbers_of(&self.registers);
        }
        Ok(())
    }

    /// Writes a byte to the port: an index and data in turn. Data for a palette register changes no
    /// register while the palette address source is 1. Data for a register that does not exist is
    /// refused with `NotInProfile` and changes nothing: the next write is still data.
    pub fn write(&mut self, v: u8) -> Result<(), Refusal>
        ensures refused { IsErr result ↔ IsTrue (is_refused_write self.old) }
        ensures ok { OnOk result (self.new ≡ after_write self.old v) }
        ensures err { IfErr result (λ e. (e ≡ Refusal.NotInProfile) × (self.new ≡ self.old)) }
    {
        if self.is_data {
            self.write_selected_register(v)?;
        } else {
            self.index = v & INDEX_MASK;
        }
        self.is_data = !self.is_data;
        Ok(())
    }

    /// Reads the register that the index selects. If there is none, the read is refused with
    /// `NotInProfile`.
    pub fn read_register(&self) -> Result<u8, Refusal>
        ensures refused { IsErr result ↔ IsTrue (is_refused_read self.now) }
        ensures ok { IfOk result (λ v. v ≡ selected_register_value self.now) }
        ensures err { IfErr result (λ e. e ≡ Refusal.NotInProfile) }
    {
        let i = self.register();
        if i >= REGISTERS {
            return Err(Refusal::NotInProfile);
        }
        Ok(self.registers.read(i as usize))
    }

    /// The index, with the palette address source as bit 5.
    pub fn read_index(&self) -> u8
        ensures { result ≡ self.now.index }
    {
        self.index
    }

    /// Makes the next write an index, as reading input status 1 does.
    pub fn to_index(&mut self)
        ensures { self.new ≡ after_flip_flop_reset self.old }
    {
        self.is_data = false;
    }

    /// What the registers hold, from register 0 to 20.
    pub fn regs(&self) -> &[u8; 21]
        ensures { result.now ≡ self.now.registers }
    {
        self.registers.values()
    }

    /// Whether the next write is data.
    pub fn is_data(&self) -> bool
        ensures { result ≡ self.now.is_data }
    {
        self.is_data
    }
}
