//! What a service answers.
ghost use Rattle.std.specs.Prelude.{◌≡◌};
ghost use Rattle.bios_services.specs.Tables.{table_bytes};

use crate::regs::Regs;
use vga_bits::{Bytes, Refusal};

/// A table that a service answers in the caller's memory.
#[derive(Drop)]
pub enum Table {
    /// No table.
    Empty,
    /// The 16 palette registers, and the overscan colour.
    Palette([u8; 17]),
    /// Red, green and blue of entries of the DAC.
    Dac(Bytes),
}

impl Table {
    /// The bytes of the table.
    pub fn as_slice(&self) -> &[u8]
        ensures { result.now ≡ table_bytes self.now }
    {
        match self {
            Table::Empty => &[],
            Table::Palette(values) => values,
            Table::Dac(values) => values.as_slice(),
        }
    }
}

/// What a service answers: the four registers, and a table.
#[derive(Drop)]
pub struct Reply {
    pub regs: Regs,
    pub table: Table,
}

/// Why a service gives no reply.
#[derive(Clone, Copy, PartialEq, Eq, Debug)]
pub enum ServiceError {
    /// It is refused.
    Refused(Refusal),
    /// Memory for a table was refused, before the first cycle.
    OutOfMemory,
}
