//! Why a cycle is refused, with the numbers that decide it.
ghost use Rattle.std.specs.Prelude.{◌≡◌};
ghost use Rattle.vga_explain.specs.CycleReasons.{refusal_of};

use crate::group::Group;
use crate::left_out::LeftOut;
use vga_bits::Refusal;

/// Why a cycle of a byte is refused.
#[derive(Clone, Copy, PartialEq, Eq, Debug)]
pub enum CycleReason {
    /// No part of the adapter decodes the port, wherever the CRT controller is.
    NoPort {
        port: u16,
    },
    /// The CRT controller is at its other ports.
    OtherCrtController {
        port: u16,
        /// The port of its index now: 3B4 or 3D4.
        base: u16,
        /// The port that reaches now what `port` would reach.
        there: u16,
    },
    /// The port can be read, and not written.
    ReadOnly {
        port: u16,
    },
    /// The profile leaves out what the port would be.
    PortLeftOut {
        port: u16,
        part: LeftOut,
    },
    /// The index selects no register.
    NoRegister {
        group: Group,
        index: u8,
        /// The number of the group's last register.
        last: u8,
    },
    /// The profile leaves out what a bit of the register asks for, and the bit is 1.
    BitLeftOut {
        group: Group,
        index: u8,
        bit: u8,
        /// The byte for the register.
        value: u8,
    },
    /// The profile has one value alone for these bits of the register.
    FieldLeftOut {
        group: Group,
        index: u8,
        /// The field's highest bit.
        high: u8,
        /// Its lowest.
        low: u8,
        /// The value that it must have.
        wanted: u8,
    },
    /// Miscellaneous output keeps the display memory from answering.
    MemoryOff {
        address: u32,
    },
    /// The address is outside the window of the display memory.
    OutsideWindow {
        address: u32,
        /// The memory map, 0 to 3.
        map: u8,
        /// The window's first address.
        first: u32,
        /// Its last.
        last: u32,
    },
    /// A word at the last port, FFFF, has no second byte.
    LastPort,
    /// A word at the last address, FFFFFFFF, has none either.
    LastAddress,
}

impl CycleReason {
    /// The refusal that it explains.
    pub fn refusal(self) -> Refusal
        ensures { result ≡ refusal_of self }
    {
        match self {
            CycleReason::NoPort { .. } => Refusal::NotDecoded,
            CycleReason::OtherCrtController { .. } => Refusal::NotDecoded,
            CycleReason::ReadOnly { .. } => Refusal::NotDecoded,
            CycleReason::PortLeftOut { .. } => Refusal::NotInProfile,
            CycleReason::NoRegister { .. } => Refusal::NotInProfile,
            CycleReason::BitLeftOut { .. } => Refusal::NotInProfile,
            CycleReason::FieldLeftOut { .. } => Refusal::NotInProfile,
            CycleReason::MemoryOff { .. } => Refusal::NotDecoded,
            CycleReason::OutsideWindow { .. } => Refusal::NotDecoded,
            CycleReason::LastPort => Refusal::NotDecoded,
            CycleReason::LastAddress => Refusal::NotDecoded,
        }
    }
}
