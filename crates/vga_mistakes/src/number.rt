//! The numbers of a line.

use super::register::Register;
use vga_script::MOST_SHOWN;

/// A number that a line has.
#[derive(Clone, Copy, PartialEq, Eq, Debug)]
pub enum Number {
    /// A port.
    Port,
    /// An address in memory.
    Address,
    /// A byte that is written.
    Byte,
    /// A word that is written.
    Word,
    /// How many dots the clock advances.
    Dots,
    /// How often a repeat's steps are taken.
    Count,
    /// The index of a DAC entry that is shown.
    Index,
    /// The plane that is shown.
    Plane,
    /// The offset of the first byte of a plane that is shown.
    Offset,
    /// How many bytes of a plane are shown.
    Bytes,
    /// A register of a call.
    Register(Register),
}

/// How a number is spelled, and its range.
#[derive(Clone, Copy, PartialEq, Eq, Debug)]
pub(crate) enum Spelling {
    /// At most so many hexadecimal digits, and a number from 0.
    Hexadecimal {
        /// How many digits.
        digits: usize,
        /// The largest number.
        most: u32,
    },
    /// Decimal digits.
    Decimal {
        /// The smallest number.
        least: u32,
        /// The largest number.
        most: u32,
    },
}

impl Spelling {
    /// The smallest number and the largest.
    pub(crate) fn range(self) -> (u32, u32) {
        match self {
            Spelling::Hexadecimal { most, .. } => (0, most),
            Spelling::Decimal { least, most } => (least, most),
        }
    }
}

impl Number {
    /// The name in sentences.
    pub fn name(self) -> &'static str {
        match self {
            Number::Port => "PORT",
            Number::Address => "ADDRESS",
            Number::Byte | Number::Word => "VALUE",
            Number::Dots => "DOTS",
            Number::Count => "N",
            Number::Index => "INDEX",
            Number::Plane => "P",
            Number::Offset => "OFFSET",
            Number::Bytes => "COUNT",
            Number::Register(register) => register.name(),
        }
    }

    /// How the number is spelled, and its range.
    pub(crate) fn spelling(self) -> Spelling {
        match self {
            Number::Plane => hexadecimal(1, 3),
            Number::Byte | Number::Index => hexadecimal(2, 0xFF),
            Number::Port | Number::Word | Number::Offset | Number::Register(_) => {
                hexadecimal(4, 0xFFFF)
            }
            Number::Address => hexadecimal(8, 0xFFFF_FFFF),
            Number::Dots => decimal(0, 0xFFFF_FFFF),
            Number::Count => decimal(1, 0xFFFF),
            Number::Bytes => decimal(1, MOST_SHOWN as u32),
        }
    }
}

/// A number of at most so many hexadecimal digits, from 0.
fn hexadecimal(digits: usize, most: u32) -> Spelling {
    Spelling::Hexadecimal { digits, most }
}

/// A number of decimal digits.
fn decimal(least: u32, most: u32) -> Spelling {
    Spelling::Decimal { least, most }
}
