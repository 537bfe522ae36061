//! Numbers in sentences. They are written digit by digit: the library's own formatting is larger
//! than all sentences together, and widths and signs are not needed here.

use itoa::Buffer;
use std::fmt::{self, Display, Formatter, Write};

/// The hexadecimal digits.
const DIGITS: [&str; 16] = [
    "0", "1", "2", "3", "4", "5", "6", "7", "8", "9", "A", "B", "C", "D", "E", "F",
];

/// A number in hexadecimal, with `digits` digits.
#[derive(Clone, Copy, Drop)]
pub(crate) struct Hex {
    value: u32,
    digits: u32,
}

impl Hex {
    /// A byte, with two digits.
    pub(crate) fn byte(value: u8) -> Hex {
        Hex {
            value: value as u32,
            digits: 2,
        }
    }

    /// A port, with three digits, or four if it needs them.
    pub(crate) fn port(port: u16) -> Hex {
        Hex {
            value: port as u32,
            digits: if port < 0x1000 { 3 } else { 4 },
        }
    }

    /// A word, with two digits if they are enough, or else four.
    pub(crate) fn word(value: u16) -> Hex {
        Hex {
            value: value as u32,
            digits: if value < 0x100 { 2 } else { 4 },
        }
    }

    /// An address, with five digits, or eight if it needs more.
    pub(crate) fn address(address: u32) -> Hex {
        Hex {
            value: address,
            digits: if address < 0x10_0000 { 5 } else { 8 },
        }
    }
}

impl Display for Hex {
    fn fmt<W: Write>(&self, f: &mut Formatter<W>) -> fmt::Result {
        for place in 0..8 {
            if 8 - place <= self.digits {
                let digit = self.value >> (28 - 4 * place) & 0x0F;
                f.write_str(DIGITS[digit as usize])?;
            }
        }
        Ok(())
    }
}

/// A number in decimal.
#[derive(Clone, Copy, Drop)]
pub(crate) struct Decimal(pub u32);

impl Display for Decimal {
    fn fmt<W: Write>(&self, f: &mut Formatter<W>) -> fmt::Result {
        let mut digits = Buffer::new();
        f.write_str(digits.format(self.0))
    }
}

/// So many things: `1 cell`, `5 cells`.
#[derive(Clone, Copy, Drop)]
pub(crate) struct Things {
    count: u32,
    one: &'static str,
}

impl Things {
    /// So many of what `one` names.
    pub(crate) fn of(count: u32, one: &'static str) -> Things {
        Things { count, one }
    }
}

impl Display for Things {
    fn fmt<W: Write>(&self, f: &mut Formatter<W>) -> fmt::Result {
        Decimal(self.count).fmt(f)?;
        f.write_str(" ")?;
        f.write_str(self.one)?;
        f.write_str(if self.count == 1 { "" } else { "s" })
    }
}
