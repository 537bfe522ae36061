//! A number that is written wrongly.

use super::digits::Digits;
use super::number::{Number, Spelling};
use super::sentence::{write_decimal, write_word};
use std::fmt;

/// A number that is written wrongly.
#[derive(Clone, Copy, PartialEq, Eq, Debug)]
pub enum NumberMistake<'a> {
    /// It has too many hexadecimal digits.
    TooManyDigits {
        /// Which number it is.
        number: Number,
        /// How many digits it has.
        count: usize,
        /// The digits without the zeros that they begin with, if those are few enough.
        shorter: Option<&'a [u8]>,
    },
    /// A register has no digits after its equals sign.
    NoDigits {
        /// Which number it is.
        number: Number,
    },
    /// Its hexadecimal digits are written otherwise, as in another language.
    OtherDigits {
        /// The digits.
        digits: Digits<'a>,
    },
    /// It has a sign.
    Sign,
    /// It has a letter that is no hexadecimal digit.
    NoDigit {
        /// Which number it is.
        number: Number,
        /// The first such letter.
        letter: u8,
    },
    /// It is out of its range.
    OutOfRange {
        /// Which number it is.
        number: Number,
    },
    /// Its decimal digits have signs between them.
    OtherDecimalDigits {
        /// Which number it is.
        number: Number,
        /// The digits.
        digits: Digits<'a>,
    },
    /// It is hexadecimal in place of decimal.
    Hexadecimal {
        /// Which number it is.
        number: Number,
        /// Its value.
        value: u64,
    },
    /// It is no decimal number.
    NoDecimal {
        /// Which number it is.
        number: Number,
    },
}

/// Writes how many hexadecimal digits a number has, and how many it has at most.
fn write_digit_count<W: fmt::Write>(
    f: &mut fmt::Formatter<W>,
    number: Number,
    count: usize,
) -> fmt::Result {
    f.write_str(number.name())?;
    f.write_str(" has ")?;
    write_decimal(f, count as u64)?;
    f.write_str(" digits, and ")?;
    match number.spelling() {
        Spelling::Hexadecimal { digits: 1, .. } => f.write_str("1 digit is the most"),
        Spelling::Hexadecimal { digits, .. } => {
            write_decimal(f, digits as u64)?;
            f.write_str(" digits are the most")
        }
        Spelling::Decimal { .. } => f.write_str("is decimal"),
    }
}

/// Writes the range of a number.
fn write_range<W: fmt::Write>(f: &mut fmt::Formatter<W>, number: Number) -> fmt::Result {
    let (least, most) = number.spelling().range();
    f.write_str(number.name())?;
    f.write_str(" is from ")?;
    write_decimal(f, least as u64)?;
    f.write_str(" to ")?;
    write_decimal(f, most as u64)
}

impl NumberMistake<'_> {
    /// Writes what is wrong with a decimal number, with a sign or with the size of a number.
    fn write_other<W: fmt::Write>(&self, f: &mut fmt::Formatter<W>) -> fmt::Result {
        match self {
            NumberMistake::OtherDecimalDigits { number, digits } => {
                f.write_str(number.name())?;
                f.write_str(" is decimal digits alone: write ")?;
                fmt::Display::fmt(digits, f)
            }
            NumberMistake::Hexadecimal { number, value } => {
                f.write_str(number.name())?;
                f.write_str(" is decimal, and not hexadecimal: write ")?;
                write_decimal(f, *value)
            }
            NumberMistake::NoDecimal { number } => {
                f.write_str(number.name())?;
                f.write_str(" is a decimal number")
            }
            NumberMistake::OutOfRange { number } => write_range(f, *number),
            _ => f.write_str("a number has no sign"),
        }
    }
}

impl fmt::Display for NumberMistake<'_> {
    fn fmt<W: fmt::Write>(&self, f: &mut fmt::Formatter<W>) -> fmt::Result {
        match self {
            NumberMistake::TooManyDigits {
                number,
                count,
                shorter,
            } => {
                write_digit_count(f, *number, *count)?;
                if let Some(digits) = shorter {
                    f.write_str(": write ")?;
                    write_word(f, digits)?;
                }
                Ok(())
            }
            NumberMistake::NoDigits { number } => {
                f.write_str(number.name())?;
                f.write_str(" has no digits")
            }
            NumberMistake::OtherDigits { digits } => {
                f.write_str("numbers are hexadecimal digits alone: write ")?;
                fmt::Display::fmt(digits, f)
            }
            NumberMistake::NoDigit { number, letter } => {
                f.write_str(number.name())?;
                f.write_str(" is a hexadecimal number, and '")?;
                f.write_char(*letter as char)?;
                f.write_str("' is no digit of one")
            }
            _ => self.write_other(f),
        }
    }
}
