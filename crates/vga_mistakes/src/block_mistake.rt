//! What is wrong with the block of a call.

use super::digits::Digits;
use super::sentence::{write_count_of_bytes, write_decimal};
use std::fmt;
use vga_script::MOST_BLOCK_DIGITS;

/// What is wrong with the block of a call.
#[derive(Clone, Copy, PartialEq, Eq, Debug)]
pub enum BlockMistake<'a> {
    /// It has no digits.
    Empty,
    /// It has something else than hexadecimal digits.
    NoDigits {
        /// The digits that are meant, if they are few.
        digits: Option<Digits<'a>>,
    },
    /// A blank stands among its digits.
    Blank,
    /// A register follows it.
    NotLast,
    /// The number of its digits is odd.
    Odd {
        /// How many digits it has.
        count: usize,
    },
    /// It has too many bytes.
    TooLong,
}

impl fmt::Display for BlockMistake<'_> {
    fn fmt<W: fmt::Write>(&self, f: &mut fmt::Formatter<W>) -> fmt::Result {
        match self {
            BlockMistake::Empty => f.write_str(
                "the block has no digits; a call without a block has no word for it",
            ),
            BlockMistake::NoDigits { digits } => {
                f.write_str("a block is hexadecimal digits alone, two for each byte")?;
                if let Some(digits) = digits {
                    f.write_str(": write ")?;
                    fmt::Display::fmt(digits, f)?;
                }
                Ok(())
            }
            BlockMistake::Blank => f.write_str("no blank stands among the digits of a block"),
            BlockMistake::NotLast => f.write_str("the block stands last, after the registers"),
            BlockMistake::Odd { count } => {
                f.write_str("a block has two digits for each byte, and these are ")?;
                write_decimal(f, *count as u64)
            }
            BlockMistake::TooLong => {
                f.write_str("a block has at most ")?;
                write_count_of_bytes(f, (MOST_BLOCK_DIGITS / 2) as u64)
            }
        }
    }
}
