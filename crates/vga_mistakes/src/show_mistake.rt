//! What is wrong with what a step shows.

use super::sentence::{write_count_of_bytes, write_hex_word, write_quoted};
use std::fmt;
use vga_script::PLANE_LEN;

/// The words that say what is shown, as a sentence lists them.
const NAMES: &str = "regs, dac, beam, latches, plane, bda, cells";

/// What is wrong with what a step shows.
#[derive(Clone, Copy, PartialEq, Eq, Debug)]
pub enum ShowMistake<'a> {
    /// No word says what is shown.
    Nothing,
    /// Nothing has this name.
    Unknown {
        /// The word.
        word: &'a [u8],
    },
    /// The plane ends before the last byte that is shown.
    PastPlane {
        /// The offset of the first byte.
        offset: u16,
    },
}

impl fmt::Display for ShowMistake<'_> {
    fn fmt<W: fmt::Write>(&self, f: &mut fmt::Formatter<W>) -> fmt::Result {
        match self {
            ShowMistake::Nothing => {
                f.write_str("what is to be shown is lacking: ")?;
                f.write_str(NAMES)
            }
            ShowMistake::Unknown { word } => {
                f.write_str("nothing of the state has the name ")?;
                write_quoted(f, word)?;
                f.write_str("; there are ")?;
                f.write_str(NAMES)
            }
            ShowMistake::PastPlane { offset } => {
                f.write_str("from ")?;
                write_hex_word(f, *offset)?;
                f.write_str(" on the plane has ")?;
                write_count_of_bytes(f, (PLANE_LEN - *offset as u32) as u64)
            }
        }
    }
}
