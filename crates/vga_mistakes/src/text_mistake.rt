//! What makes a text no script.

use super::mistake::Mistake;
use std::fmt;
use vga_script::SCRIPT_LIMIT;

const _: () = prove!(SCRIPT_LIMIT == 16_777_216);

/// What makes a text no script.
#[derive(Clone, Copy, PartialEq, Eq, Debug)]
pub enum TextMistake<'a> {
    /// The text has more than 16,777,216 bytes.
    LongText,
    /// Its script has more than 16,777,216 bytes.
    LongScript,
    /// A line has a mistake.
    InLine {
        /// The number of the line, from 1.
        number: usize,
        /// The mistake.
        mistake: Mistake<'a>,
    },
}

impl fmt::Display for TextMistake<'_> {
    /// Writes a sentence, without the number of the line.
    fn fmt<W: fmt::Write>(&self, f: &mut fmt::Formatter<W>) -> fmt::Result {
        match self {
            TextMistake::LongText => {
                f.write_str("the text has more bytes, and 16,777,216 bytes are the most")
            }
            TextMistake::LongScript => f.write_str(
                "the steps of the text have more bytes, and 16,777,216 bytes are the most",
            ),
            TextMistake::InLine { mistake, .. } => fmt::Display::fmt(mistake, f),
        }
    }
}
