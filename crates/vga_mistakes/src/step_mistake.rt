//! A first word that begins no line.

use super::sentence::{write_in_lower_case, write_quoted, write_word};
use std::fmt;

/// The words that begin a line, as a sentence lists them.
const NAMES: &str =
    "out, outw, in, inw, put, putw, get, getw, advance, frame, int, show, version, repeat, end";

/// A first word that begins no line.
#[derive(Clone, Copy, PartialEq, Eq, Debug)]
pub enum StepMistake<'a> {
    /// There is no such step.
    Unknown {
        /// The word.
        word: &'a [u8],
    },
    /// Punctuation stands after the name of a step.
    Punctuated {
        /// The name.
        name: &'a [u8],
    },
    /// No blank stands between the name of a step and its number.
    Glued {
        /// The name.
        name: &'a [u8],
        /// What follows it.
        rest: &'a [u8],
    },
    /// There is no such version.
    Version,
}

impl fmt::Display for StepMistake<'_> {
    fn fmt<W: fmt::Write>(&self, f: &mut fmt::Formatter<W>) -> fmt::Result {
        match self {
            StepMistake::Unknown { word } => {
                f.write_str("there is no step ")?;
                write_quoted(f, word)?;
                f.write_str("; the steps are ")?;
                f.write_str(NAMES)
            }
            StepMistake::Punctuated { name } => {
                f.write_str("nothing stands after the name of a step but blanks: write ")?;
                write_in_lower_case(f, name)
            }
            StepMistake::Glued { name, rest } => {
                f.write_str("a blank stands between words: write ")?;
                write_in_lower_case(f, name)?;
                f.write_str(" ")?;
                write_word(f, rest)
            }
            StepMistake::Version => {
                f.write_str("there is no such version: write version 2, or nothing for version 1")
            }
        }
    }
}
