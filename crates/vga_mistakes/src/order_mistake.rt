//! Good lines that may not stand where they do.

use super::sentence::write_decimal;
use std::fmt;
use vga_script::STEP_LIMIT;

const _: () = prove!(STEP_LIMIT == 16_777_216);

/// What is wrong with the place of a line that is good elsewhere.
#[derive(Clone, Copy, PartialEq, Eq, Debug)]
pub enum OrderMistake {
    /// The line of the version is not the first.
    VersionTwice,
    /// A repeat begins or ends in a script of version 1.
    RepeatInVersionOne,
    /// A repeat ends that has not begun.
    NoRepeat,
    /// A repeat begins in a repeat.
    RepeatInRepeat {
        /// The number of the line that begins the outer one, from 1.
        line: usize,
    },
    /// A repeat has no end.
    NoEnd,
    /// With a repeat the script means too many steps.
    TooManyStepsByRepeat,
    /// With a step the script means too many steps.
    TooManySteps,
}

impl fmt::Display for OrderMistake {
    fn fmt<W: fmt::Write>(&self, f: &mut fmt::Formatter<W>) -> fmt::Result {
        match self {
            OrderMistake::VersionTwice => {
                f.write_str("version 2 stands once, before every other line")
            }
            OrderMistake::RepeatInVersionOne => {
                f.write_str("repeats are of version 2: write version 2 before every other line")
            }
            OrderMistake::NoRepeat => f.write_str("no repeat is open here"),
            OrderMistake::RepeatInRepeat { line } => {
                f.write_str("a repeat contains no other, and the one of line ")?;
                write_decimal(f, *line as u64)?;
                f.write_str(" is open here")
            }
            OrderMistake::NoEnd => f.write_str("the repeat has no end"),
            OrderMistake::TooManyStepsByRepeat => {
                f.write_str("with this repeat the script means more than 16,777,216 steps")
            }
            OrderMistake::TooManySteps => {
                f.write_str("with this step the script means more than 16,777,216 steps")
            }
        }
    }
}
