//! Reasons in words.

mod calls;
mod cycles;

use crate::digits::Hex;
use crate::reason::Reason;
use std::fmt::{self, Display, Formatter, Write};

/// What to do where no mode is set.
const NO_MODE_SET: &str =
    "No mode is set yet. `int ax=3` sets text of 80 by 25 cells, `int ax=13` 256 colours.";

impl Display for Reason {
    fn fmt<W: Write>(&self, f: &mut Formatter<W>) -> fmt::Result {
        match self {
            Reason::Cycle { reason, .. } => reason.fmt(f),
            Reason::Call { reason } => calls::write_call_reason(f, *reason),
            Reason::TooManyDots { .. } => { f.write_str("An advance has at most 16,777,216 dots.") }
            Reason::NoCellsYet => f.write_str(NO_MODE_SET),
            Reason::NoCells { mode } => {
                let mode = Hex::byte(*mode);
                write!(f, "Mode {mode} is graphics, which has no cells to show.")
            }
        }
    }
}
