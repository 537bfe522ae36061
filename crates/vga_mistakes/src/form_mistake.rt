//! Too few words in a line, or too many.

use super::form::Form;
use super::number::Number;
use std::fmt;

/// Too few words in a line, or too many.
#[derive(Clone, Copy, PartialEq, Eq, Debug)]
pub enum FormMistake {
    /// A number is lacking.
    Lacking {
        /// What the line begins with.
        form: Form,
        /// The first number that is lacking.
        number: Number,
    },
    /// A word stands after the last number.
    TooMany {
        /// What the line begins with.
        form: Form,
    },
    /// That word begins a line of its own.
    SecondStep,
}

impl fmt::Display for FormMistake {
    fn fmt<W: fmt::Write>(&self, f: &mut fmt::Formatter<W>) -> fmt::Result {
        match self {
            FormMistake::Lacking { form, number } => {
                f.write_str(number.name())?;
                f.write_str(" is lacking: ")?;
                fmt::Display::fmt(form, f)
            }
            FormMistake::TooMany { form } => {
                f.write_str("a word too many: ")?;
                fmt::Display::fmt(form, f)
            }
            FormMistake::SecondStep => { f.write_str("a word too many: one step stands on a line") }
        }
    }
}
