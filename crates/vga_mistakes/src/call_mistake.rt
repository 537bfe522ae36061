//! What is wrong with the registers of a call.

use super::register::Register;
use super::sentence::{write_quoted, write_word};
use std::fmt;

/// What is wrong with the registers of a call.
#[derive(Clone, Copy, PartialEq, Eq, Debug)]
pub enum CallMistake<'a> {
    /// A call takes no such register.
    NoSuchRegister {
        /// The register of which it is a half.
        half_of: Option<Register>,
    },
    /// The register before it is the same.
    Twice {
        /// The register.
        register: Register,
    },
    /// The register stands after a later one.
    Order,
    /// A blank stands before or after the equals sign.
    BlankAroundEquals {
        /// The register.
        register: Register,
        /// Its value.
        value: &'a [u8],
    },
    /// The register has no value.
    NoValue {
        /// The register.
        register: Register,
    },
    /// A number stands alone, as that of an interrupt.
    Number,
    /// It is no register.
    NoRegister {
        /// The word.
        word: &'a [u8],
    },
}

impl fmt::Display for CallMistake<'_> {
    fn fmt<W: fmt::Write>(&self, f: &mut fmt::Formatter<W>) -> fmt::Result {
        match self {
            CallMistake::NoSuchRegister { half_of } => {
                f.write_str("a call takes ax, bx, cx and dx")?;
                if let Some(register) = half_of {
                    f.write_str("; its halves are no registers of their own: write ")?;
                    f.write_str(register.name())?;
                }
                Ok(())
            }
            CallMistake::Twice { register } => {
                f.write_str(register.name())?;
                f.write_str(" stands twice")
            }
            CallMistake::Order => f.write_str("registers stand in the order ax, bx, cx, dx"),
            CallMistake::BlankAroundEquals { register, value } => {
                f.write_str("no blank stands around =: write ")?;
                f.write_str(register.name())?;
                f.write_str("=")?;
                write_word(f, value)
            }
            CallMistake::NoValue { register } => {
                f.write_str(register.name())?;
                f.write_str(" has no value: write ")?;
                f.write_str(register.name())?;
                f.write_str("=0")
            }
            CallMistake::Number => f.write_str(
                "a call is always interrupt 10, and its numbers stand after their registers: ax=3",
            ),
            CallMistake::NoRegister { word } => {
                write_quoted(f, word)?;
                f.write_str(" is no register; a call has ax=, bx=, cx=, dx= and block")
            }
        }
    }
}
