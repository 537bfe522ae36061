//! What ends a run.
ghost use Rattle.std.specs.Prelude.{◌≡◌, ◌++◌, ◌+◌, ◌≤◌, ◌∷◌, [], length, codes, decimal};
ghost use Rattle.arrayvec.specs.ArrayString.{array_string_len};

use arrayvec::ArrayString;
use itoa::Buffer;
use thiserror::Error;

/// Why a run ends before its script does. The faults listed before `WriteFault`, and `TooMany`,
/// occur before the first byte of a report is written.
#[derive(Clone, Copy, PartialEq, Eq, Debug, Error)]
#[error("{}", self.name())]
pub enum Fault {
    /// The font file does not have 9,728 bytes.
    FontSize,
    /// The script does not begin with `VGAS`.
    BadMagic,
    /// The script has another version.
    BadVersion,
    /// The bytes at this offset of the script are no step, or a step out of range.
    BadStep(usize),
    /// The step at this offset of the script is cut off. The offset counts bytes.
    Truncated(usize),
    /// The script has more than 16,777,216 bytes.
    TooLong,
    /// This line of the text, counted from 1, is no step.
    BadLine(usize),
    /// A file could not be opened or read.
    ReadFault,
    /// A file could not be created or written.
    WriteFault,
    /// A request for memory was refused.
    OutOfMemory,
    /// The script means more than 16,777,216 steps. The step or block at this offset, in bytes,
    /// exceeds the limit.
    TooMany(usize),
}

/// Room for the longest name of a fault: 13 bytes, a number of at most 20 digits, and one byte.
const NAME_LEN: usize = 34;

/// The name of a fault.
pub type FaultName = ArrayString<NAME_LEN>;

/// A name that ends with a number in parentheses. `prefix` contains everything before the number.
fn name_with_number(prefix: &str, number: usize) -> FaultName
    requires { length prefix.now ≤ 13 }
    ensures { result.bytes ≡ prefix.now ++ (decimal number ++ codes ")") }
{
    let mut name = FaultName::new();
    let mut digits = Buffer::new();
    name.push_str(prefix);
    name.push_str(digits.format(number));
    name.push_str(")");
    name
}

/// A name with no number.
fn name_without_number(text: &str) -> FaultName
    requires { length text.now ≤ 34 }
    ensures { result.bytes ≡ text.now }
{
    let mut name = FaultName::new();
    name.push_str(text);
    name
}

impl Fault {
    ghost use Rattle.vga_bits.specs.Fault.{fault_text};

    /// The fault's number and name, and its offset or line in decimal if it has one: `F1 FontSize`,
    /// `F4 BadStep(9)`.
    pub fn name(&self) -> FaultName
        ensures { result.bytes ≡ fault_text self.now }
    {
        match self {
            Fault::FontSize => name_without_number("F1 FontSize"),
            Fault::BadMagic => name_without_number("F2 BadMagic"),
            Fault::BadVersion => name_without_number("F3 BadVersion"),
            Fault::BadStep(at) => name_with_number("F4 BadStep(", *at),
            Fault::Truncated(at) => name_with_number("F5 Truncated(", *at),
            Fault::TooLong => name_without_number("F6 TooLong"),
            Fault::BadLine(line) => name_with_number("F7 BadLine(", *line),
            Fault::ReadFault => name_without_number("F8 ReadFault"),
            Fault::WriteFault => name_without_number("F9 WriteFault"),
            Fault::OutOfMemory => name_without_number("F10 OutOfMemory"),
            Fault::TooMany(at) => name_with_number("F11 TooMany(", *at),
        }
    }
}
