//! A script that rebuilds a state, and why there is none.

use thiserror::Error;
use vga_bits::Fault;

/// How like the state of a machine the rebuilt state is.
#[derive(Clone, Copy, PartialEq, Eq, Debug)]
pub enum Likeness {
    /// No step tells the two machines apart.
    Same,
    /// Registers, display memory, latches, beam and BIOS data are the same. The frame under way was
    /// drawn otherwise until now.
    SameButForDots,
}

/// The bytes of a script that rebuilds the state of a machine, and how like it the rebuilt state
/// is.
#[derive(Drop)]
pub struct Rebuilt {
    pub script: Vec<u8>,
    pub likeness: Likeness,
}

/// Why there is no script that rebuilds a state.
#[derive(Clone, Copy, PartialEq, Eq, Debug, Error)]
#[error("{}", self.name())]
pub enum NotRebuilt {
    /// An allocation failed.
    OutOfMemory,
    /// The script would have more than 16,777,216 bytes.
    TooLong,
    /// The steps that were tried lead to another state.
    NotLedThere,
}

impl NotRebuilt {
    ghost use Rattle.vga_rebuild.specs.Rebuilt.{not_rebuilt_name};
    ghost use Rattle.std.specs.Prelude.{◌≡◌};

    /// The name: `NotLedThere`.
    pub fn name(&self) -> &'static str
        ensures { result.now ≡ not_rebuilt_name self.now }
    {
        match self {
            NotRebuilt::OutOfMemory => "OutOfMemory",
            NotRebuilt::TooLong => "TooLong",
            NotRebuilt::NotLedThere => "NotLedThere",
        }
    }
}

/// The fault that ended the building or the run of a script. No write fails: what the steps answer
/// is thrown away.
impl From<Fault> for NotRebuilt {
    fn from(fault: Fault) -> NotRebuilt {
        match fault {
            Fault::OutOfMemory => NotRebuilt::OutOfMemory,
            Fault::TooLong | Fault::TooMany(_) => NotRebuilt::TooLong,
            _ => NotRebuilt::NotLedThere,
        }
    }
}
