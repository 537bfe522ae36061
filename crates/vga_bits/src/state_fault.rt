//! Why some bytes are not a saved state.
ghost use Rattle.std.specs.Prelude.{◌≡◌};

use thiserror::Error;

/// Why some bytes are not a saved state. If several faults apply, the first one listed here is
/// returned.
#[derive(Clone, Copy, PartialEq, Eq, Debug, Error)]
#[error("{}", self.name())]
pub enum StateFault {
    /// The bytes do not begin with the mark of saved states.
    BadMagic,
    /// The bytes have another version of the format.
    BadVersion,
    /// The number of bytes is not the one that they state, or is smaller than any state's.
    BadLength,
    /// Some part of the bytes is no state that its part of the adapter could have.
    BadPart,
}

impl StateFault {
    ghost use Rattle.vga_bits.specs.StateFault.{state_fault_name};

    /// The name: `BadMagic`.
    pub fn name(&self) -> &'static str
        ensures { result.now ≡ state_fault_name self.now }
    {
        match self {
            StateFault::BadMagic => "BadMagic",
            StateFault::BadVersion => "BadVersion",
            StateFault::BadLength => "BadLength",
            StateFault::BadPart => "BadPart",
        }
    }
}
