//! Why a step is refused.
ghost use Rattle.std.specs.Prelude.{◌≡◌};
ghost use Rattle.vga_explain.specs.Reasons.{refusal_of};

use crate::cycle_reason::CycleReason;
use bios_services::CallReason;
use vga_bits::Refusal;

/// Why a step is refused.
#[derive(Clone, Copy, PartialEq, Eq, Debug)]
pub enum Reason {
    /// A cycle is. Of a word, `is_high` says that the reason is one of its high byte, which is
    /// judged after the low one is moved.
    Cycle { is_high: bool, reason: CycleReason },
    /// A call of the video BIOS is.
    Call { reason: CallReason },
    /// An advance of more dots than a step may have.
    TooManyDots { dots: u32, most: u32 },
    /// No mode is set, so there are no cells to show.
    NoCellsYet,
    /// The mode is graphics, which has no cells to show.
    NoCells { mode: u8 },
}

impl Reason {
    /// The refusal that it explains.
    pub fn refusal(self) -> Refusal
        ensures { result ≡ refusal_of self }
    {
        match self {
            Reason::Cycle { reason, .. } => reason.refusal(),
            Reason::Call { reason } => reason.refusal(),
            Reason::TooManyDots { .. } => Refusal::TooFar,
            Reason::NoCellsYet => Refusal::NoMode,
            Reason::NoCells { .. } => Refusal::WrongKind,
        }
    }
}
