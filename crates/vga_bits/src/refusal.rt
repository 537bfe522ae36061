//! What a refused step returns instead of a value.
ghost use Rattle.std.specs.Prelude.{◌≡◌};

use thiserror::Error;

/// Why a step is refused. A refused step is reported by name and changes nothing, and the script
/// goes on. If several refusals apply, the first one listed here is returned.
#[derive(Clone, Copy, PartialEq, Eq, Debug, Error)]
#[error("{}", self.name())]
pub enum Refusal {
    /// No part of the adapter decodes this port or address.
    NotDecoded,
    /// A register, a value or a port that the adapter has, but this profile leaves out.
    NotInProfile,
    /// A video service before the first mode set.
    NoMode,
    /// A video service, or a part of one, that is not there.
    BadFunction,
    /// A mode set to a mode that is not there.
    BadMode,
    /// A service for pixels in a text mode, or one for text in a graphics mode.
    WrongKind,
    /// A page that the mode does not have.
    BadPage,
    /// A pixel or a cell outside the screen.
    Outside,
    /// A count that runs past the last cell of the page.
    CountPast,
    /// A palette or DAC register that is not there.
    BadRegister,
    /// A table whose length is not the one that the service takes.
    BadBlock,
    /// More dots than one step may advance.
    TooFar,
    /// A character height for which there is no font.
    BadHeight,
}

impl Refusal {
    ghost use Rattle.vga_bits.specs.Refusal.{refusal_name};

    /// The number and the name, as a report shows them: `E1 NotDecoded`.
    pub fn name(&self) -> &'static str
        ensures { result.now ≡ refusal_name self.now }
    {
        match self {
            Refusal::NotDecoded => "E1 NotDecoded",
            Refusal::NotInProfile => "E2 NotInProfile",
            Refusal::NoMode => "E3 NoMode",
            Refusal::BadFunction => "E4 BadFunction",
            Refusal::BadMode => "E5 BadMode",
            Refusal::WrongKind => "E6 WrongKind",
            Refusal::BadPage => "E7 BadPage",
            Refusal::Outside => "E8 Outside",
            Refusal::CountPast => "E9 CountPast",
            Refusal::BadRegister => "E10 BadRegister",
            Refusal::BadBlock => "E11 BadBlock",
            Refusal::TooFar => "E12 TooFar",
            Refusal::BadHeight => "E13 BadHeight",
        }
    }
}
