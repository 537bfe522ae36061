//! What the dots ahead of the beam on its line may fetch. This file serves speed alone: who keeps
//! it needs no look at the registers to know that a write is not seen.
ghost use Rattle.vga_card.specs.Card.{CardState};
ghost use Rattle.vga_card.specs.LineAhead.{IsLineAhead};

use vga_host::OffsetRun;

/// Dots ahead of the beam on its line, and the offsets that those of them which are displayed may
/// fetch. It holds until the beam moves, or a register of the CRT controller or the width of
/// characters changes.
#[derive(Clone, Copy)]
pub struct LineAhead {
    /// How many of the next dots it tells of. Of 0 dots nothing is known.
    pub dots: u32,
    /// The offsets in each plane that they may fetch.
    pub fetched: OffsetRun,
}

impl LineAhead {
    /// Nothing is known. It holds of every adapter.
    pub fn unknown() -> LineAhead
        ensures { (c : CardState) → IsLineAhead result c }
    {
        LineAhead {
            dots: 0,
            fetched: OffsetRun { first: 0, count: 0 },
        }
    }
}
