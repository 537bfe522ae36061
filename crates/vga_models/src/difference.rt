//! What differs between an adapter and a plain screen.
ghost use Rattle.std.specs.Prelude.{◌≡◌, ◌<◌};

use bios_services::Regs;
use vga_card::Drawn;

/// What first differs between the adapter and the plain screen.
#[derive(Clone, Copy, Debug)]
pub enum Difference {
    /// The answer to a BIOS call: registers, table or refusal.
    Answer(Regs),
    /// The answer to an advance by this many dots.
    Advance(u32),
    /// The size of a picture, or that it is ragged.
    Shape,
    /// This byte of a picture.
    Dot(usize),
    /// No screen is shown, or one of another mode.
    Unshown,
    /// The cell or pixel at a row and a column of a page.
    Spot(u8, u16, u16),
    /// The cursor of a page.
    Cursor(u8),
    /// A function and subfunction that ended too seldom in one of its ways.
    Seldom(u8, u8),
    /// A mode and a height of its characters in which too few frames were drawn.
    SeldomDrawn(u8, u8),
}

impl Difference {
    /// A call that was met too seldom; or else a mode with too few frames, if there is one.
    pub fn of_calls_met_too_seldom(
        call: Option<(u8, u8)>,
        frame: Option<(u8, u8)>,
    ) -> Option<Difference> {
        call.map(|(function, part)| Difference::Seldom(function, part))
            .or(frame.map(|(mode, height)| Difference::SeldomDrawn(mode, height)))
    }
}

/// The first byte that differs.
fn differing_byte(bytes: &[u8], wanted: &[u8]) -> Option<usize> {
    if bytes == wanted {
        return None;
    }
    for i in 0..bytes.len() {
        if bytes.get(i) != wanted.get(i) {
            return Some(i);
        }
    }
    Some(bytes.len())
}

/// What differs between a picture and one of this size and these bytes.
pub fn picture_difference(drawn: Drawn<'_>, size: (u32, u32), wanted: &[u8]) -> Option<Difference> {
    match drawn {
        Drawn::Picture(width, height, bytes) if (width, height) == size => {
            differing_byte(bytes, wanted).map(Difference::Dot)
        }
        Drawn::Picture(..) | Drawn::Ragged => Some(Difference::Shape),
    }
}
