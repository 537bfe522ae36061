//! Which BIOS calls a plain screen refuses, and why, after docs/SERVICES.md.
ghost use Rattle.std.specs.Prelude.{◌≡◌, ◌<◌};

use crate::plain_modes::{plain_mode, with_height};
use crate::plain_screen::{CORNER, Place, PlainScreen};
use bios_services::Regs;
use vga_bits::Refusal;

/// The high byte of a register.
pub fn high(register: u16) -> u8 {
    (register / 256) as u8
}

/// The low byte of a register.
pub fn low(register: u16) -> u8 {
    (register % 256) as u8
}

/// A row as the high byte of a register, and a column as its low byte.
pub fn place_of(register: u16) -> Place {
    Place {
        row: high(register),
        column: low(register),
    }
}

/// Whether the function exists, with this AL or BL.
fn is_function(regs: Regs) -> bool {
    let al = low(regs.ax);
    match high(regs.ax) {
        0x00..=0x03 | 0x05..=0x0A | 0x0C..=0x0F => true,
        0x10 => matches!(al, 0x00..=0x03 | 0x07..=0x09 | 0x10 | 0x12 | 0x15 | 0x17..=0x19),
        0x11 => matches!(al, 0x10..=0x12 | 0x14) && low(regs.bx) == 0,
        0x12 => low(regs.bx) == 0x10,
        0x13 => al < 4,
        0x1A => al == 0,
        _ => false,
    }
}

/// Whether glyphs of the block are to be loaded, rather than those of a font.
fn loads_glyphs_of_caller(regs: Regs) -> bool {
    high(regs.ax) == 0x11 && low(regs.ax) == 0x10
}

/// This refusal, if a condition holds.
fn refused_where(is_met: bool, refusal: Refusal) -> Option<Refusal> {
    if is_met { Some(refusal) } else { None }
}

/// How long a block must be, in bytes.
fn wanted_block_length(regs: Regs) -> usize {
    let count = regs.cx as usize;
    match (high(regs.ax), low(regs.ax)) {
        (0x10, 0x02) => 17,
        (0x10, _) => 3 * count,
        (0x11, _) => high(regs.bx) as usize * count,
        (_, 0x02 | 0x03) => 2 * count,
        (_, _) => count,
    }
}

impl PlainScreen<'_> {
    /// The page that BH names.
    pub fn page_of(&self, regs: Regs) -> u8 {
        if self.mode.pages == 1 {
            0
        } else {
            high(regs.bx)
        }
    }

    /// The cursor position on a page.
    pub fn place(&self, page: u8) -> Place {
        match self.places.get(page as usize) {
            Some(place) => *place,
            None => CORNER,
        }
    }

    /// The number of the cell at a position, counted along the rows.
    pub fn cell_number_at(&self, at: Place) -> u32
        ensures { result < 65536 }
    {
        self.mode.columns as u32 * at.row as u32 + at.column as u32
    }

    /// How many cells a page has.
    fn cells(&self) -> u32 {
        self.mode.columns as u32 * self.mode.rows as u32
    }

    /// Whether a position is outside the page.
    fn is_outside(&self, at: Place) -> bool {
        at.row >= self.mode.rows || at.column >= self.mode.columns
    }

    /// Whether the registers name a page that the mode does not have.
    fn is_bad_page(&self, regs: Regs) -> bool {
        match high(regs.ax) {
            0x02 | 0x03 | 0x08..=0x0A | 0x0C | 0x0D | 0x13 => {
                self.page_of(regs) >= self.mode.pages
            }
            0x05 => low(regs.ax) >= self.mode.pages,
            _ => false,
        }
    }

    /// Whether a pixel or a position of the call is outside the page.
    fn is_place_outside(&self, regs: Regs) -> bool {
        let place = self.place(self.page_of(regs));
        match high(regs.ax) {
            0x08..=0x0A => self.cell_number_at(place) >= self.cells(),
            0x0C | 0x0D => self.pixel(0, regs.cx, regs.dx).is_none(),
            0x0E => self.is_outside(self.place(self.page)),
            0x13 => self.is_outside(place_of(regs.dx)),
            _ => false,
        }
    }

    /// Whether the cells to be written go past the page's last, or the characters whose glyphs are
    /// to be loaded past FF.
    fn is_count_past(&self, regs: Regs) -> bool {
        let place = self.place(self.page_of(regs));
        let count = regs.cx as u32;
        match high(regs.ax) {
            0x09 | 0x0A => self.cell_number_at(place) + count > self.cells(),
            0x11 => loads_glyphs_of_caller(regs) && regs.dx as u32 + count > 0x100,
            _ => false,
        }
    }

    /// Whether the call is for a screen of the other kind: for pixels in text, or for glyphs in
    /// graphics.
    fn is_wrong_kind(&self, regs: Regs) -> bool {
        match high(regs.ax) {
            0x0C | 0x0D => self.is_text(),
            0x11 => !self.is_text(),
            _ => false,
        }
    }

    /// Whether glyphs of the block are to be loaded for a height that characters cannot have.
    fn is_bad_height(&self, regs: Regs) -> bool {
        loads_glyphs_of_caller(regs) && with_height(self.mode, high(regs.bx)).is_none()
    }

    /// Why a call of a function that exists is refused, if it is.
    fn function_refusal(&self, regs: Regs, block: &[u8]) -> Option<Refusal> {
        refused_where(is_bad_mode(regs), Refusal::BadMode)
            .or(refused_where(self.is_wrong_kind(regs), Refusal::WrongKind))
            .or(refused_where(self.is_bad_page(regs), Refusal::BadPage))
            .or(refused_where(self.is_place_outside(regs), Refusal::Outside))
            .or(refused_where(self.is_count_past(regs), Refusal::CountPast))
            .or(refused_where(is_bad_register(regs), Refusal::BadRegister))
            .or(refused_where(is_bad_block(regs, block), Refusal::BadBlock))
            .or(refused_where(self.is_bad_height(regs), Refusal::BadHeight))
    }

    /// Why a call is refused, if it is. The first reason counts.
    pub fn refusal(&self, regs: Regs, block: &[u8]) -> Option<Refusal> {
        if is_function(regs) {
            self.function_refusal(regs, block)
        } else {
            Some(Refusal::BadFunction)
        }
    }
}

/// Whether a mode is to be set that does not exist.
fn is_bad_mode(regs: Regs) -> bool {
    high(regs.ax) == 0x00 && plain_mode(low(regs.ax) & 0x7F).is_none()
}

/// Whether the block does not have the length that the call needs, if it takes one.
fn is_bad_block(regs: Regs, block: &[u8]) -> bool {
    let takes_block = matches!(
        (high(regs.ax), low(regs.ax)),
        (0x10, 0x02 | 0x12) | (0x11, 0x10) | (0x13, _)
    );
    takes_block && block.len() != wanted_block_length(regs)
}

/// Whether the registers name a palette register or a DAC entry that does not exist, or blinking by
/// another number than 0 or 1.
fn is_bad_register(regs: Regs) -> bool {
    let first = regs.bx as u32;
    if high(regs.ax) != 0x10 {
        return false;
    }
    match low(regs.ax) {
        0x00 | 0x07 => low(regs.bx) > 0x0F,
        0x03 => low(regs.bx) > 1,
        0x10 | 0x15 => first > 0xFF,
        0x12 | 0x17 => first > 0xFF || first + regs.cx as u32 > 0x100,
        _ => false,
    }
}
