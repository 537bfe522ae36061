//! What each BIOS call does to a plain screen, and what it answers, after docs/SCREENS.md.
ghost use Rattle.std.specs.Prelude.{◌≡◌, ◌<◌};

use crate::plain_modes::plain_mode;
use crate::plain_refusals::{high, low, place_of};
use crate::plain_screen::{Place, PlainScreen, Way, Window};
use bios_services::Regs;
use std::alloc::AllocError;
use vga_bits::Refusal;

/// What a call answers: the four registers, and the bytes of a table. Most have no table.
#[derive(Drop)]
pub struct PlainReply {
    pub regs: Regs,
    pub table: Vec<u8>,
}

/// A register of two bytes.
fn word(high: u8, low: u8) -> u16 {
    256 * high as u16 + low as u16
}

/// A position as a register: the row is the high byte.
fn register_of(at: Place) -> u16 {
    word(at.row, at.column)
}

impl PlainScreen<'_> {
    /// Makes a call: returns its answer, or its refusal, which leaves the screen as it is.
    pub fn call(
        &mut self,
        regs: Regs,
        block: &[u8],
    ) -> Result<Result<PlainReply, Refusal>, AllocError> {
        if let Some(refusal) = self.refusal(regs, block) {
            return Ok(Err(refusal));
        }
        let table = self.table(regs)?;
        self.change(regs, block)?;
        let regs = self.answer(regs);
        Ok(Ok(PlainReply { regs, table }))
    }

    /// Changes the screen as a call does that is not refused.
    fn change(&mut self, regs: Regs, block: &[u8]) -> Result<(), AllocError> {
        let page = self.page_of(regs);
        match high(regs.ax) {
            0x00 => self.set_mode(low(regs.ax))?,
            0x01 => self.cursor_type = regs.cx,
            0x02 => self.set_cursor_place_on_page(page, place_of(regs.dx)),
            0x05 => self.page = low(regs.ax),
            0x06 => self.scroll_rows_of_window(regs, Way::Up)?,
            0x07 => self.scroll_rows_of_window(regs, Way::Down)?,
            0x09 => self.write_cells(regs, false),
            0x0A => self.write_cells(regs, true),
            0x0C => self.set_pixel(page, regs.cx, regs.dx, low(regs.ax)),
            0x0E => self.type_one(regs)?,
            0x10 => self.set_colours(regs, block),
            0x11 => self.load_glyphs(regs, block),
            0x13 => self.type_string(regs, block)?,
            _ => (),
        }
        Ok(())
    }

    fn set_mode(&mut self, number: u8) -> Result<(), AllocError> {
        if let Some(mode) = plain_mode(number) {
            *self = PlainScreen::fresh(self.alloc, self.font, mode, self.frame)?;
        }
        Ok(())
    }

    fn set_cursor_place_on_page(&mut self, page: u8, at: Place) {
        if let Some(place) = self.places.get_mut(page as usize) {
            *place = at;
        }
    }

    /// Moves a window, which is cut to the page. A window without rows or columns changes nothing.
    fn scroll_rows_of_window(&mut self, regs: Regs, way: Way) -> Result<(), AllocError> {
        let first = place_of(regs.cx);
        let corner = place_of(regs.dx);
        let end = self.whole().last;
        let last = Place {
            row: corner.row.min(end.row),
            column: corner.column.min(end.column),
        };
        if first.row > last.row || first.column > last.column {
            return Ok(());
        }
        let window = Window { first, last };
        self.scroll(self.page, window, way, low(regs.ax), high(regs.bx))
    }

    /// Writes a character to CX cells from the cursor on, row by row.
    fn write_cells(&mut self, regs: Regs, keeps: bool) {
        let page = self.page_of(regs);
        let start = self.cell_number_at(self.place(page));
        let columns = self.mode.columns.max(1) as u32;
        for i in 0..regs.cx as u32 {
            let number = start + i;
            let at = Place {
                row: (number / columns).min(0xFF) as u8,
                column: (number % columns) as u8,
            };
            self.show(page, at, low(regs.ax), low(regs.bx), keeps);
        }
    }

    /// Types a character at the cursor of the active page.
    fn type_one(&mut self, regs: Regs) -> Result<(), AllocError> {
        let page = self.page;
        let at = self.place(page);
        let behind = self.typed(page, at, low(regs.ax), low(regs.bx), true)?;
        self.set_cursor_place_on_page(page, behind);
        Ok(())
    }

    /// Types a string. If AL has bit 1, each character has its own attribute or colour. If AL has
    /// bit 0, the cursor goes after the string.
    fn type_string(&mut self, regs: Regs, block: &[u8]) -> Result<(), AllocError> {
        let page = self.page_of(regs);
        let has_colours = low(regs.ax) & 2 == 2;
        let mut at = place_of(regs.dx);
        for character in block.chunks_exact(if has_colours { 2 } else { 1 }) {
            let (code, colour) = match character {
                [code, colour] => (*code, *colour),
                [code] => (*code, low(regs.bx)),
                _ => continue,
            };
            at = self.typed(page, at, code, colour, false)?;
        }
        if low(regs.ax) & 1 == 1 {
            self.set_cursor_place_on_page(page, at);
        }
        Ok(())
    }
}

/// Colours.
impl PlainScreen<'_> {
    fn set_colours(&mut self, regs: Regs, block: &[u8]) {
        let value = high(regs.bx);
        let number = low(regs.bx);
        match low(regs.ax) {
            0x00 => self.set_palette(number, value),
            0x01 => self.overscan = value,
            0x02 => self.set_whole_palette(block),
            0x03 => self.blinks = number == 1,
            0x10 => self.set_entry(
                regs.bx as usize,
                [high(regs.dx), high(regs.cx), low(regs.cx)],
            ),
            0x12 => self.set_entries(regs.bx as usize, block),
            0x18 => self.mask = number,
            _ => (),
        }
    }

    fn set_palette(&mut self, i: u8, v: u8) {
        if let Some(value) = self.palette.get_mut(i as usize) {
            *value = v & 0x3F;
        }
    }

    /// Sets the sixteen palette registers, and the overscan colour.
    fn set_whole_palette(&mut self, block: &[u8]) {
        for i in 0..16u8 {
            if let Some(v) = block.get(i as usize) {
                self.set_palette(i, *v);
            }
        }
        if let Some(v) = block.get(16) {
            self.overscan = *v;
        }
    }

    fn set_entry(&mut self, i: usize, colour: [u8; 3]) {
        if let Some(entry) = self.dac.get_mut(i) {
            *entry = [colour[0] & 0x3F, colour[1] & 0x3F, colour[2] & 0x3F];
        }
    }

    /// Sets entries of the DAC from `first` on: red, green and blue of each.
    fn set_entries(&mut self, first: usize, block: &[u8]) {
        let mut i = first;
        for colour in block.chunks_exact(3) {
            if let [red, green, blue] = colour {
                self.set_entry(i, [*red, *green, *blue]);
            }
            i = i.saturating_add(1);
        }
    }

    fn entry(&self, i: usize) -> [u8; 3] {
        self.dac.get(i).copied().unwrap_or([0; 3])
    }
}

/// Answers.
impl PlainScreen<'_> {
    /// The bytes of the table that a call answers. Most have none.
    fn table(&self, regs: Regs) -> Result<Vec<u8>, AllocError> {
        let mut table = Vec::new(self.alloc);
        match (high(regs.ax), low(regs.ax)) {
            (0x10, 0x09) => {
                table.extend_from_slice(&self.palette)?;
                table.push(self.overscan)?;
            }
            (0x10, 0x17) => self.push_entries(regs, &mut table)?,
            _ => (),
        }
        Ok(table)
    }

    /// Appends red, green and blue of CX entries of the DAC, from the one in BX on.
    fn push_entries(&self, regs: Regs, table: &mut Vec<u8>) -> Result<(), AllocError> {
        for i in 0..regs.cx as usize {
            table.extend_from_slice(&self.entry(regs.bx as usize + i))?;
        }
        Ok(())
    }

    /// The registers that a call answers.
    fn answer(&self, regs: Regs) -> Regs {
        let Regs { ax, bx, cx, dx } = regs;
        let page = self.page_of(regs);
        match high(ax) {
            0x03 => Regs {
                cx: self.cursor_type,
                dx: register_of(self.place(page)),
                ..regs
            },
            0x08 => Regs {
                ax: self.read_cell(page, high(ax)),
                ..regs
            },
            0x0D => Regs {
                ax: word(0x0D, self.pixel(page, cx, dx).unwrap_or(0)),
                ..regs
            },
            0x0F => Regs {
                ax: word(self.mode.columns, self.mode.number),
                bx: word(self.page, low(bx)),
                ..regs
            },
            0x10 => self.colour_answer(regs),
            0x12 => Regs {
                bx: if self.mode.number == 7 {
                    0x0103
                } else {
                    0x0003
                },
                cx: 0x0009,
                ..regs
            },
            0x1A => Regs {
                ax: word(0x1A, 0x1A),
                bx: 0x0008,
                ..regs
            },
            _ => regs,
        }
    }

    /// Attribute and character of the cell at the cursor; in graphics only the character.
    fn read_cell(&self, page: u8, ah: u8) -> u16 {
        let number = self.cell_number_at(self.place(page));
        let columns = self.mode.columns.max(1) as u32;
        let at = Place {
            row: (number / columns).min(0xFF) as u8,
            column: (number % columns) as u8,
        };
        match self.cell(page, at) {
            Some(cell) => word(cell.attribute, cell.character),
            None => word(ah, self.character_at(page, at)),
        }
    }

    fn colour_answer(&self, regs: Regs) -> Regs {
        let Regs { ax, bx, cx, dx } = regs;
        let number = low(bx);
        match low(ax) {
            0x07 => {
                let value = self.palette.get(number as usize).copied().unwrap_or(0);
                Regs {
                    ax,
                    bx: word(value, number),
                    cx,
                    dx,
                }
            }
            0x08 => Regs {
                ax,
                bx: word(self.overscan, number),
                cx,
                dx,
            },
            0x15 => {
                let [red, green, blue] = self.entry(bx as usize);
                Regs {
                    ax,
                    bx,
                    cx: word(green, blue),
                    dx: word(red, low(dx)),
                }
            }
            0x19 => Regs {
                ax,
                bx: word(high(bx), self.mask),
                cx,
                dx,
            },
            _ => regs,
        }
    }
}
