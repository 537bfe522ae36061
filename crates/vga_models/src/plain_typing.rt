//! Showing and typing characters on a plain screen, and moving its rows, after docs/SCREENS.md.
ghost use Rattle.std.specs.Prelude.{◌≡◌, ◌<◌};

use crate::plain_screen::{Place, PlainScreen, Way, Window};
use std::alloc::AllocError;

impl PlainScreen<'_> {
    /// Shows a character at a position of a page: in text as a cell, with this attribute or with
    /// the one that the cell has; in graphics as its glyph in a colour.
    pub fn show(&mut self, page: u8, at: Place, character: u8, colour: u8, keeps: bool) {
        if self.is_text() {
            self.show_cell(page, at, character, if keeps { None } else { Some(colour) });
        } else {
            self.show_glyph(page, at, character, colour);
        }
    }

    /// Moves the rows of a window of a page, and blanks those that are left, in an attribute or a
    /// colour. By 0 all are blanked.
    pub fn scroll(
        &mut self,
        page: u8,
        window: Window,
        way: Way,
        by: u8,
        colour: u8,
    ) -> Result<(), AllocError> {
        if self.is_text() {
            self.scroll_cells(page, window, way, by, colour)
        } else {
            self.scroll_pixels(page, window, way, by, colour)
        }
    }

    /// The row below. Below the last row the page goes up by one, and the row is the last again.
    fn row_below(&mut self, page: u8, at: Place) -> Result<u8, AllocError> {
        let last = self.whole().last.row;
        if at.row < last {
            return Ok(at.row + 1);
        }
        let colour = match self.cell(page, Place { row: last, ..at }) {
            Some(cell) => cell.attribute,
            None => 0,
        };
        self.scroll(page, self.whole(), Way::Up, 1, colour)?;
        Ok(last)
    }

    /// The next position: the next column, or after the last column the first of the row below.
    fn place_behind(&mut self, page: u8, at: Place) -> Result<Place, AllocError> {
        let Place { row, column } = at;
        if column < self.whole().last.column {
            return Ok(Place {
                row,
                column: column + 1,
            });
        }
        let row = self.row_below(page, at)?;
        Ok(Place { row, column: 0 })
    }

    /// Types a character at a position of a page, and returns the next position.
    pub fn typed(
        &mut self,
        page: u8,
        at: Place,
        character: u8,
        colour: u8,
        keeps: bool,
    ) -> Result<Place, AllocError> {
        let Place { row, column } = at;
        match character {
            0x07 => Ok(at),
            0x08 => Ok(Place {
                row,
                column: column.saturating_sub(1),
            }),
            0x0A => {
                let row = self.row_below(page, at)?;
                Ok(Place { row, column })
            }
            0x0D => Ok(Place { row, column: 0 }),
            _ => {
                self.show(page, at, character, colour, keeps);
                self.place_behind(page, at)
            }
        }
    }
}
