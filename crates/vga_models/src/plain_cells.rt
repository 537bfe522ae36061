//! The cells of a plain text screen. They are one list, which the height of characters divides into
//! pages. A page shows the first of its cells, row by row, and keeps the others.
ghost use Rattle.std.specs.Prelude.{◌≡◌, ◌<◌};

use crate::plain_screen::{Cell, Place, PlainScreen, Way, Window};
use std::alloc::AllocError;

impl PlainScreen<'_> {
    /// The index of the cell at a position of a page, if the page shows it.
    fn cell_index(&self, page: u8, at: Place) -> Option<usize> {
        let mode = self.mode;
        if page >= mode.pages || at.row >= mode.rows || at.column >= mode.columns {
            return None;
        }
        let number = mode.columns as usize * at.row as usize + at.column as usize;
        Some(mode.distance as usize * page as usize + number)
    }

    /// The cell at a position of a page, if the page shows it. A graphics screen has none.
    pub fn cell(&self, page: u8, at: Place) -> Option<Cell> {
        let i = self.cell_index(page, at)?;
        self.cells.get(i).copied()
    }

    fn set_cell(&mut self, page: u8, at: Place, new: Cell) {
        if let Some(i) = self.cell_index(page, at)
            && let Some(cell) = self.cells.get_mut(i)
        {
            *cell = new;
        }
    }

    /// Shows a character in the cell at a position of a page, with this attribute, or with the one
    /// that the cell has.
    pub fn show_cell(&mut self, page: u8, at: Place, character: u8, attribute: Option<u8>) {
        if let Some(old) = self.cell(page, at) {
            let attribute = attribute.unwrap_or(old.attribute);
            self.set_cell(
                page,
                at,
                Cell {
                    character,
                    attribute,
                },
            );
        }
    }

    /// Moves the rows of a window of a page, and blanks those that are left, in an attribute. By 0
    /// all are blanked.
    pub fn scroll_cells(
        &mut self,
        page: u8,
        window: Window,
        way: Way,
        by: u8,
        attribute: u8,
    ) -> Result<(), AllocError> {
        let old = self.cells.clone()?;
        for row in window.first.row..=window.last.row {
            let source = window.source(way, by, row);
            self.set_row(page, row, window, old.as_slice(), source, attribute);
        }
        Ok(())
    }

    /// Copies the cells of a window from another row into one, or blanks them.
    fn set_row(
        &mut self,
        page: u8,
        row: u8,
        window: Window,
        old: &[Cell],
        source: Option<u8>,
        attribute: u8,
    ) {
        let blank = Cell {
            character: 0x20,
            attribute,
        };
        for column in window.first.column..=window.last.column {
            let cell = self.old_cell(old, page, source, column).unwrap_or(blank);
            self.set_cell(page, Place { row, column }, cell);
        }
    }

    /// The cell that was at a row and a column of a page.
    fn old_cell(&self, old: &[Cell], page: u8, row: Option<u8>, column: u8) -> Option<Cell> {
        let i = self.cell_index(page, Place { row: row?, column })?;
        old.get(i).copied()
    }
}
