//! The plain screen: what it is, and what a mode set leaves. It was written from docs/SCREENS.md.
//! It shares only the registers of a call and the refusals with the crates under test.
ghost use Rattle.std.specs.Prelude.{◌≡◌, ◌<◌};

use crate::plain_glyphs::{Glyphs, tall_glyphs};
use crate::plain_modes::{Kind, PlainMode, default_colour};
use std::alloc::{AllocError, Global};

/// How many cells a screen of text has, on all its pages, shown or not.
const CELLS: usize = 16_384;

/// A cell of text: its character and its attribute.
#[derive(Clone, Copy)]
pub struct Cell {
    pub character: u8,
    pub attribute: u8,
}

/// The cell that a mode set leaves everywhere.
const FIRST_CELL: Cell = Cell {
    character: 0x20,
    attribute: 0x07,
};

/// A line of pixels.
pub type Line = Vec<u8>;

/// A row of characters in graphics: a line of pixels for each scan line.
pub type Strip = Vec<Line>;

/// The rows of characters of a page of pixels.
pub type Page = Vec<Strip>;

/// A row and a column of characters.
#[derive(Clone, Copy)]
pub struct Place {
    pub row: u8,
    pub column: u8,
}

/// The upper left corner of a page.
pub const CORNER: Place = Place { row: 0, column: 0 };

/// Rows and columns from the first to the last.
#[derive(Clone, Copy)]
pub struct Window {
    pub first: Place,
    pub last: Place,
}

/// Which rows of a window are moved into which.
#[derive(Clone, Copy)]
pub enum Way {
    Up,
    Down,
}

impl Window {
    /// The row of a window that is moved into this row, if the rows move by `by`. By 0 all are left
    /// blank.
    pub fn source(self, way: Way, by: u8, row: u8) -> Option<u8> {
        match way {
            _ if by == 0 => None,
            Way::Up => row.checked_add(by).filter(|from| *from <= self.last.row),
            Way::Down => row.checked_sub(by).filter(|from| *from >= self.first.row),
        }
    }
}

/// A screen of one of the six modes, with a font file.
#[derive(Drop)]
pub struct PlainScreen<'a> {
    pub alloc: Global,
    pub font: &'a [u8],
    /// The mode; for text, with the height of its characters.
    pub mode: PlainMode,
    /// Text: all cells in one list, page after page. Graphics: none.
    pub cells: Vec<Cell>,
    /// Graphics: the pixels of each page. Text: none.
    pub pages: Vec<Page>,
    /// The glyphs of text. Graphics do not use them.
    pub glyphs: Glyphs,
    pub places: [Place; 8],
    pub cursor_type: u16,
    pub page: u8,
    pub palette: [u8; 16],
    pub dac: [[u8; 3]; 256],
    pub mask: u8,
    pub overscan: u8,
    pub blinks: bool,
    pub frame: u8,
}

/// A row of characters in graphics whose pixels are all 0.
fn blank_strip(alloc: Global, width: usize, height: u8) -> Result<Strip, AllocError> {
    let mut strip = Vec::new(alloc);
    for _ in 0..height {
        strip.push(vec![in alloc; 0u8; width]?)?;
    }
    Ok(strip)
}

/// A page whose pixels are all 0.
fn blank_page(alloc: Global, mode: PlainMode) -> Result<Page, AllocError> {
    let width = 8 * mode.columns as usize;
    let mut page = Vec::new(alloc);
    for _ in 0..mode.rows {
        page.push(blank_strip(alloc, width, mode.height)?)?;
    }
    Ok(page)
}

/// The pages of graphics as a mode set leaves them; text has none.
fn blank_pages(alloc: Global, mode: PlainMode) -> Result<Vec<Page>, AllocError> {
    let count = if mode.kind == Kind::Text {
        0
    } else {
        mode.pages
    };
    let mut pages = Vec::new(alloc);
    for _ in 0..count {
        pages.push(blank_page(alloc, mode)?)?;
    }
    Ok(pages)
}

/// The cells of text as a mode set leaves them; graphics have none.
fn blank_cells(alloc: Global, mode: PlainMode) -> Result<Vec<Cell>, AllocError> {
    let count = if mode.kind == Kind::Text { CELLS } else { 0 };
    Ok(vec![in alloc; FIRST_CELL; count]?)
}

/// The entries of the DAC as a mode set leaves them.
fn default_dac(mode: u8) -> [[u8; 3]; 256] {
    let mut dac = [[0; 3]; 256];
    for n in 0..=0xFFu8 {
        dac[n as usize] = default_colour(mode, n);
    }
    dac
}

impl<'a> PlainScreen<'a> {
    /// The screen after a mode set that clears the memory.
    pub fn fresh(
        alloc: Global,
        font: &'a [u8],
        mode: PlainMode,
        frame: u8,
    ) -> Result<PlainScreen<'a>, AllocError> {
        Ok(PlainScreen {
            alloc,
            font,
            mode,
            cells: blank_cells(alloc, mode)?,
            pages: blank_pages(alloc, mode)?,
            glyphs: tall_glyphs(font),
            places: [CORNER; 8],
            cursor_type: mode.cursor_type,
            page: 0,
            palette: mode.palette,
            dac: default_dac(mode.number),
            mask: 0xFF,
            overscan: 0,
            blinks: mode.kind == Kind::Text,
            frame,
        })
    }

    /// Whether it is a text screen.
    pub fn is_text(&self) -> bool {
        self.mode.kind == Kind::Text
    }

    /// The whole page.
    pub fn whole(&self) -> Window {
        Window {
            first: CORNER,
            last: Place {
                row: self.mode.rows.saturating_sub(1),
                column: self.mode.columns.saturating_sub(1),
            },
        }
    }
}
