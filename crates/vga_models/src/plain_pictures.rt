//! The picture of a plain screen, dot by dot, after docs/SCREENS.md.
ghost use Rattle.std.specs.Prelude.{◌≡◌, ◌<◌};

use crate::plain_modes::Kind;
use crate::plain_refusals::{high, low};
use crate::plain_screen::{Line, Place, PlainScreen, Strip};
use std::alloc::AllocError;

/// The size of a picture in dots, and red, green and blue of each dot, row after row.
#[derive(Drop)]
pub struct PlainPicture {
    pub width: u32,
    pub height: u32,
    pub bytes: Vec<u8>,
}

/// A cell on the screen, and the scan line of it that is drawn.
#[derive(Clone, Copy)]
struct ScannedCell {
    character: u8,
    attribute: u8,
    is_cursor: bool,
    line: u8,
}

impl PlainScreen<'_> {
    /// Red, green and blue of the colour number of a cell or a pixel.
    fn colour_of(&self, n: u8) -> [u8; 3] {
        let named = match self.mode.kind {
            Kind::Text | Kind::SixteenColours => self.palette[(n & 0x0F) as usize],
            Kind::Colours256 => n,
        };
        self.dac[(named & self.mask) as usize]
    }

    /// Red, green and blue of each colour.
    fn colours(&self) -> [[u8; 3]; 256] {
        let mut colours = [[0; 3]; 256];
        for n in 0..=0xFFu8 {
            colours[n as usize] = self.colour_of(n);
        }
        colours
    }

    /// Whether a dot of a cell has the foreground colour.
    fn is_foreground(&self, cell: ScannedCell, dots: u8, i: u8) -> bool
        requires { i < 9 }
    {
        let is_gone = self.blinks && cell.attribute >= 0x80 && self.frame >= 16;
        let is_glyph = if i < 8 {
            (dots >> (7 - i)) & 1 == 1
        } else {
            cell.character >= 0xC0 && cell.character <= 0xDF && dots & 1 == 1
        };
        self.is_cursor_line(cell) || (!is_gone && (self.is_underlined(cell) || is_glyph))
    }

    /// Whether the cursor is shown on a scan line of a cell.
    fn is_cursor_line(&self, cell: ScannedCell) -> bool {
        let first = high(self.cursor_type);
        let last = low(self.cursor_type) & 0x1F;
        let is_within = first & 0x1F <= cell.line && cell.line <= last;
        let is_shown = first & 0x20 == 0 && self.frame & 8 == 0;
        cell.is_cursor && is_within && is_shown
    }

    /// Whether a scan line of a cell is an underline.
    fn is_underlined(&self, cell: ScannedCell) -> bool {
        self.mode.number == 7
            && cell.line == self.mode.height.saturating_sub(1)
            && cell.attribute & 0x77 == 0x01
    }

    /// The dots of a scan line of a character of text.
    fn glyph_line(&self, character: u8, line: u8) -> u8 {
        let glyph = self.glyphs[character as usize];
        if line < 16 { glyph[line as usize] } else { 0 }
    }

    /// The colour of a dot of a scan line of a cell.
    fn cell_dot(&self, cell: ScannedCell, i: u8) -> u8
        requires { i < 9 }
    {
        let dots = self.glyph_line(cell.character, cell.line);
        let high_bits = cell.attribute >> 4;
        if self.is_foreground(cell, dots, i) {
            cell.attribute & 0x0F
        } else if self.blinks {
            high_bits & 7
        } else {
            high_bits
        }
    }

    /// Draws nine dots of a scan line of a cell.
    fn draw_scan_line_of_cell(
        &self,
        colours: &[[u8; 3]; 256],
        cell: ScannedCell,
        bytes: &mut Vec<u8>,
    ) -> Result<(), AllocError> {
        for i in 0..9u8 {
            let colour = self.cell_dot(cell, i);
            bytes.extend_from_slice(&colours[colour as usize])?;
        }
        Ok(())
    }

    /// Draws a scan line of a row of cells.
    fn draw_cells(
        &self,
        colours: &[[u8; 3]; 256],
        row: u8,
        line: u8,
        bytes: &mut Vec<u8>,
    ) -> Result<(), AllocError> {
        let cursor = self.cell_number_at(self.place(self.page));
        for column in 0..self.mode.columns {
            let at = Place { row, column };
            if let Some(cell) = self.cell(self.page, at) {
                let cell = ScannedCell {
                    character: cell.character,
                    attribute: cell.attribute,
                    is_cursor: self.cell_number_at(at) == cursor,
                    line,
                };
                self.draw_scan_line_of_cell(colours, cell, bytes)?;
            }
        }
        Ok(())
    }

    /// Draws the scan lines of a row of cells.
    fn draw_row(
        &self,
        colours: &[[u8; 3]; 256],
        row: u8,
        bytes: &mut Vec<u8>,
    ) -> Result<(), AllocError> {
        for line in 0..self.mode.height {
            self.draw_cells(colours, row, line, bytes)?;
        }
        Ok(())
    }

    /// The dots of the active page's cells.
    fn text_bytes(&self, colours: &[[u8; 3]; 256]) -> Result<Vec<u8>, AllocError> {
        let mut bytes = Vec::new(self.alloc);
        for row in 0..self.mode.rows {
            self.draw_row(colours, row, &mut bytes)?;
        }
        Ok(bytes)
    }

    /// Draws a line of pixels.
    fn draw_line_of_pixels(
        &self,
        colours: &[[u8; 3]; 256],
        pixels: &Line,
        bytes: &mut Vec<u8>,
    ) -> Result<(), AllocError> {
        for colour in pixels {
            for _ in 0..self.mode.dots {
                bytes.extend_from_slice(&colours[*colour as usize])?;
            }
        }
        Ok(())
    }

    /// The dots of the active page's pixels.
    fn graphics_bytes(&self, colours: &[[u8; 3]; 256]) -> Result<Vec<u8>, AllocError> {
        let mut bytes = Vec::new(self.alloc);
        let Some(page) = self.pages.get(self.page as usize) else {
            return Ok(bytes);
        };
        for strip in page {
            self.draw_strip(colours, strip, &mut bytes)?;
        }
        Ok(bytes)
    }

    /// Draws the lines of a row of characters, each as often as it is shown.
    fn draw_strip(
        &self,
        colours: &[[u8; 3]; 256],
        strip: &Strip,
        bytes: &mut Vec<u8>,
    ) -> Result<(), AllocError> {
        for pixels in strip {
            for _ in 0..self.mode.lines {
                self.draw_line_of_pixels(colours, pixels, bytes)?;
            }
        }
        Ok(())
    }

    /// Width and height of a picture, in dots.
    pub fn picture_size(&self) -> (u32, u32) {
        let columns = self.mode.columns as u32;
        let width = match self.mode.kind {
            Kind::Text => 9 * columns,
            Kind::SixteenColours | Kind::Colours256 => 8 * columns * self.mode.dots as u32,
        };
        let height = self.mode.rows as u32 * self.mode.height as u32 * self.mode.lines as u32;
        (width, height)
    }

    /// Gives the screen the next frame's number.
    pub fn end_frame(&mut self) {
        self.frame = (self.frame % 32 + 1) % 32;
    }

    /// Draws a whole frame, and gives the screen the next frame's number.
    pub fn draw(&mut self) -> Result<PlainPicture, AllocError> {
        let colours = self.colours();
        let bytes = if self.is_text() {
            self.text_bytes(&colours)?
        } else {
            self.graphics_bytes(&colours)?
        };
        let (width, height) = self.picture_size();
        self.end_frame();
        Ok(PlainPicture {
            width,
            height,
            bytes,
        })
    }
}

/// Single dots.
impl PlainScreen<'_> {
    /// The number of a cell, counted along the rows of all pages.
    fn cell_number_among_all_pages(&self, page: u8, at: Place) -> u32 {
        self.mode.distance as u32 * page as u32 + self.cell_number_at(at)
    }

    /// The colour number of a dot of a text page, if it lies on a cell. The active page may show
    /// its cursor there.
    fn text_dot(&self, page: u8, x: u32, y: u32) -> Option<u8> {
        let height = self.mode.height.max(1) as u32;
        let row = u8::try_from(y / height).ok()?;
        let column = u8::try_from(x / 9).ok()?;
        let at = Place { row, column };
        let cell = self.cell(page, at)?;
        let cursor = self.cell_number_among_all_pages(self.page, self.place(self.page));
        let cell = ScannedCell {
            character: cell.character,
            attribute: cell.attribute,
            is_cursor: self.cell_number_among_all_pages(page, at) == cursor,
            line: (y % height).min(0xFF) as u8,
        };
        Some(self.cell_dot(cell, (x % 9) as u8))
    }

    /// The colour number of a dot of a graphics page, if it lies on a pixel.
    fn pixel_dot(&self, page: u8, x: u32, y: u32) -> Option<u8> {
        let x = u16::try_from(x / self.mode.dots.max(1) as u32).ok()?;
        let y = u16::try_from(y / self.mode.lines.max(1) as u32).ok()?;
        self.pixel(page, x, y)
    }

    /// Red, green and blue of dot `x` of line `y` while a page is shown; None outside the picture.
    pub fn dot_colour(&self, page: u8, x: u32, y: u32) -> Option<[u8; 3]> {
        let colour = if self.is_text() {
            self.text_dot(page, x, y)
        } else {
            self.pixel_dot(page, x, y)
        };
        Some(self.colour_of(colour?))
    }
}
