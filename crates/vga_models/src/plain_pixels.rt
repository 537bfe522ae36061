//! The pixels of a plain graphics screen. A page has rows of characters, and these have lines of
//! pixels.
ghost use Rattle.std.specs.Prelude.{◌≡◌, ◌<◌};

use crate::plain_glyphs::font_row;
use crate::plain_modes::Kind;
use crate::plain_screen::{Line, Place, PlainScreen, Strip, Way, Window};
use std::alloc::AllocError;

/// What a blank of a colour makes of a pixel.
fn blank_pixel(kind: Kind, colour: u8) -> u8 {
    match kind {
        Kind::Text | Kind::SixteenColours => colour & 0x0F,
        Kind::Colours256 => colour,
    }
}

/// What a dot of a character makes of a pixel.
fn inked(kind: Kind, old: u8, is_set: bool, colour: u8) -> u8 {
    let low = colour & 0x0F;
    match (kind, is_set) {
        (Kind::SixteenColours, true) if colour >= 0x80 => old ^ low,
        (Kind::SixteenColours, false) if colour >= 0x80 => old,
        (Kind::SixteenColours, true) => low,
        (Kind::Colours256, true) => colour,
        (_, _) => 0,
    }
}

/// Copies the pixels `from..to` of another line into a line, or blanks them.
fn set_pixels(shown: &mut Line, from: usize, to: usize, source: Option<&Line>, blank: u8) {
    for i in from..to {
        if let Some(pixel) = shown.get_mut(i) {
            *pixel = source
                .and_then(|line| line.get(i))
                .copied()
                .unwrap_or(blank);
        }
    }
}

impl PlainScreen<'_> {
    /// A line of a row of characters of a page.
    fn line_mut(&mut self, page: u8, row: u8, line: u8) -> Option<&mut Line> {
        self.pages
            .get_mut(page as usize)?
            .get_mut(row as usize)?
            .get_mut(line as usize)
    }

    /// A row of characters of a page.
    fn strip(&self, page: u8, row: u8) -> Option<&Strip> {
        self.pages.get(page as usize)?.get(row as usize)
    }

    /// A pixel of a line of a row of characters.
    fn pixel_in(&self, page: u8, row: u8, line: u8, place: usize) -> Option<u8> {
        let pixels = self.strip(page, row)?.get(line as usize)?;
        pixels.get(place).copied()
    }

    /// The pixel at column `x` of line `y` of a page. A text screen has none.
    pub fn pixel(&self, page: u8, x: u16, y: u16) -> Option<u8> {
        let height = self.mode.height.max(1) as u16;
        let row = u8::try_from(y / height).ok()?;
        let line = u8::try_from(y % height).ok()?;
        self.pixel_in(page, row, line, x as usize)
    }

    /// Gives the pixel at column `x` of line `y` of a page a colour, or XORs its colour with one.
    pub fn set_pixel(&mut self, page: u8, x: u16, y: u16, colour: u8) {
        let kind = self.mode.kind;
        let height = self.mode.height.max(1) as u16;
        let row = y / height;
        let line = y % height;
        if row > 0xFF || line > 0xFF {
            return;
        }
        if let Some(pixels) = self.line_mut(page, row as u8, line as u8)
            && let Some(pixel) = pixels.get_mut(x as usize)
        {
            *pixel = inked(kind, *pixel, true, colour);
        }
    }

    /// Draws a character's glyph at a position of a page, in a colour.
    pub fn show_glyph(&mut self, page: u8, at: Place, character: u8, colour: u8) {
        for line in 0..self.mode.height {
            self.show_glyph_row(page, at, line, character, colour);
        }
    }

    fn show_glyph_row(&mut self, page: u8, at: Place, line: u8, character: u8, colour: u8) {
        let kind = self.mode.kind;
        let dots = font_row(self.font, self.mode.height, character, line as usize);
        let Some(pixels) = self.line_mut(page, at.row, line) else {
            return;
        };
        for i in 0..8u8 {
            let is_set = (dots >> (7 - i)) & 1 == 1;
            if let Some(pixel) = pixels.get_mut(8 * at.column as usize + i as usize) {
                *pixel = inked(kind, *pixel, is_set, colour);
            }
        }
    }

    /// Whether a line at a position has the dots of a glyph, as pixels other than 0.
    fn has_glyph_row(&self, page: u8, at: Place, line: u8, character: u8) -> bool {
        let dots = font_row(self.font, self.mode.height, character, line as usize);
        for i in 0..8u8 {
            let place = 8 * at.column as usize + i as usize;
            let is_set = (dots >> (7 - i)) & 1 == 1;
            let is_shown = self.pixel_in(page, at.row, line, place) != Some(0);
            if is_set != is_shown {
                return false;
            }
        }
        true
    }

    /// Whether a position has the dots of a glyph in all its lines.
    fn has_glyph(&self, page: u8, at: Place, character: u8) -> bool {
        for line in 0..self.mode.height {
            if !self.has_glyph_row(page, at, line, character) {
                return false;
            }
        }
        true
    }

    /// The first character whose glyph stands at a position, or 0.
    pub fn character_at(&self, page: u8, at: Place) -> u8 {
        for character in 0..=0xFFu8 {
            if self.has_glyph(page, at, character) {
                return character;
            }
        }
        0
    }

    /// Moves the rows of a window of a page, and blanks those that are left, in a colour. By 0 all
    /// are blanked.
    pub fn scroll_pixels(
        &mut self,
        page: u8,
        window: Window,
        way: Way,
        by: u8,
        colour: u8,
    ) -> Result<(), AllocError> {
        let Some(shown) = self.pages.get(page as usize) else {
            return Ok(());
        };
        let old = shown.clone()?;
        for row in window.first.row..=window.last.row {
            let source = window.source(way, by, row);
            let strip = source.and_then(|from| old.get(from as usize));
            self.set_strip(page, row, window, strip, colour);
        }
        Ok(())
    }

    /// Copies the pixels of a window from another row of characters into one, or blanks them.
    fn set_strip(&mut self, page: u8, row: u8, window: Window, source: Option<&Strip>, colour: u8) {
        let blank = blank_pixel(self.mode.kind, colour);
        let from = 8 * window.first.column as usize;
        let to = 8 * (window.last.column as usize + 1);
        for line in 0..self.mode.height {
            let pixels = source.and_then(|strip| strip.get(line as usize));
            if let Some(shown) = self.line_mut(page, row, line) {
                set_pixels(shown, from, to, pixels, blank);
            }
        }
    }
}
