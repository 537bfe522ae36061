//! The plain screen.
ghost use Rattle.std.specs.Prelude.{◌≡◌};
ghost use Rattle.bios_screen.specs.Parts.{cell_at, pixel_at, cursor_at};

use crate::palette::Palette;
use bios_modes::is_text;
use std::marker::Model;

/// How a screen is laid out: columns and rows of characters on a page, scan lines of a character,
/// the number of cells from the beginning of a page to the next, which is 0 for pixels, and the
/// number of pages.
#[derive(Clone, Copy)]
pub(crate) struct Layout {
    pub(crate) columns: u16,
    pub(crate) rows: u16,
    pub(crate) height: u16,
    pub(crate) distance: u16,
    pub(crate) pages: u8,
}

/// A plain screen: what a program sees that uses only the video BIOS.
///
/// Contracts see one record: mode, layout, cells or pixels, positions and type of the cursor,
/// active page, palette, overscan, blinking, glyphs, and the frame number modulo 32.
#[derive(Drop)]
pub struct Screen {
    pub(crate) mode: u8,
    pub(crate) layout: Layout,
    /// The cells of text, page after page.
    pub(crate) cells: Vec<(u8, u8)>,
    /// The pixels of graphics, page after page.
    pub(crate) pixels: Vec<u8>,
    pub(crate) places: [u16; 8],
    pub(crate) cursor_type: u16,
    pub(crate) page: u8,
    pub(crate) palette: Palette,
    pub(crate) overscan: u8,
    pub(crate) is_blink: bool,
    pub(crate) glyphs: Vec<u8>,
    pub(crate) frame: u8,
}

impl Model for Screen {
    ghost use Rattle.std.specs.Prelude.{vec_len};
    ghost use Rattle.bios_screen.specs.Screen.{Screen as PlainScreen};
    ghost use Rattle.bios_screen.specs.Parts.{cells_or_pixels_of_mode, LayoutFitsContents};

    ghost Value = { PlainScreen };

    ghost view = { λ s. record {
      mode = s.mode;
      layout = record {
        columns = s.layout.columns;
        rows = s.layout.rows;
        height = s.layout.height;
        distance = s.layout.distance;
        pages = s.layout.pages;
      };
      contents = cells_or_pixels_of_mode s.mode (record {
        columns = s.layout.columns;
        rows = s.layout.rows;
        height = s.layout.height;
        distance = s.layout.distance;
        pages = s.layout.pages;
      })
          s.cells.items s.pixels.items;
      places = s.places;
      cursor_type = s.cursor_type;
      page = s.page;
      palette = record {
        values = s.palette.values;
        reds = s.palette.reds;
        greens = s.palette.greens;
        blues = s.palette.blues;
        mask = s.palette.mask;
      };
      overscan = s.overscan;
      is_blink = s.is_blink;
      glyphs = s.glyphs.items;
      frame = s.frame;
    } };

    ghost invariant = { λ s. LayoutFitsContents s.mode (record {
      columns = s.layout.columns;
      rows = s.layout.rows;
      height = s.layout.height;
      distance = s.layout.distance;
      pages = s.layout.pages;
    }) (vec_len s.cells) (vec_len s.pixels) };
}

impl Screen {
    /// The character and the attribute of the cell at a row and a column of a page, if there is
    /// one. Graphics has none.
    pub fn cell(&self, page: u8, row: u8, column: u8) -> Option<(u8, u8)>
        ensures { result ≡ cell_at self.now page row column }
    {
        let layout = self.layout;
        if !is_text(self.mode) {
            return None;
        }
        if page < layout.pages && (row as u16) < layout.rows && (column as u16) < layout.columns {
            let start = layout.distance as usize * page as usize;
            let place = layout.columns as usize * row as usize + column as usize;
            Some(self.cells[start + place])
        } else {
            None
        }
    }

    /// The pixel at column `x` of line `y` of a page, if there is one. Text has none.
    pub fn pixel(&self, page: u8, x: u16, y: u16) -> Option<u8>
        ensures { result ≡ pixel_at self.now page x y }
    {
        let layout = self.layout;
        if is_text(self.mode) {
            return None;
        }
        let width = 8 * layout.columns as usize;
        let height = layout.height as usize * layout.rows as usize;
        if page < layout.pages && (x as usize) < width && (y as usize) < height {
            let start = width * height * page as usize;
            Some(self.pixels[start + (width * y as usize + x as usize)])
        } else {
            None
        }
    }

    /// Row and column of the cursor on a page, if the page is one of eight.
    pub fn cursor(&self, page: u8) -> Option<(u8, u8)>
        ensures { result ≡ cursor_at self.now page }
    {
        if page < 8 {
            let place = self.places[page as usize];
            Some(((place / 256) as u8, (place % 256) as u8))
        } else {
            None
        }
    }
}
