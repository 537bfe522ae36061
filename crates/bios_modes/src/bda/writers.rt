//! Writing the BIOS data, field by field.
ghost use Rattle.std.specs.Prelude.{◌≡◌, ◌<◌, slice_set};
ghost use Rattle.bios_modes.specs.Begin.{data_of_mode};

use super::{Bda, PAGES};
use crate::modes::ModeRow;

impl Bda {
    /// Sets the mode.
    pub fn set_mode(&mut self, mode: u8)
        ensures { self.new ≡ record self.old { mode = mode } }
    {
        self.mode = mode;
    }

    /// Sets how many columns of characters a row has.
    pub fn set_columns(&mut self, columns: u16)
        ensures { self.new ≡ record self.old { columns = columns } }
    {
        self.columns = columns;
    }

    /// Sets how many bytes a page has.
    pub fn set_size(&mut self, size: u16)
        ensures { self.new ≡ record self.old { size = size } }
    {
        self.size = size;
    }

    /// Sets where the active page begins, in bytes.
    pub fn set_start(&mut self, start: u16)
        ensures { self.new ≡ record self.old { start = start } }
    {
        self.start = start;
    }

    /// Sets the cursor position on a page, 0 to 7: the row is the high byte, the column the low
    /// one.
    pub fn set_cursor_place(&mut self, page: usize, place: u16)
        requires { page < 8 }
        ensures { self.new ≡ record self.old {
          cursor_places =
              slice_set self.old.cursor_places page place;
        } }
    {
        self.cursor_places[page] = place;
    }

    /// Sets the cursor's first scan line as the high byte and its last as the low one.
    pub fn set_cursor_type(&mut self, cursor_type: u16)
        ensures { self.new ≡ record self.old { cursor_type = cursor_type } }
    {
        self.cursor_type = cursor_type;
    }

    /// Sets the active page.
    pub fn set_page(&mut self, page: u8)
        ensures { self.new ≡ record self.old { page = page } }
    {
        self.page = page;
    }

    /// Sets the port of the CRT controller's index.
    pub fn set_crtc_address(&mut self, crtc_address: u16)
        ensures { self.new ≡ record self.old { crtc_address = crtc_address } }
    {
        self.crtc_address = crtc_address;
    }

    /// Sets the last row of characters.
    pub fn set_last_row(&mut self, last_row: u8)
        ensures { self.new ≡ record self.old { last_row = last_row } }
    {
        self.last_row = last_row;
    }

    /// Sets how many scan lines a character has.
    pub fn set_height(&mut self, height: u16)
        ensures { self.new ≡ record self.old { height = height } }
    {
        self.height = height;
    }

    /// Sets all data to those that a mode begins with: its constants, page 0, and the cursor in the
    /// upper left corner of each page.
    pub fn begin_mode(&mut self, mode: u8, row: &ModeRow)
        ensures { self.new ≡ data_of_mode mode row.now }
    {
        *self = Bda {
            mode,
            columns: row.columns,
            size: row.size,
            start: 0,
            cursor_places: [0; PAGES],
            cursor_type: row.cursor_type,
            page: 0,
            crtc_address: row.crtc_address,
            last_row: row.last_row,
            height: row.height as u16,
        };
    }
}
