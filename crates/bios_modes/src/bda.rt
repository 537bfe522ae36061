//! The data of the video BIOS.
ghost use Rattle.std.specs.Prelude.{◌≡◌, ◌<◌, slice_index};

mod saved;
mod valid;
mod writers;

use crate::bounds::words_are_below_65536;
use std::marker::Model;

/// How many pages have a cursor position.
const PAGES: usize = 8;

/// The data that the video BIOS keeps about its mode, its pages and its cursors.
///
/// Contracts see one record of the fields; the cursor positions are a list there.
#[derive(Drop)]
pub struct Bda {
    mode: u8,
    columns: u16,
    size: u16,
    start: u16,
    cursor_places: [u16; PAGES],
    cursor_type: u16,
    page: u8,
    crtc_address: u16,
    last_row: u8,
    height: u16,
}

impl Model for Bda {
    ghost use Rattle.bios_modes.specs.Bda.{BiosData};

    ghost Value = { BiosData };

    ghost view = { λ d. record {
      mode = d.mode;
      columns = d.columns;
      size = d.size;
      start = d.start;
      cursor_places = d.cursor_places;
      cursor_type = d.cursor_type;
      page = d.page;
      crtc_address = d.crtc_address;
      last_row = d.last_row;
      height = d.height;
    } };
}

impl Bda {
    ghost use Rattle.bios_modes.specs.Bda.{power_on_data};
    ghost use Rattle.bios_modes.specs.Bounds.{IsBda};

    /// The data at power-on, before a mode is set: all 0.
    pub fn new() -> Bda
        ensures { result ≡ power_on_data }
    {
        Bda {
            mode: 0,
            columns: 0,
            size: 0,
            start: 0,
            cursor_places: [0; PAGES],
            cursor_type: 0,
            page: 0,
            crtc_address: 0,
            last_row: 0,
            height: 0,
        }
    }

    /// A copy of the data.
    pub fn copy(&self) -> Bda
        ensures { result ≡ self.now }
    {
        Bda {
            mode: self.mode,
            columns: self.columns,
            size: self.size,
            start: self.start,
            cursor_places: self.cursor_places,
            cursor_type: self.cursor_type,
            page: self.page,
            crtc_address: self.crtc_address,
            last_row: self.last_row,
            height: self.height,
        }
    }

    /// The eight cursor positions are words, whatever was written. The clause is for proofs: the
    /// function does nothing.
    pub fn bounds(&self)
        ensures { IsBda self.now }
    {
        words_are_below_65536(&self.cursor_places);
    }

    /// The mode, at offset 49; 0 before a mode is set.
    pub fn mode(&self) -> u8
        ensures { result ≡ self.now.mode }
    {
        self.mode
    }

    /// How many columns of characters a row has, at offset 4A.
    pub fn columns(&self) -> u16
        ensures { result ≡ self.now.columns }
    {
        self.columns
    }

    /// How many bytes a page has, at offset 4C.
    pub fn size(&self) -> u16
        ensures { result ≡ self.now.size }
    {
        self.size
    }

    /// Where the active page begins in display memory, in bytes, at offset 4E.
    pub fn start(&self) -> u16
        ensures { result ≡ self.now.start }
    {
        self.start
    }

    /// The cursor position on a page, 0 to 7: the row is the high byte, the column the low one. The
    /// eight positions lie at offset 50.
    pub fn cursor_place(&self, page: usize) -> u16
        requires { page < 8 }
        ensures { result ≡ slice_index self.now.cursor_places page }
    {
        self.cursor_places[page]
    }

    /// The first scan line of the cursor as the high byte and its last as the low one, at offset
    /// 60.
    pub fn cursor_type(&self) -> u16
        ensures { result ≡ self.now.cursor_type }
    {
        self.cursor_type
    }

    /// The active page, at offset 62.
    pub fn page(&self) -> u8
        ensures { result ≡ self.now.page }
    {
        self.page
    }

    /// The port of the CRT controller's index, at offset 63.
    pub fn crtc_address(&self) -> u16
        ensures { result ≡ self.now.crtc_address }
    {
        self.crtc_address
    }

    /// The last row of characters, at offset 84.
    pub fn last_row(&self) -> u8
        ensures { result ≡ self.now.last_row }
    {
        self.last_row
    }

    /// How many scan lines a character has, at offset 85.
    pub fn height(&self) -> u16
        ensures { result ≡ self.now.height }
    {
        self.height
    }
}
