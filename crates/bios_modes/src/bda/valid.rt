//! Whether BIOS data are valid.
ghost use Rattle.std.specs.Prelude.{◌≡◌, ◌↔◌, IsTrue};
ghost use Rattle.bios_modes.specs.Bda.{power_on_data};
ghost use Rattle.bios_modes.specs.Valid.{IsDataOfRow, IsValid};

use super::{Bda, PAGES};
use crate::heights::mode_row_at_height;
use crate::modes::ModeRow;

impl Bda {
    /// Whether all data are 0.
    fn is_unset(&self) -> bool
        ensures { IsTrue result ↔ (self.now ≡ power_on_data) }
    {
        self.mode == 0
            && self.columns == 0
            && self.size == 0
            && self.start == 0
            && self.cursor_places == [0; PAGES]
            && self.cursor_type == 0
            && self.page == 0
            && self.crtc_address == 0
            && self.last_row == 0
            && self.height == 0
    }

    /// Whether the data are those of this row, and the page is one of its pages.
    fn fits_mode_row(&self, row: &ModeRow) -> bool
        ensures { IsTrue result ↔ IsDataOfRow row.now self.now }
    {
        self.columns == row.columns
            && self.size == row.size
            && self.last_row == row.last_row
            && self.height == row.height as u16
            && self.crtc_address == row.crtc_address
            && self.page < row.pages
            && self.start as u32 == self.size as u32 * self.page as u32
    }

    /// Whether the data are all 0, or those of one mode, in text at a height of 8, 14 or 16 scan
    /// lines: its columns, size of a page, last row, height of a character and port of the CRT
    /// controller. The active page is one of the mode's, and begins at its number times the size.
    /// The cursor's positions and type may be any.
    pub fn valid(&self) -> bool
        ensures { IsTrue result ↔ IsValid self.now }
    {
        match mode_row_at_height(self.mode, self.height) {
            Some(row) => self.fits_mode_row(&row),
            None => self.is_unset(),
        }
    }
}
