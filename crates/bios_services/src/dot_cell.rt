//! A cell of a page of pixels.
ghost use Rattle.std.specs.Prelude.{◌≡◌, ◌<◌, ◌≤◌, ◌*◌, ◌^◌};
ghost use Rattle.bios_services.specs.Bounds.{IsModeSet, page_count, bound_of_cells_reached_by_calls};
ghost use Rattle.bios_services.specs.Bands.{IsBand, byte_address_in_band};
ghost use Rattle.bios_services.specs.Drawing.{cell_band, cell_row};

use crate::band::ColumnBand;
use bios_modes::Bda;

/// A cell of a page of pixels.
#[derive(Clone, Copy)]
pub struct GraphicsCell {
    /// Its column, as a band of the page.
    pub band: ColumnBand,
    /// The row of characters in which it lies.
    pub row: u32,
}

impl GraphicsCell {
    /// Cell q of a page.
    pub(crate) fn of_columns(bda: &Bda, page: u8, q: u32) -> GraphicsCell
        requires data { IsModeSet bda.now }
        requires page { page < page_count bda.now }
        requires cell { q < bound_of_cells_reached_by_calls }
        ensures column { result.band ≡ cell_band bda.now page q }
        ensures band { IsBand result.band }
        ensures place { result.row ≡ cell_row bda.now q }
        ensures row { result.row < bound_of_cells_reached_by_calls }
    {
        let columns = bda.columns() as u32;
        GraphicsCell {
            band: ColumnBand::of_columns(bda, page, q % columns, 1),
            row: q / columns,
        }
    }

    /// The address of a byte of one of its lines.
    pub(crate) fn address(self, line: u32, byte: u32) -> u32
        requires band { IsBand self.band }
        requires row { self.row < bound_of_cells_reached_by_calls }
        requires line { line ≤ 16 }
        requires byte { byte ≤ 8 * 80 }
        ensures value { result ≡ byte_address_in_band self.band self.row line byte }
        ensures small { result < 2 ^ 31 }
    {
        self.band.address(self.row, line, byte)
    }
}
