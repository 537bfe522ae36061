//! Reasons why a service is refused, over numbers alone.
ghost use Rattle.std.specs.Prelude.{◌≡◌, ◌⊎◌, IfErr, Err};
ghost use Rattle.bios_services.specs.CallReasons.{refusal_of, refusal_of_outcome, IsWrongBlock};
ghost use Rattle.bios_services.specs.Reasons.{refuse_unless as refuse_unless_of};
ghost use Rattle.bios_services.specs.Reasons.{refuse_unless_graphics_mode as no_pixels_of, no_page as no_page_of};
ghost use Rattle.bios_services.specs.Reasons.{outside_cells as outside_cells_of};
ghost use Rattle.bios_services.specs.Reasons.{outside_page as outside_page_of};
ghost use Rattle.bios_services.specs.Reasons.{outside_pixels as outside_pixels_of};
ghost use Rattle.bios_services.specs.Reasons.{past_cells as past_cells_of};
ghost use Rattle.bios_services.specs.Reasons.{refuse_or_wrong_block as or_wrong_block_of};
ghost use Rattle.bios_services.specs.Cursor.{row_of_position, column_of_position};

use crate::call_reason::CallReason;
use bios_modes::is_text;

/// Refuses for a reason, unless the test holds.
#[inline(always)]
pub(crate) fn refuse_unless(holds: bool, why: CallReason) -> Result<(), CallReason>
    ensures refusal { refusal_of_outcome result ≡ refuse_unless_of holds (refusal_of why) }
    ensures reason { IfErr result (λ reason. reason ≡ why) }
{
    if holds { Ok(()) } else { Err(why) }
}

/// Refuses text, which has no pixels.
pub(crate) fn refuse_unless_graphics_mode(mode: u8) -> Result<(), CallReason>
    ensures refusal { refusal_of_outcome result ≡ no_pixels_of mode }
    ensures reason { IfErr result (λ reason. reason ≡ CallReason.NoPixels mode) }
{
    refuse_unless(!is_text(mode), CallReason::NoPixels { mode })
}

/// Refuses a page that the mode does not have.
pub(crate) fn no_page(pages: u8, page: u8) -> Result<(), CallReason>
    ensures refusal { refusal_of_outcome result ≡ no_page_of pages page }
    ensures reason { IfErr result (λ reason. reason ≡ CallReason.NoPage page pages) }
{
    refuse_unless(page < pages, CallReason::NoPage { page, pages })
}

/// Refuses a page whose cursor stands at a cell that it does not have.
pub(crate) fn outside_cells(cells: u32, page: u8, cell: u32) -> Result<(), CallReason>
    ensures refusal { refusal_of_outcome result ≡ outside_cells_of cells cell }
    ensures reason { IfErr result (λ reason. reason ≡ CallReason.CursorOutside page cell cells) }
{
    refuse_unless(
        cell < cells,
        CallReason::CursorOutside { page, cell, cells },
    )
}

/// Refuses a position at which the page has no cell.
pub(crate) fn outside_page(rows: u16, columns: u16, position: u16) -> Result<(), CallReason>
    ensures refusal { refusal_of_outcome result ≡ outside_page_of rows columns position }
    ensures reason { IfErr result (λ reason. reason ≡ CallReason.PositionOutside
        (row_of_position position) (column_of_position position) rows columns) }
{
    let row = (position / 256) as u8;
    let column = (position % 256) as u8;
    refuse_unless(
        (row as u16) < rows && (column as u16) < columns,
        CallReason::PositionOutside {
            row,
            column,
            rows,
            columns,
        },
    )
}

/// Refuses a pixel that the page does not have.
pub(crate) fn outside_pixels(width: u32, height: u32, x: u16, y: u16) -> Result<(), CallReason>
    ensures refusal { refusal_of_outcome result ≡ outside_pixels_of width height x y }
    ensures reason { IfErr result (λ reason. reason ≡ CallReason.PixelOutside x y width height) }
{
    refuse_unless(
        (x as u32) < width && (y as u32) < height,
        CallReason::PixelOutside {
            x,
            y,
            width,
            height,
        },
    )
}

/// Refuses cells that go past the end of the page.
pub(crate) fn past_cells(cells: u32, first: u32, count: u16) -> Result<(), CallReason>
    ensures refusal { refusal_of_outcome result ≡ past_cells_of cells first count }
    ensures reason { IfErr result (λ reason. reason ≡ CallReason.CellsPast count first cells) }
{
    refuse_unless(
        first as u64 + count as u64 <= cells as u64,
        CallReason::CellsPast {
            count,
            first,
            cells,
        },
    )
}

/// Refuses for another reason, if there is one, or else a block of another length than is read. A
/// call that reads no block may be given one of any length.
pub(crate) fn refuse_or_wrong_block(
    other: Result<(), CallReason>,
    size: Option<usize>,
    len: usize,
) -> Result<(), CallReason>
    ensures refusal { refusal_of_outcome result
        ≡ or_wrong_block_of (refusal_of_outcome other) size len }
    ensures reason { IfErr result (λ reason. (other ≡ Err reason)
        ⊎ IsWrongBlock size len reason) }
{
    other?;
    match size {
        Some(wanted) => refuse_unless(len == wanted, CallReason::WrongBlock { len, wanted }),
        None => Ok(()),
    }
}
