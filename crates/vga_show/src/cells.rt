//! The cells of the active page as text.
ghost use Rattle.std.specs.Prelude.{◌≡◌, ◌+◌, ◌*◌, ◌<◌, ◌≤◌, ◌++◌, length, false, IfOk, IfSome, Ok};
ghost use Rattle.std.specs.Prelude.{Err};
ghost use Rattle.vga_bits.specs.Tracked.{inner_of, has_failed, WritesWholeOrPrefix};
ghost use Rattle.bios_modes.specs.Valid.{IsValid};
ghost use Rattle.vga_show.specs.Lines.{longest_dump_len, four_hex_digits_each, words_after_blanks};
ghost use Rattle.vga_show.specs.Cells.{cells_refusal as cells_refusal_of, cell_of_active_page};
ghost use Rattle.vga_show.specs.Cells.{row_text as row_text_of, rows_text, cells_text};
ghost use Rattle.vga_show.specs.Cells.{cells_answer, CellsLieWithinPlanes};

use super::text::{DumpText, push_spaced_word};
use bios_modes::{Bda, is_text};
use std::io::Write;
use vga_bits::{Fault, Refusal, Tracked, write_whole};
use vga_card::Card;

/// Why there are no cells to dump: `NoMode` before a mode is set, and `WrongKind` in graphics.
pub fn cells_refusal(bda: &Bda) -> Option<Refusal>
    ensures { result ≡ cells_refusal_of bda.now.mode }
{
    let mode = bda.mode();
    if mode == 0 {
        Some(Refusal::NoMode)
    } else if is_text(mode) {
        None
    } else {
        Some(Refusal::WrongKind)
    }
}

/// Cell k of the active page: its character in the high byte, its attribute in the low byte.
fn cell(card: &Card, bda: &Bda, k: u32) -> u16
    requires { bda.now.size * bda.now.page + 2 * k < 65536 }
    ensures { result ≡ cell_of_active_page card.now bda.now k }
{
    let planes = card.planes();
    let offset = (bda.size() as u32 * bda.page() as u32 + 2 * k) as u16;
    planes.byte(0, offset) as u16 * 0x100 + planes.byte(1, offset) as u16
}

/// Appends the cells of a row.
#[tactic(auto, using(crate::proofs::TextLemmas::listing))]
fn push_cells(text: &mut DumpText, card: &Card, bda: &Bda, row: u8)
    requires data { CellsLieWithinPlanes bda.now }
    requires row { row ≤ bda.now.last_row }
    requires room { length text.old + 5 * bda.now.columns ≤ longest_dump_len }
    ensures items { text.new ≡ text.old ++ words_after_blanks
        (four_hex_digits_each (cell_of_active_page card.now bda.now) (bda.now.columns * row)
        bda.now.columns) }
    ensures len { length text.new ≡ length text.old + 5 * bda.now.columns }
{
    let first = bda.columns() as u32 * row as u32;
    for column in 0..bda.columns() {
        push_spaced_word(text, cell(card, bda, first + column as u32));
    }
}

/// The line of a row.
#[tactic(auto, using(crate::proofs::TextLemmas::joins))]
fn row_text(card: &Card, bda: &Bda, row: u8) -> DumpText
    requires data { CellsLieWithinPlanes bda.now }
    requires row { row ≤ bda.now.last_row }
    ensures { result ≡ row_text_of card.now bda.now row }
{
    let mut text = DumpText::new();
    text.push(b"row ");
    text.push_hex_byte(row);
    text.push(b":");
    push_cells(&mut text, card, bda, row);
    text.push(b"\n");
    text
}

/// Writes the lines of all rows.
fn write_rows<W: Write>(out: &mut Tracked<W>, card: &Card, bda: &Bda) -> Result<(), Fault>
    requires writer { has_failed out.old ≡ false }
    requires data { CellsLieWithinPlanes bda.now }
    requires rows { bda.now.last_row < 255 }
    ensures { WritesWholeOrPrefix (W.contents (inner_of out.old)) (W.contents (inner_of out.new))
        (has_failed out.new) result (rows_text card.now bda.now (bda.now.last_row + 1) 0) }
{
    for row in 0..bda.last_row() + 1 {
        write_whole(out, row_text(card, bda, row).as_slice())?;
    }
    Ok(())
}

/// Writes the cells of the active page in hexadecimal, a line for each row: `row 00:`, and for each
/// column a blank, the character and the attribute. If `cells_refusal` gives a reason, the dump is
/// refused with it, and nothing is written. The BIOS data must be valid, and the writer must not
/// have failed before.
///
/// The only error is `WriteFault`: the writer failed, and has a prefix of the text.
pub fn dump_cells<W: Write>(
    out: &mut Tracked<W>,
    card: &Card,
    bda: &Bda,
) -> Result<Result<(), Refusal>, Fault>
    requires writer { has_failed out.old ≡ false }
    requires data { IsValid bda.now }
    // The text is written, or nothing if the dump is refused.
    ensures written { WritesWholeOrPrefix (W.contents (inner_of out.old)) (W.contents (inner_of out.new))
        (has_failed out.new) result (cells_text (cells_refusal_of bda.now.mode) card.now bda.now) }
    ensures answer { IfOk result (λ answer. answer ≡ cells_answer (cells_refusal_of bda.now.mode)) }
    // If the dump is refused, the writer is unchanged.
    ensures refused { IfSome (cells_refusal_of bda.now.mode) (λ why. (result ≡ Ok (Err why))
        × (out.new ≡ out.old)) }
{
    if let Some(why) = cells_refusal(bda) {
        return Ok(Err(why));
    }
    write_rows(out, card, bda)?;
    Ok(Ok(()))
}
