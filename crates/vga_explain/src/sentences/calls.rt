//! Why a call of the video BIOS is refused, in words.

use super::NO_MODE_SET;
use crate::digits::{Decimal, Hex, Things};
use bios_services::CallReason;
use std::fmt::{self, Formatter, Write};

/// A count of bytes, which are never more than a block's.
fn size(size: usize) -> u32 {
    size.min(u32::MAX as usize) as u32
}

/// Why what a call asks for is not there: no function, mode, register or entry.
fn write_missing<W: Write>(f: &mut Formatter<W>, reason: CallReason) -> fmt::Result {
    match reason {
        CallReason::NoService { function, al, bl } => {
            let (function, al, bl) = (Hex::byte(function), Hex::byte(al), Hex::byte(bl));
            write!(
                f,
                "The video BIOS has no function {function}, or not with AL {al} and BL {bl}."
            )
        }
        CallReason::NoSuchMode { mode } => {
            let mode = Hex::byte(mode);
            write!(
                f,
                "There is no mode {mode}. The modes are 03, 07, 0D, 10, 12 and 13; bit 7 of AL keeps the memory."
            )
        }
        CallReason::NoPage { page, pages } => {
            let (page, last) = (Hex::byte(page), Hex::byte(pages.saturating_sub(1)));
            write!(
                f,
                "There is no page {page}: the pages of this mode are 00 to {last}."
            )
        }
        CallReason::NoPaletteRegister { register } => {
            let register = Hex::byte(register);
            write!(
                f,
                "There is no palette register {register}: they are 00 to 0F."
            )
        }
        CallReason::NoEntry { entry } => {
            let entry = Hex::word(entry);
            write!(f, "The DAC has no entry {entry}: its entries are 00 to FF.")
        }
        CallReason::NoEntries { count, first } => {
            let (count, first) = (Decimal(count as u32), Hex::word(first));
            write!(
                f,
                "The entries of the DAC end at FF, and this call names {count} from {first} on."
            )
        }
        CallReason::NoHeight { height, .. } => {
            let height = Hex::byte(height);
            write!(
                f,
                "Glyphs have 8, 14 or 16 scan lines (08, 0E, 10), and BH is {height}."
            )
        }
        _ => f.write_str(NO_MODE_SET),
    }
}

/// Why what a call asks for is outside the page.
fn write_outside<W: Write>(f: &mut Formatter<W>, reason: CallReason) -> fmt::Result {
    match reason {
        CallReason::CursorOutside { page, cell, cells } => {
            let (page, cell, cells) = (Hex::byte(page), Decimal(cell), Decimal(cells));
            write!(
                f,
                "The cursor of page {page} is at cell {cell}, counted from 0, and a page has {cells} cells."
            )
        }
        CallReason::PositionOutside {
            row,
            column,
            rows,
            columns,
        } => {
            let (row, column) = (Decimal(row as u32), Decimal(column as u32));
            let (rows, columns) = (Decimal(rows as u32), Decimal(columns as u32));
            write!(
                f,
                "Column {column} of row {row}, counted from 0, is outside a page of {columns} by {rows} cells."
            )
        }
        CallReason::PixelOutside {
            x,
            y,
            width,
            height,
        } => {
            let (x, y) = (Decimal(x as u32), Decimal(y as u32));
            let (width, height) = (Decimal(width), Decimal(height));
            write!(
                f,
                "Column {x} of line {y}, counted from 0, is outside a page of {width} by {height} pixels."
            )
        }
        CallReason::CellsPast {
            count,
            first,
            cells,
        } => {
            let left = Things::of(cells.saturating_sub(first), "cell");
            let count = Decimal(count as u32);
            write!(
                f,
                "From the cursor on the page has {left}, and this call writes {count}."
            )
        }
        CallReason::GlyphsPast { count, first } => {
            let (glyphs, first) = (Things::of(count as u32, "glyph"), Hex::word(first));
            write!(
                f,
                "The characters end at FF, and this call loads {glyphs} from {first} on."
            )
        }
        _ => write_missing(f, reason),
    }
}

/// Why a call is refused.
pub(super) fn write_call_reason<W: Write>(f: &mut Formatter<W>, reason: CallReason) -> fmt::Result {
    match reason {
        CallReason::NoPixels { mode } => {
            let mode = Hex::byte(mode);
            write!(f, "Mode {mode} is text, and this call wants graphics.")
        }
        CallReason::NoCharacterMap { mode } => {
            let mode = Hex::byte(mode);
            write!(f, "Mode {mode} is graphics, and this call wants text.")
        }
        CallReason::NoBlinking { value } => {
            let value = Hex::byte(value);
            write!(
                f,
                "Blinking is cleared with BL 00 and set with BL 01, and BL is {value}."
            )
        }
        CallReason::WrongBlock { len, wanted } => {
            let (bytes, wanted) = (Things::of(size(len), "byte"), Decimal(size(wanted)));
            write!(f, "The block has {bytes}, and this call takes {wanted}.")
        }
        _ => write_outside(f, reason),
    }
}
