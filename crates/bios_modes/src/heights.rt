//! The values of a text mode that depend on the height of characters.
ghost use Rattle.std.specs.Prelude.{◌≡◌};
ghost use Rattle.bios_modes.specs.Heights.{row_at_height, colour_text_row, fifty_rows_underlined_at};
ghost use Rattle.bios_modes.specs.Heights.{monochrome_text_row};
ghost use Rattle.bios_modes.specs.Heights.{mode_row_at_height as mode_row_at_height_of};
ghost use Rattle.bios_modes.specs.Heights.{text_row as text_row_of};
ghost use Rattle.bios_modes.specs.Heights.{text_row_of_mode_row, twenty_eight_rows_underlined_at};
ghost use Rattle.bios_modes.specs.Heights.{twenty_five_rows_underlined_at};
ghost use Rattle.bios_modes.specs.Heights.{with_text_row};

use super::kind::Kind;
use super::modes::{ModeRow, mode_row};
use super::palette::Palette;

/// The CRT controller's register of the height of characters.
const MAXIMUM_SCAN_LINE: usize = 0x09;
/// The CRT controller's register of the last line of the display.
const VERTICAL_DISPLAY_END: usize = 0x12;
/// The CRT controller's register of the scan line of underlines.
const UNDERLINE: usize = 0x14;

/// A row of the text-height table: the values of the BIOS data and of the CRT controller in a text
/// mode at one height of characters.
#[derive(Clone, Copy, PartialEq, Eq, Debug)]
pub struct TextRow {
    /// How many scan lines a character has: 8, 14 or 16.
    pub height: u8,
    /// The number of the last row of characters.
    pub last_row: u8,
    /// How many bytes a page has.
    pub size: u16,
    /// How many pages there are: 4 or 8.
    pub pages: u8,
    /// Register 09 of the CRT controller: bits 4 to 0 are the last scan line of a character.
    pub maximum_scan_line: u8,
    /// Register 12 of the CRT controller: the low byte of the last scan line that is displayed.
    pub vertical_display_end: u8,
    /// Register 14 of the CRT controller: the scan line of underlines.
    pub underline: u8,
    /// The cursor's first scan line as the high byte, its last as the low one.
    pub cursor_type: u16,
}

impl TextRow {
    /// Characters of 8 scan lines: 50 rows on a page. The argument is the scan line of underlines.
    fn fifty(underline: u8) -> TextRow
        ensures { result ≡ fifty_rows_underlined_at underline }
    {
        TextRow {
            height: 8,
            last_row: 49,
            size: 0x2000,
            pages: 4,
            maximum_scan_line: 0x47,
            vertical_display_end: 0x8F,
            underline,
            cursor_type: 0x0607,
        }
    }

    /// Characters of 14 scan lines: 28 rows on a page.
    fn twenty_eight(underline: u8) -> TextRow
        ensures { result ≡ twenty_eight_rows_underlined_at underline }
    {
        TextRow {
            height: 14,
            last_row: 27,
            size: 0x2000,
            pages: 4,
            maximum_scan_line: 0x4D,
            vertical_display_end: 0x87,
            underline,
            cursor_type: 0x0B0C,
        }
    }

    /// Characters of 16 scan lines: 25 rows on a page. A mode set gives this height.
    fn twenty_five(underline: u8) -> TextRow
        ensures { result ≡ twenty_five_rows_underlined_at underline }
    {
        TextRow {
            height: 16,
            last_row: 24,
            size: 0x1000,
            pages: 8,
            maximum_scan_line: 0x4F,
            vertical_display_end: 0x8F,
            underline,
            cursor_type: 0x0D0E,
        }
    }

    /// The row of a height for text in colour, where no scan line of a character is underlined.
    fn of_colour_text(height: u8) -> Option<TextRow>
        ensures { result ≡ colour_text_row height }
    {
        match height {
            8 => Some(TextRow::fifty(0x1F)),
            14 => Some(TextRow::twenty_eight(0x1F)),
            16 => Some(TextRow::twenty_five(0x1F)),
            _ => None,
        }
    }

    /// The row of a height for monochrome text, where the last scan line of a character is
    /// underlined.
    fn of_monochrome_text(height: u8) -> Option<TextRow>
        ensures { result ≡ monochrome_text_row height }
    {
        match height {
            8 => Some(TextRow::fifty(0x07)),
            14 => Some(TextRow::twenty_eight(0x0D)),
            16 => Some(TextRow::twenty_five(0x0F)),
            _ => None,
        }
    }
}

impl ModeRow {
    /// The mode's row with the values of another height.
    fn with_text_row(self, text: TextRow) -> ModeRow
        ensures { result ≡ with_text_row self text }
    {
        let mut row = self;
        row.crtc[MAXIMUM_SCAN_LINE] = text.maximum_scan_line;
        row.crtc[VERTICAL_DISPLAY_END] = text.vertical_display_end;
        row.crtc[UNDERLINE] = text.underline;
        row.size = text.size;
        row.pages = text.pages;
        row.last_row = text.last_row;
        row.height = text.height;
        row.cursor_type = text.cursor_type;
        row
    }

    /// The text-height table's row for the mode and a height, if there is one.
    fn text_row(&self, height: u8) -> Option<TextRow>
        ensures { result ≡ text_row_of_mode_row self.now height }
    {
        match (self.kind, self.palette) {
            (Kind::Text, Palette::Monochrome) => TextRow::of_monochrome_text(height),
            (Kind::Text, _) => TextRow::of_colour_text(height),
            _ => None,
        }
    }

    /// The mode's row at a height: for text by the table, for graphics the row as it is.
    fn row_at_height(self, height: u16) -> Option<ModeRow>
        ensures { result ≡ row_at_height self height }
    {
        if self.kind != Kind::Text {
            return Some(self);
        }
        if height > u8::MAX as u16 {
            return None;
        }
        let text = self.text_row(height as u8)?;
        Some(self.with_text_row(text))
    }
}

/// The text-height table's row for a text mode, 3 or 7, and a height of 8, 14 or 16 scan lines. No
/// other mode or height has one.
pub fn text_row(mode: u8, height: u8) -> Option<TextRow>
    ensures { result ≡ text_row_of mode height }
{
    mode_row(mode)?.text_row(height)
}

/// The row of a mode at a height: for a text mode by the text-height table, if that has a row; for
/// a graphics mode its own row, whatever the height is.
pub fn mode_row_at_height(mode: u8, height: u16) -> Option<ModeRow>
    ensures { result ≡ mode_row_at_height_of mode height }
{
    mode_row(mode)?.row_at_height(height)
}
