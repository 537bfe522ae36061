//! What text makes of the dot at the beam.
ghost use Rattle.std.specs.Prelude.{◌≡◌, true, false, MatchOption};
ghost use Rattle.vga_host.specs.Graphics.{is_graphics};
ghost use Rattle.vga_dots.specs.SourceDot.{source_dot};
ghost use Rattle.vga_dots.specs.Fetch.{address_fetched_at_beam};
ghost use Rattle.vga_dots.specs.TextTrace.{IsTextTrace};

use crate::display::Display;
use crate::source_dot::SourceDot;
use crate::text::{
    Cell, GLYPH_BYTES, cell_at, character_map, glyph_row, is_blinked_away, is_cursor_at,
    is_foreground, is_glyph_dot, is_underlined, map_start,
};

/// What text makes of a dot: its cell, the row of the glyph, and why the dot has the foreground or
/// the background of the cell. If `is_cursor`, it has the foreground; else, if `is_blinked_away`,
/// the background; else, if `is_underlined`, the foreground; else `is_glyph_dot` decides.
///
/// From the IBM PS/2 Hardware Interface Technical Reference, Video Subsystems, "Alphanumeric
/// Modes".
#[derive(Clone, Copy)]
pub struct TextTrace {
    /// The character and its attribute.
    pub cell: Cell,
    /// The character map, 0 to 7, that contains the glyph. Attribute bit 3 selects map A or B.
    pub map: u8,
    /// Where the glyph's row is in plane 2.
    pub glyph_address: u16,
    /// The glyph's row at the beam's scan line; its leftmost dot is bit 7.
    pub glyph_row: u8,
    /// Whether the dot is one of the cursor, as it is shown in this frame.
    pub is_cursor: bool,
    /// Whether the character blinks, and this frame is one without it.
    pub is_blinked_away: bool,
    /// Whether the dot is one of the character's underline.
    pub is_underlined: bool,
    /// Whether the dot belongs to the glyph.
    pub is_glyph_dot: bool,
    /// Whether the dot has the foreground of the cell: attribute bits 3 to 0.
    pub is_foreground: bool,
}

impl TextTrace {
    /// What text makes of the dot at the beam, which is dot `source` of the character at `address`.
    #[tactic(auto, unfolding(crate::specs::Text::glyph_row))]
    fn of_source(display: &Display<'_>, source: SourceDot, address: u16) -> TextTrace
        requires text { is_graphics display.now.host ≡ false }
        requires source { source ≡ source_dot display.now.host display.now.crtc display.now.attr }
        requires address { address ≡ address_fetched_at_beam display.now.host display.now.crtc
            display.now.attr }
        ensures { IsTextTrace display.now result }
    {
        let host = display.host();
        let scan = display.beam().scan;
        let cell = cell_at(host, address);
        let map = character_map(host, cell);
        let glyph_address = map_start(map) + GLYPH_BYTES * cell.character as u16 + scan as u16;
        let glyph_row = glyph_row(host, cell, scan);
        TextTrace {
            cell,
            map,
            glyph_address,
            glyph_row,
            is_cursor: is_cursor_at(display.crtc(), source.counter),
            is_blinked_away: is_blinked_away(display, cell),
            is_underlined: is_underlined(display, cell),
            is_glyph_dot: is_glyph_dot(display.attr(), cell.character, glyph_row, source.dot),
            is_foreground: is_foreground(display, source, cell),
        }
    }

    /// What text makes of the dot at the beam, which is dot `source` of the character at `address`;
    /// `None` in graphics.
    pub(crate) fn at_beam(
        display: &Display<'_>,
        source: SourceDot,
        address: u16,
    ) -> Option<TextTrace>
        requires source { source ≡ source_dot display.now.host display.now.crtc display.now.attr }
        requires address { address ≡ address_fetched_at_beam display.now.host display.now.crtc
            display.now.attr }
        ensures { MatchOption result (is_graphics display.now.host ≡ true)
            (IsTextTrace display.now) }
    {
        if display.host().is_graphics() {
            None
        } else {
            Some(TextTrace::of_source(display, source, address))
        }
    }
}
