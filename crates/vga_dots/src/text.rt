//! Text: the four bits of a dot of a character with its attribute.
ghost use Rattle.std.specs.Prelude.{◌≡◌, ◌<◌, if◌then◌else◌, true};
ghost use Rattle.vga_bits.specs.Bits.{field};
ghost use Rattle.vga_dots.specs.Text.{cell_at as cell_of_place, map_start as start_of_map};
ghost use Rattle.vga_dots.specs.Text.{character_map as map_of_cell, glyph_row as row_of_glyph};
ghost use Rattle.vga_dots.specs.Text.{is_glyph_dot as is_dot_of_glyph};
ghost use Rattle.vga_dots.specs.Text.{is_underlined as is_underlined_cell};
ghost use Rattle.vga_dots.specs.Text.{is_blinked_away as is_blinked_cell};
ghost use Rattle.vga_dots.specs.Text.{is_cursor_at as is_cursor_of};
ghost use Rattle.vga_dots.specs.Text.{is_foreground as is_foreground_dot};
ghost use Rattle.vga_dots.specs.Text.{background as background_of};
ghost use Rattle.vga_dots.specs.Text.{cell_nibble as nibble_of_cell, text_nibble as nibble_of_text};

use crate::display::Display;
use crate::source_dot::SourceDot;
use vga_attr::Attr;
use vga_bits::is_set;
use vga_crtc::Crtc;
use vga_host::Host;

/// The number of the plane with the characters of text. Attributes and glyphs are in the next two
/// planes.
const CHARACTERS: usize = 0;

const PLANE_OF_ATTRIBUTES: usize = 1;

pub(crate) const PLANE_OF_GLYPHS: usize = 2;

/// How many bytes a glyph has in its map.
pub(crate) const GLYPH_BYTES: u16 = 32;

/// The bits of an attribute that decide whether it is underlined.
pub(crate) const UNDERLINE_BITS: u8 = 0x77;

/// A character and its attribute.
#[derive(Clone, Copy)]
pub struct Cell {
    pub character: u8,
    pub attribute: u8,
}

impl Cell {
    /// True only if two cells are the same.
    pub(crate) fn is_same(self, other: Cell) -> bool
        ensures { result ≡ true → self ≡ other }
    {
        self.character == other.character && self.attribute == other.attribute
    }
}

/// The character and the attribute at an address in the planes.
#[tactic(auto, unfolding(crate::specs::Text::cell_at))]
pub(crate) fn cell_at(host: &Host, address: u16) -> Cell
    ensures { result ≡ cell_of_place host.now address }
{
    let planes = host.planes();
    Cell {
        character: planes.byte(CHARACTERS, address),
        attribute: planes.byte(PLANE_OF_ATTRIBUTES, address),
    }
}

/// Where a character map, 0 to 7, begins in its plane.
pub(crate) fn map_start(map: u8) -> u16
    requires { map < 8 }
    ensures { result ≡ start_of_map map }
{
    16384 * (map % 4) as u16 + 8192 * (map / 4) as u16
}

/// The map, 0 to 7, that contains the glyph of a cell's character.
pub(crate) fn character_map(host: &Host, cell: Cell) -> u8
    ensures value { result ≡ map_of_cell host.now cell }
    ensures below { result < 8 }
{
    if is_set(cell.attribute, 3) {
        host.character_map_a()
    } else {
        host.character_map_b()
    }
}

/// The row of a cell's glyph at a scan line, 0 to 31.
#[tactic(auto, unfolding(crate::specs::Text::glyph_row))]
pub(crate) fn glyph_row(host: &Host, cell: Cell, scan: u8) -> u8
    requires { scan < 32 }
    ensures { result ≡ row_of_glyph host.now cell scan }
{
    let start = map_start(character_map(host, cell));
    let place = start + GLYPH_BYTES * cell.character as u16 + scan as u16;
    host.planes().byte(PLANE_OF_GLYPHS, place)
}

/// Whether dot `i` of a row belongs to the glyph.
#[tactic(auto, unfolding(crate::specs::Text::is_glyph_dot))]
pub(crate) fn is_glyph_dot(attr: &Attr, character: u8, row: u8, i: u8) -> bool
    ensures { result ≡ is_dot_of_glyph attr.now character row i }
{
    if i < 8 {
        is_set(row, (7 - i) as u32)
    } else {
        attr.is_line_graphics() && 0xC0 <= character && character <= 0xDF && is_set(row, 0)
    }
}

/// Whether a cell is underlined at the beam's scan line.
#[tactic(auto, unfolding(crate::specs::Text::is_underlined))]
pub(crate) fn is_underlined(display: &Display<'_>, cell: Cell) -> bool
    ensures { result ≡ is_underlined_cell display.now.crtc display.now.attr cell }
{
    display.attr().is_monochrome()
        && cell.attribute & UNDERLINE_BITS == 1
        && display.beam().scan == display.crtc().fields().underline_location()
}

/// Whether a cell is blinked away in the beam's frame.
#[tactic(auto, unfolding(crate::specs::Text::is_blinked_away))]
pub(crate) fn is_blinked_away(display: &Display<'_>, cell: Cell) -> bool
    ensures { result ≡ is_blinked_cell display.now.crtc display.now.attr cell }
{
    display.attr().is_blink() && is_set(cell.attribute, 7) && 16 <= display.beam().frame
}

/// Whether the cursor is shown at a counter.
#[tactic(auto, unfolding(crate::specs::Text::is_cursor_at))]
pub(crate) fn is_cursor_at(crtc: &Crtc, counter: u16) -> bool
    ensures { result ≡ is_cursor_of crtc.now counter }
{
    let registers = crtc.fields();
    let beam = crtc.beam();
    counter == registers.cursor_location()
        && !registers.is_cursor_off()
        && registers.cursor_start() <= beam.scan
        && beam.scan <= registers.cursor_end()
        && beam.frame % 16 < 8
}

/// Whether a dot has its cell's foreground: by cursor, blink and underline, or else by the glyph.
#[tactic(auto, unfolding(crate::specs::Text::is_foreground))]
pub(crate) fn is_foreground(display: &Display<'_>, source: SourceDot, cell: Cell) -> bool
    ensures { result ≡ is_foreground_dot display.now.host display.now.crtc display.now.attr source
        cell }
{
    if is_cursor_at(display.crtc(), source.counter) {
        true
    } else if is_blinked_away(display, cell) {
        false
    } else if is_underlined(display, cell) {
        true
    } else {
        let row = glyph_row(display.host(), cell, display.beam().scan);
        is_glyph_dot(display.attr(), cell.character, row, source.dot)
    }
}

/// The four bits of a cell's background, or three where bit 7 of attributes blinks.
pub(crate) fn background_bits(cell: Cell, is_blink: bool) -> u8
    ensures value { result ≡ (if is_blink then field cell.attribute 6 4
        else field cell.attribute 7 4) }
    ensures small { result < 16 }
{
    if is_blink {
        (cell.attribute >> 4) % 8
    } else {
        cell.attribute >> 4
    }
}

/// The four bits of a cell's background.
fn background(attr: &Attr, cell: Cell) -> u8
    ensures { result ≡ background_of attr.now cell }
{
    background_bits(cell, attr.is_blink())
}

/// The four bits of a dot of a cell.
fn cell_nibble(display: &Display<'_>, source: SourceDot, cell: Cell) -> u8
    ensures { result ≡ nibble_of_cell display.now.host display.now.crtc display.now.attr source
        cell }
{
    if is_foreground(display, source, cell) {
        cell.attribute % 16
    } else {
        background(display.attr(), cell)
    }
}

/// The four bits of a dot of text.
#[tactic(auto, unfolding(crate::specs::Text::text_nibble))]
pub(crate) fn text_nibble(display: &Display<'_>, source: SourceDot) -> u8
    ensures { result ≡ nibble_of_text display.now.host display.now.crtc display.now.attr source }
{
    let cell = cell_at(display.host(), display.fetch_address(source.counter));
    cell_nibble(display, source, cell)
}
