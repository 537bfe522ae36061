//! The characters of a line in text, 16 colours and 256 colours. What a character needs is fetched
//! once for all its dots.
ghost use Rattle.std.specs.Prelude.{◌≡◌, true, not, ℕ, List, ◌+◌, ◌-◌, ◌*◌, ◌==◌, ◌<◌, ◌≤◌, length};
ghost use Rattle.std.specs.Prelude.{bit_and};
ghost use Rattle.std.specs.Prelude.{if◌then◌else◌};
ghost use Rattle.vga_bits.specs.Bits.{is_set};
ghost use Rattle.vga_attr.specs.Fields.{is_line_graphics};
ghost use Rattle.vga_dots.specs.Text.{is_glyph_dot as is_dot_of_glyph, is_cursor_at};
ghost use Rattle.vga_dots.specs.Text.{cell_at as cell_at_place};
ghost use Rattle.vga_dots.specs.Row.{AreDotsPut, colour_and_zero_byte as colour_and_zero_byte_of};
ghost use Rattle.vga_dots.specs.Line.{masked_colour as masked_colour_of};
ghost use Rattle.vga_dots.specs.Line.{sixteen_palette_colours as colours_by_palette_of};
ghost use Rattle.vga_dots.specs.Line.{dot_of_counter};
ghost use Rattle.vga_dots.specs.Line.{colour_of_source_dot};
ghost use Rattle.vga_dots.specs.SourceDot.{fetch_address};
ghost use Rattle.vga_dots.specs.Character.{AreDotsOfCells, IsLookOfItsCells};
ghost use Rattle.vga_dots.specs.EightDots.{AreEightDotsOfColour, AreGroundAndChange};
ghost use Rattle.vga_dots.specs.TextColours.{AreTextColoursOf};
ghost use Rattle.vga_dots.specs.Display.{ShowsText, ShowsPlanes};
ghost use Rattle.vga_dots.specs.Alike.{IsCursorlessCell};

use crate::addressing::Addressing;
use crate::display::Display;
use crate::eight_dots::{EightDots, NO_CHANGE, put_glyph};
use crate::row::{PaletteColours, put_packed_character, put_planar_character};
use crate::text::{Cell, GLYPH_BYTES, PLANE_OF_GLYPHS, cell_at};
use crate::text_colours::{TextColours, text_colour};
use crate::text_line::TextLineSettings;
use vga_attr::Attr;
use vga_dac::Dac;

/// All nine dots of a line of a glyph.
const ALL_DOTS: u16 = 0x1FF;

/// The colour of a number.
pub(crate) fn masked_colour(dac: &Dac, n: u8) -> [u8; 3]
    ensures { result ≡ masked_colour_of dac.now n }
{
    dac.entry(n & dac.mask())
}

/// The colour of a number, with a byte more.
fn colour_and_zero_byte(dac: &Dac, n: u8) -> [u8; 4]
    ensures { result ≡ colour_and_zero_byte_of (masked_colour_of dac.now n) }
{
    dac.entry_and_zero_byte(n & dac.mask())
}

/// The colours of the 16 values of four bits, each with a byte more.
fn sixteen_palette_colours(attr: &Attr, dac: &Dac) -> PaletteColours
    ensures { result ≡ colours_by_palette_of attr.now dac.now }
{
    let numbers = attr.table();
    [
        colour_and_zero_byte(dac, numbers[0]),
        colour_and_zero_byte(dac, numbers[1]),
        colour_and_zero_byte(dac, numbers[2]),
        colour_and_zero_byte(dac, numbers[3]),
        colour_and_zero_byte(dac, numbers[4]),
        colour_and_zero_byte(dac, numbers[5]),
        colour_and_zero_byte(dac, numbers[6]),
        colour_and_zero_byte(dac, numbers[7]),
        colour_and_zero_byte(dac, numbers[8]),
        colour_and_zero_byte(dac, numbers[9]),
        colour_and_zero_byte(dac, numbers[10]),
        colour_and_zero_byte(dac, numbers[11]),
        colour_and_zero_byte(dac, numbers[12]),
        colour_and_zero_byte(dac, numbers[13]),
        colour_and_zero_byte(dac, numbers[14]),
        colour_and_zero_byte(dac, numbers[15]),
    ]
}

/// The dots of one line of a glyph, as bits. Bit 8 is the leftmost dot.
#[inline(always)]
fn glyph_dots(attr: &Attr, line: &TextLineSettings, character: u8, row: u8) -> u16
    requires line { line.now.nine_dot_block ≡ (if is_line_graphics attr.now then 0xC0 else 0x100) }
    ensures dots { (i : ℕ) → i < 9 → is_set result (8 - i)
        ≡ is_dot_of_glyph attr.now character row i }
    ensures nine { result < 512 }
{
    2 * row as u16 + line.ninth_dot(character, row) as u16
}

/// Eight dots of the ground of an attribute's cells without the cursor, and the bits in which eight
/// dots of their glyphs differ from it. If the cells are blinked away, all dots have the background;
/// if they are underlined, all have the foreground.
fn ground_and_change(
    line: &TextLineSettings,
    attribute: u8,
    fore: EightDots,
    back: EightDots,
) -> (EightDots, EightDots)
    ensures { (f b : List ℕ) → AreEightDotsOfColour fore f → AreEightDotsOfColour back b
        → AreGroundAndChange result f b (not (bit_and attribute line.now.blinked_away == 0))
        (bit_and attribute 0x77 == line.now.underlined) }
{
    if line.blinks_away(attribute) {
        (back, NO_CHANGE)
    } else if line.underlines(attribute) {
        (fore, NO_CHANGE)
    } else {
        (back, back.changed_bits(fore))
    }
}

/// How the cells of an attribute look on a line without the cursor: eight dots of their ground, the
/// bits in which eight dots of their glyphs differ from it, and where the glyphs are.
#[derive(Clone, Copy)]
pub(crate) struct CellLook {
    pub attribute: u8,
    pub ground: EightDots,
    pub change: EightDots,
    /// The address in its plane of the beam's line of the first glyph.
    pub glyphs: u16,
}

/// A way to draw the characters of a line of graphics, which are `CW` dots wide.
pub(crate) trait CharacterDrawing<const CW: usize> {
    ghost use Rattle.vga_dots.specs.Display.{DisplayState};

    ghost draws: { Self → DisplayState → Type 0 };

    /// Writes the dots of a counter's character.
    fn put(&self, display: &Display<'_>, counter: u16, row: &mut [u8], at: usize)
        requires draws { draws self.now display.now }
        requires room { 3 * (at + CW) ≤ length row.old }
        requires width { CW < 10 }
        ensures { AreDotsPut CW at (λ i. colour_of_source_dot display.now (dot_of_counter counter
            i)) row.old
            row.new };
}

/// Characters of text, with what is looked up once for a line.
#[derive(Drop)]
pub(crate) struct TextCharacters {
    addressing: Addressing,
    line: TextLineSettings,
}

impl TextCharacters {
    ghost use Rattle.vga_dots.specs.Character.{AreTextCharactersOf};

    /// The characters of text of the beam's line.
    pub(crate) fn at_beam(display: &Display<'_>) -> TextCharacters
        requires { ShowsText display.now }
        ensures { AreTextCharactersOf result display.now }
    {
        TextCharacters {
            addressing: Addressing::new(display.crtc().fields()),
            line: TextLineSettings::at_beam(display),
        }
    }

    /// The cell of a counter.
    #[inline(always)]
    pub(crate) fn cell(&self, display: &Display<'_>, counter: u16) -> Cell
        requires { AreTextCharactersOf self.now display.now }
        ensures { result ≡ cell_at_place display.now.host
            (fetch_address display.now.crtc.registers counter) }
    {
        cell_at(display.host(), self.addressing.address(counter))
    }

    /// Whether a counter has this cell, and no cursor.
    #[inline(always)]
    pub(crate) fn is_cursorless_cell(&self, display: &Display<'_>, counter: u16, cell: Cell) -> bool
        requires { AreTextCharactersOf self.now display.now }
        ensures { result ≡ true → IsCursorlessCell display.now counter cell }
    {
        self.cell(display, counter).is_same(cell) && !self.line.has_cursor_at(counter)
    }

    /// Eight dots of the ground of an attribute's cells without the cursor, and the bits in which
    /// eight dots of their glyphs differ from it.
    #[inline(always)]
    fn dots_of_cells(
        &self,
        display: &Display<'_>,
        colours: &mut TextColours,
        attribute: u8,
    ) -> (EightDots, EightDots)
        requires text { AreTextCharactersOf self.now display.now }
        requires colours { AreTextColoursOf colours.old display.now }
        ensures dots { AreDotsOfCells attribute result.0 result.1 display.now }
        ensures colours { AreTextColoursOf colours.new display.now }
    {
        let fore = colours.eight_dots(display, attribute % 16);
        let back = colours.eight_dots(display, self.line.background(attribute));
        ground_and_change(&self.line, attribute, fore, back)
    }

    /// How the cells of an attribute look.
    #[inline(always)]
    pub(crate) fn look(
        &self,
        display: &Display<'_>,
        colours: &mut TextColours,
        attribute: u8,
    ) -> CellLook
        requires text { AreTextCharactersOf self.now display.now }
        requires colours { AreTextColoursOf colours.old display.now }
        ensures look { IsLookOfItsCells result display.now }
        ensures attribute { result.attribute ≡ attribute }
        ensures colours { AreTextColoursOf colours.new display.now }
    {
        let (ground, change) = self.dots_of_cells(display, colours, attribute);
        CellLook {
            attribute,
            ground,
            change,
            glyphs: self.line.row_address_of_first_glyph(attribute),
        }
    }

    /// Writes the dots of a counter's character, which has the cursor.
    #[inline(never)]
    fn put_cursor<const CW: usize>(
        &self,
        display: &Display<'_>,
        counter: u16,
        cell: Cell,
        row: &mut [u8],
        at: usize,
    )
        requires draws { AreTextCharactersOf self.now display.now }
        requires cell { cell ≡ cell_at_place display.now.host
            (fetch_address display.now.crtc.registers counter) }
        requires cursor { is_cursor_at display.now.crtc counter ≡ true }
        requires room { 3 * (at + CW) ≤ length row.old }
        requires width { CW < 10 }
        requires eight { 8 ≤ CW }
        ensures { AreDotsPut CW at (λ i. colour_of_source_dot display.now (dot_of_counter counter
            i)) row.old
            row.new }
    {
        let fore = text_colour(display, cell.attribute % 16);
        put_glyph::<CW>(row, at, ALL_DOTS, fore, NO_CHANGE);
    }

    /// Writes the dots of a counter's character. It has this cell, which looks like this.
    #[inline(always)]
    pub(crate) fn put<const CW: usize>(
        &self,
        display: &Display<'_>,
        counter: u16,
        cell: Cell,
        look: CellLook,
        row: &mut [u8],
        at: usize,
    )
        requires draws { AreTextCharactersOf self.now display.now }
        requires cell { cell ≡ cell_at_place display.now.host
            (fetch_address display.now.crtc.registers counter) }
        requires look { IsLookOfItsCells look display.now }
        requires attribute { look.attribute ≡ cell.attribute }
        requires room { 3 * (at + CW) ≤ length row.old }
        requires width { CW < 10 }
        requires eight { 8 ≤ CW }
        ensures { AreDotsPut CW at (λ i. colour_of_source_dot display.now (dot_of_counter counter
            i)) row.old
            row.new }
    {
        if self.line.has_cursor_at(counter) {
            self.put_cursor::<CW>(display, counter, cell, row, at);
            return;
        }
        let place = look.glyphs + GLYPH_BYTES * cell.character as u16;
        let byte = display.planes().byte(PLANE_OF_GLYPHS, place);
        let dots = glyph_dots(display.attr(), &self.line, cell.character, byte);
        put_glyph::<CW>(row, at, dots, look.ground, look.change);
    }
}

/// Characters in 16 colours, with the colours looked up once.
#[derive(Drop)]
pub(crate) struct PlanarCharacters {
    addressing: Addressing,
    table: PaletteColours,
}

impl PlanarCharacters {
    ghost use Rattle.vga_dots.specs.Character.{ArePlanarCharactersOf};

    /// The characters of a line in 16 colours. They are the same for every line.
    #[inline(always)]
    pub(crate) fn new(display: &Display<'_>) -> PlanarCharacters
        requires { ShowsPlanes display.now }
        ensures { ArePlanarCharactersOf result display.now }
    {
        PlanarCharacters {
            addressing: Addressing::new(display.crtc().fields()),
            table: sixteen_palette_colours(display.attr(), display.dac()),
        }
    }
}

impl<const CW: usize> CharacterDrawing<CW> for PlanarCharacters {
    ghost use Rattle.vga_dots.specs.Character.{ArePlanarCharactersOf};

    ghost draws = { ArePlanarCharactersOf };

    #[inline(always)]
    fn put(&self, display: &Display<'_>, counter: u16, row: &mut [u8], at: usize) {
        let address = self.addressing.address(counter);
        put_planar_character::<CW>(row, at, display.planes().word(address), &self.table);
    }
}

/// Characters in 256 colours.
#[derive(Drop)]
pub(crate) struct PackedCharacters {
    addressing: Addressing,
}

impl PackedCharacters {
    ghost use Rattle.vga_dots.specs.Character.{ArePackedCharactersOf};
    ghost use Rattle.vga_dots.specs.Display.{ShowsBytes};

    /// The characters of a line in 256 colours. They are the same for every line.
    pub(crate) fn new(display: &Display<'_>) -> PackedCharacters
        requires { ShowsBytes display.now }
        ensures { ArePackedCharactersOf result display.now }
    {
        PackedCharacters {
            addressing: Addressing::new(display.crtc().fields()),
        }
    }
}

impl<const CW: usize> CharacterDrawing<CW> for PackedCharacters {
    ghost use Rattle.vga_dots.specs.Character.{ArePackedCharactersOf};

    ghost draws = { ArePackedCharactersOf };

    #[inline(always)]
    fn put(&self, display: &Display<'_>, counter: u16, row: &mut [u8], at: usize) {
        let address = self.addressing.address(counter);
        let fetched = display.planes().load(address);
        let dac = display.dac();
        let pixels = [
            colour_and_zero_byte(dac, fetched.byte(0)),
            colour_and_zero_byte(dac, fetched.byte(1)),
            colour_and_zero_byte(dac, fetched.byte(2)),
            colour_and_zero_byte(dac, fetched.byte(3)),
            colour_and_zero_byte(dac, 0),
        ];
        put_packed_character::<CW>(row, at, &pixels);
    }
}
