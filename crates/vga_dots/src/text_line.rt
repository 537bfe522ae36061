//! What is looked up once for a whole line of text.
ghost use Rattle.std.specs.Prelude.{◌≡◌, ◌+◌, ◌*◌, ◌/◌, ◌%◌, ◌<◌, ◌==◌, ◌&&◌, not, nat_le, nat_lt};
ghost use Rattle.std.specs.Prelude.{bit_and, if◌then◌else◌};
ghost use Rattle.vga_bits.specs.Bits.{is_set as is_set_of};
ghost use Rattle.vga_crtc.specs.Fields.{is_cursor_off, cursor_start, cursor_end, cursor_location};
ghost use Rattle.vga_crtc.specs.Fields.{underline_location};
ghost use Rattle.vga_attr.specs.Fields.{is_monochrome, is_line_graphics, is_blink};
ghost use Rattle.vga_dots.specs.TextLine.{text_line, GlyphRowsLieInPlane};

use crate::display::Display;
use crate::text::{UNDERLINE_BITS, map_start};
use vga_attr::Attr;
use vga_bits::is_set;
use vga_crtc::Crtc;

/// A number that no counter equals.
const NO_COUNTER: u32 = 0x1_0000;

/// The attribute bit that makes a character blink.
const BLINKING: u8 = 0x80;

/// The value of the attribute bits that select underline.
const UNDERLINED: u8 = 0x01;

/// A value that the attribute bits never have.
const NOT_UNDERLINED: u8 = 0xFF;

/// The first of the 32 line-drawing characters, C0 to DF.
const LINE_DRAWING: u16 = 0xC0;

/// A number at which no block of 32 characters begins.
const NO_BLOCK: u16 = 0x100;

/// How many characters a block has.
const BLOCK: u8 = 32;

/// The bits of a background without its intensity.
const DARK_BACKGROUNDS: u8 = 0x07;

/// The bits of a background with its intensity.
const ALL_BACKGROUNDS: u8 = 0x0F;

/// What the beam's line decides for all its characters of text alike. A character is drawn from
/// these fields, and the registers are not looked at again. If a line does not have a feature, its
/// field is a number that never matches, or a mask without bits. So a character needs one
/// comparison for it.
#[derive(Clone, Copy)]
pub struct TextLineSettings {
    /// The counter of the cursor if this line shows it, else 65,536, which no counter equals.
    pub cursor: u32,
    /// The attribute bit whose characters are blinked away, or 0 if none are.
    pub blinked_away: u8,
    /// The value of attribute bits 77 (hexadecimal) that selects underline on this line: 1, or 255,
    /// which never matches.
    pub underlined: u8,
    /// The address in its plane of this line of map A's first glyph.
    pub map_a: u16,
    /// The address in its plane of this line of map B's first glyph.
    pub map_b: u16,
    /// The first of the 32 characters whose ninth dot repeats the eighth: C0, or 100
    /// (hexadecimal), which no character is.
    pub nine_dot_block: u16,
    /// Which of attribute bits 7 to 4 belong to the background.
    pub background_mask: u8,
}

/// Whether the beam's line shows the cursor in the beam's frame.
fn beam_line_has_cursor(crtc: &Crtc) -> bool
    ensures { result ≡ (not (is_cursor_off crtc.now.registers)
        && nat_le (cursor_start crtc.now.registers) crtc.now.beam.scan
        && nat_le crtc.now.beam.scan (cursor_end crtc.now.registers)
        && nat_lt (crtc.now.beam.frame % 16) 8) }
{
    let registers = crtc.fields();
    let beam = crtc.beam();
    !registers.is_cursor_off()
        && registers.cursor_start() <= beam.scan
        && beam.scan <= registers.cursor_end()
        && beam.frame % 16 < 8
}

/// The counter at which the beam's line shows the cursor, or 65,536, which no counter equals.
fn shown_cursor_counter(crtc: &Crtc) -> u32
    ensures { result ≡ (if not (is_cursor_off crtc.now.registers)
        && nat_le (cursor_start crtc.now.registers) crtc.now.beam.scan
        && nat_le crtc.now.beam.scan (cursor_end crtc.now.registers)
        && nat_lt (crtc.now.beam.frame % 16) 8 then cursor_location crtc.now.registers
        else 65536) }
{
    if beam_line_has_cursor(crtc) {
        crtc.fields().cursor_location() as u32
    } else {
        NO_COUNTER
    }
}

/// The attribute bit whose characters are blinked away in a frame, or 0 if none are.
fn blinked_away(attr: &Attr, frame: u8) -> u8
    ensures { result ≡ (if is_blink attr.now && nat_le 16 frame then 0x80 else 0) }
{
    if attr.is_blink() && 16 <= frame {
        BLINKING
    } else {
        0
    }
}

/// The value of the attribute bits that selects underline at the beam's line; 255 never matches.
fn underlined(display: &Display<'_>) -> u8
    ensures { result ≡ (if is_monochrome display.now.attr
        && display.now.crtc.beam.scan == underline_location display.now.crtc.registers then 1
        else 0xFF) }
{
    let crtc = display.crtc();
    if display.attr().is_monochrome() && crtc.beam().scan == crtc.fields().underline_location() {
        UNDERLINED
    } else {
        NOT_UNDERLINED
    }
}

/// The first of the characters whose ninth dot repeats the eighth, or a number that no character
/// has.
fn nine_dot_block(attr: &Attr) -> u16
    ensures { result ≡ (if is_line_graphics attr.now then 0xC0 else 0x100) }
{
    if attr.is_line_graphics() {
        LINE_DRAWING
    } else {
        NO_BLOCK
    }
}

/// The bits of a background. The highest is left out if it means blinking.
fn background_mask(attr: &Attr) -> u8
    ensures { result ≡ (if is_blink attr.now then 0x07 else 0x0F) }
{
    if attr.is_blink() {
        DARK_BACKGROUNDS
    } else {
        ALL_BACKGROUNDS
    }
}

impl TextLineSettings {
    /// What the beam's line decides. It is never inlined into the loop that draws: a compiler that
    /// saw how the numbers are made would compute them again for each character.
    #[inline(never)]
    #[tactic(auto, unfolding(crate::specs::TextLine::text_line))]
    pub(crate) fn at_beam(display: &Display<'_>) -> TextLineSettings
        ensures value { result ≡ text_line display.now.host display.now.crtc display.now.attr }
        ensures glyphs { GlyphRowsLieInPlane result }
    {
        let host = display.host();
        let crtc = display.crtc();
        let attr = display.attr();
        let beam = crtc.beam();
        TextLineSettings {
            cursor: shown_cursor_counter(crtc),
            blinked_away: blinked_away(attr, beam.frame),
            underlined: underlined(display),
            map_a: map_start(host.character_map_a()) + beam.scan as u16,
            map_b: map_start(host.character_map_b()) + beam.scan as u16,
            nine_dot_block: nine_dot_block(attr),
            background_mask: background_mask(attr),
        }
    }

    /// Whether the cursor is shown at a counter.
    #[inline(always)]
    pub(crate) fn has_cursor_at(&self, counter: u16) -> bool
        ensures { result ≡ (counter == self.now.cursor) }
    {
        counter as u32 == self.cursor
    }

    /// Whether the cells of an attribute are blinked away.
    pub(crate) fn blinks_away(&self, attribute: u8) -> bool
        ensures { result ≡ not (bit_and attribute self.now.blinked_away == 0) }
    {
        attribute & self.blinked_away != 0
    }

    /// Whether the cells of an attribute have their underline here.
    pub(crate) fn underlines(&self, attribute: u8) -> bool
        ensures { result ≡ (bit_and attribute 0x77 == self.now.underlined) }
    {
        attribute & UNDERLINE_BITS == self.underlined
    }

    /// The address in its plane of this line of the first glyph for an attribute.
    pub(crate) fn row_address_of_first_glyph(&self, attribute: u8) -> u16
        ensures { result ≡ (if is_set_of attribute 3 then self.now.map_a else self.now.map_b) }
    {
        if is_set(attribute, 3) {
            self.map_a
        } else {
            self.map_b
        }
    }

    /// The ninth dot of a row of a character's glyph, 1 where it is lit.
    #[inline(always)]
    pub(crate) fn ninth_dot(&self, character: u8, row: u8) -> u8
        ensures value { result ≡ (if character / 32 * 32 == self.now.nine_dot_block then row % 2
            else 0) }
        ensures small { result < 2 }
    {
        if (character / BLOCK * BLOCK) as u16 == self.nine_dot_block {
            row % 2
        } else {
            0
        }
    }

    /// The four bits of an attribute's background.
    #[inline(always)]
    pub(crate) fn background(&self, attribute: u8) -> u8
        ensures value { result ≡ bit_and (attribute / 16) self.now.background_mask }
        ensures small { result < 16 }
    {
        (attribute >> 4) & self.background_mask
    }
}
