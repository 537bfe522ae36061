//! The dots of a line, a character at a time.
ghost use Rattle.std.specs.Prelude.{◌≡◌, ◌+◌, ◌*◌, ◌<◌, ◌≤◌, length};
ghost use Rattle.vga_host.specs.Sequencer.{character_width};
ghost use Rattle.vga_dots.specs.SourceDot.{panning_shift as panning_shift_of};
ghost use Rattle.vga_dots.specs.Display.{display_of, ShowsMemory, ShowsText};
ghost use Rattle.vga_dots.specs.Character.{AreTextCharactersOf};
ghost use Rattle.vga_dots.specs.Row.{AreCharactersPut};
ghost use Rattle.vga_dots.specs.Line.{shown_characters as characters_shown, unpanned_colour};
ghost use Rattle.vga_dots.specs.Line.{IsLineDrawn, AreNextDotsDrawn};

use crate::alike::{count_characters_to_draw, repeat_last_character};
use crate::character::{
    CharacterDrawing, PackedCharacters, PlanarCharacters, TextCharacters, masked_colour,
};
use crate::colour::BLACK;
use crate::display::Display;
use crate::row::{copy_dots, fill_characters};
use crate::source_dot::panning_shift;
use crate::text_colours::TextColours;
use vga_attr::Attr;
use vga_crtc::{Crtc, Registers};
use vga_dac::Dac;
use vga_host::Host;

/// How many bytes the dots of 257 characters of nine dots have: those of the longest line, and one
/// more.
const UNPANNED_BYTES: usize = 6_939;

/// The most dots of a part of a line.
pub const MOST_DOTS_OF_PART: usize = 128;

/// The attribute of most text: grey on black.
const USUAL_ATTRIBUTE: u8 = 0x07;

/// How many bytes the characters that contain a part have at most: 145 dots.
const PART_BYTES: usize = 435;

/// The most dots of a small part.
const SMALL_PART: usize = 32;

/// How many bytes the characters that contain a small part have at most: 49 dots.
const SMALL_PART_BYTES: usize = 147;

/// How many characters of a line are displayed, 1 to 256.
pub fn shown_characters(registers: &Registers) -> u16
    ensures value { result ≡ characters_shown registers.now }
    ensures few { result ≤ 256 }
{
    (registers.horizontal_display_end() as u16 + 1).min(registers.characters())
}

/// Draws `count` characters of the beam's line from `first` on, all in one way, as if the line were
/// not panned.
fn draw_graphics_characters<const CW: usize, C: CharacterDrawing<CW>>(
    display: &Display<'_>,
    characters: &C,
    first: usize,
    count: usize,
    row: &mut [u8],
)
    requires draws { C.draws characters.now display.now }
    requires first { first ≤ 300 }
    requires count { count ≤ 257 }
    requires width { CW < 10 }
    requires room { 3 * (count * CW) ≤ length row.old }
    ensures { AreCharactersPut CW count (λ x. unpanned_colour display.now (first + x)) row.old
        row.new }
{
    let start = display.counter(first as u16);
    for x in 0..count {
        characters.put(display, start.wrapping_add(x as u16), row, x * CW);
    }
}

/// Draws `count` characters of text one by one, from `first` on, as if the line were not panned.
/// Most of them have the attribute of the one before, so what an attribute decides is looked up
/// only where it changes.
fn draw_cells<const CW: usize>(
    display: &Display<'_>,
    characters: &TextCharacters,
    first: usize,
    count: usize,
    row: &mut [u8],
)
    requires draws { AreTextCharactersOf characters.now display.now }
    requires first { first ≤ 300 }
    requires count { count ≤ 257 }
    requires width { CW < 10 }
    requires eight { 8 ≤ CW }
    requires room { 3 * (count * CW) ≤ length row.old }
    ensures { AreCharactersPut CW count (λ x. unpanned_colour display.now (first + x)) row.old
        row.new }
{
    let mut colours = TextColours::new();
    let mut look = characters.look(display, &mut colours, USUAL_ATTRIBUTE);
    let start = display.counter(first as u16);
    for x in 0..count {
        let counter = start.wrapping_add(x as u16);
        let cell = characters.cell(display, counter);
        if cell.attribute != look.attribute {
            look = characters.look(display, &mut colours, cell.attribute);
        }
        characters.put::<CW>(display, counter, cell, look, row, x * CW);
    }
}

/// Draws `count` characters of the beam's line, which shows text, from `first` on, as if it were
/// not panned.
fn draw_unpanned_text<const CW: usize>(
    display: &Display<'_>,
    first: usize,
    count: usize,
    row: &mut [u8],
)
    requires text { ShowsText display.now }
    requires first { first ≤ 300 }
    requires count { count ≤ 257 }
    requires width { CW < 10 }
    requires eight { 8 ≤ CW }
    requires room { 3 * (count * CW) ≤ length row.old }
    ensures { AreCharactersPut CW count (λ x. unpanned_colour display.now (first + x)) row.old
        row.new }
{
    if count == 0 {
        return;
    }
    let characters = TextCharacters::at_beam(display);
    let drawn = count_characters_to_draw(display, &characters, first, count);
    draw_cells::<CW>(display, &characters, first, drawn, row);
    repeat_last_character::<CW>(row, drawn, count);
}

/// Draws `count` characters of the beam's line, which shows memory, from `first` on, as if it were
/// not panned.
fn draw_characters<const CW: usize>(
    display: &Display<'_>,
    first: usize,
    count: usize,
    row: &mut [u8],
)
    requires memory { ShowsMemory display.now }
    requires first { first ≤ 300 }
    requires count { count ≤ 257 }
    requires width { CW < 10 }
    requires eight { 8 ≤ CW }
    requires room { 3 * (count * CW) ≤ length row.old }
    ensures { AreCharactersPut CW count (λ x. unpanned_colour display.now (first + x)) row.old
        row.new }
{
    if display.host().is_256_colours() {
        draw_graphics_characters::<CW, PackedCharacters>(
            display,
            &PackedCharacters::new(display),
            first,
            count,
            row,
        );
    } else if display.host().is_graphics() {
        draw_graphics_characters::<CW, PlanarCharacters>(
            display,
            &PlanarCharacters::new(display),
            first,
            count,
            row,
        );
    } else {
        draw_unpanned_text::<CW>(display, first, count, row);
    }
}

/// Draws the first `count` characters of the beam's line, which shows memory shifted left by
/// `panning_shift` dots. It draws one character more than it shows into a buffer of its own, and
/// copies the shown dots from there.
fn draw_panned_characters<const CW: usize>(
    display: &Display<'_>,
    count: usize,
    panning_shift: usize,
    row: &mut [u8],
)
    requires memory { ShowsMemory display.now }
    requires count { count ≤ 256 }
    requires width { CW ≡ character_width display.now.host }
    requires shift { panning_shift ≡ panning_shift_of display.now.host display.now.crtc
        display.now.attr }
    requires few { panning_shift < 9 }
    requires room { 3 * (count * CW) ≤ length row.old }
    ensures { IsLineDrawn CW count display.now row.old row.new }
{
    let mut unpanned = [0; UNPANNED_BYTES];
    draw_characters::<CW>(display, 0, count + 1, &mut unpanned);
    copy_dots(row, &unpanned, panning_shift, count * CW);
}

/// Draws the first `count` characters of the beam's line, which shows memory, panned or not.
fn draw_displayed_characters<const CW: usize>(display: &Display<'_>, count: usize, row: &mut [u8])
    requires memory { ShowsMemory display.now }
    requires count { count ≤ 256 }
    requires width { CW ≡ character_width display.now.host }
    requires room { 3 * (count * CW) ≤ length row.old }
    ensures { IsLineDrawn CW count display.now row.old row.new }
{
    let panning_shift = panning_shift(display) as usize;
    if panning_shift == 0 {
        draw_characters::<CW>(display, 0, count, row);
    } else {
        draw_panned_characters::<CW>(display, count, panning_shift, row);
    }
}

/// Writes red, green and blue of each displayed dot of the beam's line of a display.
fn draw_display_line<const CW: usize>(display: &Display<'_>, row: &mut [u8])
    requires width { CW ≡ character_width display.now.host }
    requires room { 3 * (characters_shown display.now.crtc.registers * CW) ≤ length row.old }
    ensures { IsLineDrawn CW (characters_shown display.now.crtc.registers) display.now row.old
        row.new }
{
    let count = shown_characters(display.crtc().fields()) as usize;
    if display.host().is_screen_off() {
        fill_characters::<CW>(row, count, BLACK);
    } else if !display.attr().is_palette_shown() {
        fill_characters::<CW>(
            row,
            count,
            masked_colour(display.dac(), display.attr().overscan()),
        );
    } else {
        draw_displayed_characters::<CW>(display, count, row);
    }
}

/// Writes red, green and blue of each displayed dot of the beam's line, from its first dot on. Each
/// dot has the colour that `dot_colour` gives with the beam there. No other byte of the row
/// changes. A character is `CW` dots wide. Where a frame begins, take its start first
/// (`Crtc::take_start`).
pub fn draw_line<const CW: usize>(host: &Host, crtc: &Crtc, attr: &Attr, dac: &Dac, row: &mut [u8])
    requires width { CW ≡ character_width host.now }
    requires room { 3 * (characters_shown crtc.now.registers * CW) ≤ length row.old }
    ensures { IsLineDrawn CW (characters_shown crtc.now.registers)
        (display_of host.now crtc.now attr.now dac.now) row.old row.new }
{
    draw_display_line::<CW>(&Display::new(host, crtc, attr, dac), row);
}

/// Draws the next `count` dots of the beam's line, which shows memory, from the beam's dot on. It
/// draws the whole characters that contain them into a buffer of `N` bytes, and copies the dots
/// from there.
fn draw_next_displayed_dots_of_line<const CW: usize, const N: usize>(
    display: &Display<'_>,
    count: usize,
    row: &mut [u8],
)
    requires memory { ShowsMemory display.now }
    requires count { count ≤ 128 }
    requires beside { 3 * (count + 17) ≤ N }
    requires few { N ≤ 435 }
    requires width { CW ≡ character_width display.now.host }
    requires room { 3 * count ≤ length row.old }
    ensures { AreNextDotsDrawn CW count display.now row.old row.new }
{
    let beam = display.beam();
    let start = beam.dot as usize + panning_shift(display) as usize;
    let first = beam.character as usize + start / CW;
    let skipped = start % CW;
    let characters = (skipped + count + CW - 1) / CW;
    let mut unpanned = [0; N];
    draw_characters::<CW>(display, first, characters, &mut unpanned);
    copy_dots(row, &unpanned, skipped, count);
}

/// Writes red, green and blue of the next `count` dots of the beam's line, at most 128, from the
/// beam's dot on. Each dot has the colour that `dot_colour` gives with the beam there. No other
/// byte of the row changes. A character is `CW` dots wide. Where a frame begins, take its start
/// first (`Crtc::take_start`).
pub fn draw_next_dots_of_line<const CW: usize>(display: &Display<'_>, count: usize, row: &mut [u8])
    requires count { count ≤ 128 }
    requires width { CW ≡ character_width display.now.host }
    requires room { 3 * count ≤ length row.old }
    ensures { AreNextDotsDrawn CW count display.now row.old row.new }
{
    if display.host().is_screen_off() {
        fill_characters::<1>(row, count, BLACK);
    } else if !display.attr().is_palette_shown() {
        fill_characters::<1>(
            row,
            count,
            masked_colour(display.dac(), display.attr().overscan()),
        );
    } else if count <= SMALL_PART {
        draw_next_displayed_dots_of_line::<CW, SMALL_PART_BYTES>(display, count, row);
    } else {
        draw_next_displayed_dots_of_line::<CW, PART_BYTES>(display, count, row);
    }
}
