//! Where the colour of a dot comes from.
ghost use Rattle.std.specs.Prelude.{◌≡◌, ◌<◌, Some};
ghost use Rattle.vga_c.specs.Cards.{OpenCardKeepsMachine, ClosedCardStaysUnchanged, ClosedCardLeavesOutput};
ghost use Rattle.vga_c.specs.DotSources.{given_beam, glyph_address, text_part, palette_part};
ghost use Rattle.vga_c.specs.DotSources.{dot_source_of as source_of_trace, TellsDotSource, OpenCardTellsDotSource};

use crate::handle::{Handle, on_open_card};
use crate::state::{Beam, Colour};
use crate::status::{BAD_ARGUMENT, DONE};
use std::alloc::Global;
use vga_crtc::Beam as CrtcBeam;
use vga_dots::{Cell, DotTrace, PaletteTrace, TextTrace};
use vga_explain::source_of_dot;
use vga_run::machine::Machine;

/// What text makes of a dot; 0 in graphics.
#[repr(C)]
#[derive(Clone, Copy)]
pub struct TextPart {
    pub is_text: u8,
    pub character: u8,
    pub attribute: u8,
    pub map: u8,
    pub glyph_row: u8,
    pub is_cursor: u8,
    pub is_blinked_away: u8,
    pub is_underlined: u8,
    pub is_glyph_dot: u8,
    pub is_foreground: u8,
}

/// How the palette gives the number of a dot's colour; 0 in 256 colours.
#[repr(C)]
#[derive(Clone, Copy)]
pub struct PalettePart {
    pub has_palette: u8,
    pub nibble: u8,
    pub register: u8,
    pub value: u8,
    pub is_colour_select_wide: u8,
    pub middle: u8,
    pub high: u8,
}

/// Where the colour of a dot comes from: its character, the bytes there, what text and palette make
/// of it, and the entry of the DAC.
#[repr(C)]
#[derive(Clone, Copy)]
pub struct DotSource {
    pub counter: u16,
    pub address: u16,
    pub glyph_address: u16,
    pub is_display: u8,
    pub panning: u8,
    pub dot: u8,
    pub bytes: [u8; 4],
    pub text: TextPart,
    pub palette: PalettePart,
    pub is_palette_shown: u8,
    pub number: u8,
    pub mask: u8,
    pub entry: u8,
    pub is_screen_off: u8,
    pub colour: Colour,
}

/// What text makes of a dot of text, for the caller.
fn part_of_text(text: TextTrace) -> TextPart
    ensures { result ≡ text_part (Some text) }
{
    let Cell {
        character,
        attribute,
    } = text.cell;
    TextPart {
        is_text: 1,
        character,
        attribute,
        map: text.map,
        glyph_row: text.glyph_row,
        is_cursor: text.is_cursor as u8,
        is_blinked_away: text.is_blinked_away as u8,
        is_underlined: text.is_underlined as u8,
        is_glyph_dot: text.is_glyph_dot as u8,
        is_foreground: text.is_foreground as u8,
    }
}

/// What text makes of a dot, for the caller.
fn text_part_of(text: Option<TextTrace>) -> TextPart
    ensures { result ≡ text_part text }
{
    match text {
        Some(text) => part_of_text(text),
        None => TextPart {
            is_text: 0,
            character: 0,
            attribute: 0,
            map: 0,
            glyph_row: 0,
            is_cursor: 0,
            is_blinked_away: 0,
            is_underlined: 0,
            is_glyph_dot: 0,
            is_foreground: 0,
        },
    }
}

/// How the palette gives the number of a colour, for the caller.
fn palette_part_of(palette: Option<PaletteTrace>) -> PalettePart
    ensures { result ≡ palette_part palette }
{
    match palette {
        Some(palette) => PalettePart {
            has_palette: 1,
            nibble: palette.nibble,
            register: palette.register,
            value: palette.value,
            is_colour_select_wide: palette.is_colour_select_wide as u8,
            middle: palette.middle,
            high: palette.high,
        },
        None => PalettePart {
            has_palette: 0,
            nibble: 0,
            register: 0,
            value: 0,
            is_colour_select_wide: 0,
            middle: 0,
            high: 0,
        },
    }
}

/// Where the glyph's row is in plane 2; 0 in graphics.
fn glyph_address_of(text: Option<TextTrace>) -> u16
    ensures { result ≡ glyph_address text }
{
    match text {
        Some(text) => text.glyph_address,
        None => 0,
    }
}

/// Where the colour of a dot comes from, for the caller.
fn dot_source_of(trace: DotTrace) -> DotSource
    ensures { result ≡ source_of_trace trace }
{
    let [red, green, blue] = trace.colour;
    DotSource {
        counter: trace.source.counter,
        address: trace.address,
        glyph_address: glyph_address_of(trace.text),
        is_display: trace.is_display as u8,
        panning: trace.panning_shift,
        dot: trace.source.dot,
        bytes: trace.bytes,
        text: text_part_of(trace.text),
        palette: palette_part_of(trace.palette),
        is_palette_shown: trace.is_palette_shown as u8,
        number: trace.number,
        mask: trace.mask,
        entry: trace.entry,
        is_screen_off: trace.is_screen_off as u8,
        colour: Colour { red, green, blue },
    }
}

/// The caller's beam, whose numbers fit.
fn beam_given(beam: &Beam) -> CrtcBeam
    requires dot { beam.now.dot < 9 }
    requires scan { beam.now.scan < 32 }
    ensures { result ≡ given_beam beam.now }
{
    CrtcBeam {
        frame: beam.frame,
        line: beam.line,
        character: beam.character,
        dot: beam.dot as u8,
        base: beam.base,
        scan: beam.scan as u8,
        half: beam.half != 0,
        split: beam.split != 0,
    }
}

/// Tells where the colour of a dot comes from on a machine.
fn tell_dot(machine: &Machine, beam: &Beam, source: &mut DotSource) -> u32
    ensures { TellsDotSource machine.now.card beam.now source.old source.new result }
{
    if beam.dot >= 9 || beam.scan >= 32 {
        return BAD_ARGUMENT;
    }
    match source_of_dot(&machine.card, beam_given(beam)) {
        Some(trace) => {
            *source = dot_source_of(trace);
            DONE
        }
        None => BAD_ARGUMENT,
    }
}

/// Tells where the colour of the dot at a beam comes from, by the registers and the memory as they
/// are now.
#[unsafe(no_mangle)]
pub extern "C" fn zak_explain_dot(
    alloc: Global,
    card: &mut Handle,
    beam: &Beam,
    source: &mut DotSource,
) -> u32
    ensures card { OpenCardKeepsMachine card.old card.new }
    ensures source { OpenCardTellsDotSource card.old beam.now source.old source.new result }
    ensures closed { ClosedCardStaysUnchanged card.old card.new result }
    ensures spared { ClosedCardLeavesOutput card.old source.old source.new }
{
    on_open_card!(alloc, card, machine => tell_dot(machine, beam, source))
}
