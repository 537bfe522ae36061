//! Drawing characters in cells of a page, in any mode.
ghost use Rattle.std.specs.Prelude.{◌≡◌, ◌<◌, ◌≤◌};
ghost use Rattle.bios_services.specs.Plan.{run};
ghost use Rattle.bios_services.specs.Bounds.{bound_of_cells_reached_by_calls};
ghost use Rattle.bios_services.specs.Bands.{IsBand};
ghost use Rattle.bios_services.specs.Drawing.{put_glyph as put_glyph_plan};
ghost use Rattle.bios_services.specs.Drawing.{put_over_latches as put_over_plan};
ghost use Rattle.bios_services.specs.Drawing.{put_glyph_over as put_glyph_over_plan};
ghost use Rattle.bios_services.specs.Drawing.{draw_over_zeros_plan};
ghost use Rattle.bios_services.specs.Drawing.{draw_by_xor_plan, draw_character_in_16_colours_plan, glyph_dot_colour};
ghost use Rattle.bios_services.specs.Drawing.{put_glyph_line_in_256_colours as put_dots_plan, draw_character_in_256_colours_plan};
ghost use Rattle.bios_services.specs.Drawing.{character_plan};
ghost use Rattle.bios_services.specs.Page.{IsPage};

use crate::cells::{cell_address, write_cell};
use crate::colouring::Colouring;
use crate::cycles::{get, put, write_graphics, write_sequencer};
use crate::dot_cell::GraphicsCell;
use crate::filling::AlternatingBytes;
use crate::glyphs::glyph_line;
use crate::kind::{by_kind, kind_of};
use crate::page::Page;
use crate::video_registers::{ALL_PLANES, DATA_ROTATE, MAP_MASK, REPLACE, XOR};
use bios_modes::Fonts;
use vga_bits::is_set;
use vga_card::Bus;

/// Writes a glyph to a cell in 16 colours, line by line.
#[tactic(auto, using(crate::proofs::PlanRuns::run_bind), unfolding(crate::specs::Drawing::put_glyph))]
fn put_glyph<B: Bus>(bus: &mut B, cell: GraphicsCell, fonts: &Fonts, character: u8)
    requires band { IsBand cell.band }
    requires row { cell.row < bound_of_cells_reached_by_calls }
    ensures { bus.new ≡ (run B.meaning (put_glyph_plan cell.band cell.row fonts.now character)
        bus.old).0 }
{
    for r in 0..cell.band.lines {
        let dots = glyph_line(fonts, cell.band.lines, character, r);
        put(bus, cell.address(r, 0), dots);
    }
}

/// Reads a byte into the latches, and writes dots over it.
fn put_over_latches<B: Bus>(bus: &mut B, address: u32, dots: u8)
    ensures { bus.new ≡ (run B.meaning (put_over_plan address dots) bus.old).0 }
{
    get(bus, address);
    put(bus, address, dots);
}

/// Writes a glyph to a cell in 16 colours, each line over what was read there.
#[tactic(auto, using(crate::proofs::PlanRuns::run_bind), unfolding(crate::specs::Drawing::put_glyph_over))]
fn put_glyph_over<B: Bus>(bus: &mut B, cell: GraphicsCell, fonts: &Fonts, character: u8)
    requires band { IsBand cell.band }
    requires row { cell.row < bound_of_cells_reached_by_calls }
    ensures { bus.new ≡ (run B.meaning (put_glyph_over_plan cell.band cell.row fonts.now character)
        bus.old).0 }
{
    for r in 0..cell.band.lines {
        let dots = glyph_line(fonts, cell.band.lines, character, r);
        put_over_latches(bus, cell.address(r, 0), dots);
    }
}

/// Draws a character in 16 colours over pixels 0.
#[tactic(auto, using(crate::proofs::PlanRuns::run_bind), unfolding(crate::specs::Drawing::draw_over_zeros_plan))]
fn draw_over_zeros<B: Bus>(
    bus: &mut B,
    cell: GraphicsCell,
    fonts: &Fonts,
    character: u8,
    colour: u8,
)
    requires band { IsBand cell.band }
    requires row { cell.row < bound_of_cells_reached_by_calls }
    ensures { bus.new ≡ (run B.meaning (draw_over_zeros_plan cell.band cell.row fonts.now character
        colour)
        bus.old).0 }
{
    cell.band
        .fill_row(bus, AlternatingBytes::one_byte_everywhere(0x00), cell.row);
    write_sequencer(bus, MAP_MASK, colour % 16);
    put_glyph(bus, cell, fonts, character);
    write_sequencer(bus, MAP_MASK, ALL_PLANES);
}

/// Draws a character in 16 colours by XOR.
#[tactic(auto, using(crate::proofs::PlanRuns::run_bind), unfolding(crate::specs::Drawing::draw_by_xor_plan))]
fn draw_by_xor<B: Bus>(bus: &mut B, cell: GraphicsCell, fonts: &Fonts, character: u8, colour: u8)
    requires band { IsBand cell.band }
    requires row { cell.row < bound_of_cells_reached_by_calls }
    ensures { bus.new ≡ (run B.meaning (draw_by_xor_plan cell.band cell.row fonts.now character
        colour)
        bus.old).0 }
{
    write_graphics(bus, DATA_ROTATE, XOR);
    write_sequencer(bus, MAP_MASK, colour % 16);
    put_glyph_over(bus, cell, fonts, character);
    write_sequencer(bus, MAP_MASK, ALL_PLANES);
    write_graphics(bus, DATA_ROTATE, REPLACE);
}

/// Draws a character in 16 colours, by XOR if bit 7 of the colour is 1.
#[tactic(auto, unfolding(crate::specs::Drawing::draw_character_in_16_colours_plan))]
fn draw_character_in_16_colours<B: Bus>(
    bus: &mut B,
    cell: GraphicsCell,
    fonts: &Fonts,
    character: u8,
    colour: u8,
)
    requires band { IsBand cell.band }
    requires row { cell.row < bound_of_cells_reached_by_calls }
    ensures { bus.new ≡ (run B.meaning (draw_character_in_16_colours_plan cell.band cell.row fonts.now character
        colour)
        bus.old).0 }
{
    if is_set(colour, 7) {
        draw_by_xor(bus, cell, fonts, character, colour);
    } else {
        draw_over_zeros(bus, cell, fonts, character, colour);
    }
}

/// Dot i of a line of a glyph in 256 colours.
fn glyph_dot_colour(dots: u8, colour: u8, i: u32) -> u8
    requires { i < 8 }
    ensures { result ≡ glyph_dot_colour dots colour i }
{
    if is_set(dots, 7 - i) { colour } else { 0 }
}

/// Draws a line of a glyph in 256 colours.
#[tactic(auto, using(crate::proofs::PlanRuns::run_bind), unfolding(crate::specs::Drawing::put_glyph_line_in_256_colours))]
fn put_glyph_line_in_256_colours<B: Bus>(
    bus: &mut B,
    cell: GraphicsCell,
    line: u32,
    dots: u8,
    colour: u8,
)
    requires band { IsBand cell.band }
    requires row { cell.row < bound_of_cells_reached_by_calls }
    requires line { line ≤ 16 }
    ensures { bus.new ≡ (run B.meaning (put_dots_plan cell.band cell.row line dots colour)
        bus.old).0 }
{
    for i in 0..8 {
        put(
            bus,
            cell.address(line, i),
            glyph_dot_colour(dots, colour, i),
        );
    }
}

/// Draws a character in 256 colours.
#[tactic(auto, using(crate::proofs::PlanRuns::run_bind), unfolding(crate::specs::Drawing::draw_character_in_256_colours_plan))]
fn draw_character_in_256_colours<B: Bus>(
    bus: &mut B,
    cell: GraphicsCell,
    fonts: &Fonts,
    character: u8,
    colour: u8,
)
    requires band { IsBand cell.band }
    requires row { cell.row < bound_of_cells_reached_by_calls }
    ensures { bus.new ≡ (run B.meaning (draw_character_in_256_colours_plan cell.band cell.row fonts.now character
        colour)
        bus.old).0 }
{
    for r in 0..cell.band.lines {
        let dots = glyph_line(fonts, cell.band.lines, character, r);
        put_glyph_line_in_256_colours(bus, cell, r, dots, colour);
    }
}

/// Writes a character to cell q of a page, in any mode.
#[tactic(auto, unfolding(crate::specs::Drawing::character_plan_of_kind))]
pub(crate) fn write_character<B: Bus>(
    bus: &mut B,
    page: &Page<'_>,
    q: u32,
    character: u8,
    colouring: Colouring,
)
    requires page { IsPage page.now }
    requires cell { q < bound_of_cells_reached_by_calls }
    ensures { bus.new ≡ (run B.meaning (character_plan page.now.fonts page.now.bda
        page.now.number q character colouring) bus.old).0 }
{
    let (fonts, bda, number) = (page.fonts(), page.bda(), page.number());
    let colour = colouring.colour;
    by_kind!(
        kind_of(bda.mode()),
        Text => write_cell(bus, cell_address(bda, number, q), character, colouring),
        Planar => draw_character_in_16_colours(bus, GraphicsCell::of_columns(bda, number, q), fonts, character, colour),
        Packed => draw_character_in_256_colours(bus, GraphicsCell::of_columns(bda, number, q), fonts, character, colour),
    )
}
