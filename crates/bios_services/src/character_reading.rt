//! Reading the character of a cell of pixels.
ghost use Rattle.std.specs.Prelude.{◌≡◌, ◌<◌, ◌+◌, ◌^◌, length};
ghost use Rattle.bios_services.specs.Bounds.{bound_of_cells_reached_by_calls};
ghost use Rattle.bios_services.specs.Plan.{run};
ghost use Rattle.bios_services.specs.Bands.{IsBand};
ghost use Rattle.bios_services.specs.CharacterReading.{shift_pixel_into_line as shift_dot_plan};
ghost use Rattle.bios_services.specs.CharacterReading.{read_nonzero_pixels_in_256_colours as packed_line_plan};
ghost use Rattle.bios_services.specs.CharacterReading.{read_nonzero_pixels_plan};
ghost use Rattle.bios_services.specs.CharacterReading.{read_lines_plan, read_character_plan};

use crate::band::set_read_write_mode_if_16_colours;
use crate::cycles::get;
use crate::dot_cell::GraphicsCell;
use crate::glyphs::first_character_with_lines;
use crate::kind::{Kind, by_kind};
use crate::video_registers::{BYTE_ACCESS, COMPARE_COLOURS};
use bios_modes::Fonts;
use vga_card::Bus;

/// The largest number of lines of a character.
const MOST_LINES: usize = 16;

/// How many characters there are.
const CHARACTERS: u16 = 256;

/// Reads a pixel of 256 colours, and shifts a bit into a line from the right: 0 for 0, else 1.
#[tactic(auto, using(crate::proofs::PlanRuns::run_bind), unfolding(crate::specs::CharacterReading::shift_pixel_into_line))]
fn shift_pixel_into_line<B: Bus>(bus: &mut B, address: u32, line: u8) -> u8
    ensures { (bus.new, result) ≡ run B.meaning (shift_dot_plan address line) bus.old }
{
    let dot = if get(bus, address) == 0 { 0 } else { 1 };
    ((2 * line as u16 + dot) % 256) as u8
}

/// Reads the line of eight pixels at an address of 256 colours: a bit is 1 if its pixel is not 0.
#[tactic(auto, using(crate::proofs::PlanRuns::run_bind), unfolding(crate::specs::CharacterReading::read_nonzero_pixels_in_256_colours))]
fn read_nonzero_pixels_in_256_colours<B: Bus>(bus: &mut B, address: u32) -> u8
    requires { address < 2 ^ 31 }
    ensures { (bus.new, result) ≡ run B.meaning (packed_line_plan address) bus.old }
{
    let mut line = 0;
    for i in 0..8 {
        line = shift_pixel_into_line(bus, address + i, line);
    }
    line
}

/// Reads which pixels of a line of a cell are not 0.
#[tactic(auto, using(crate::proofs::PlanRuns::run_bind), unfolding(crate::specs::CharacterReading::read_nonzero_pixels_plan))]
fn read_nonzero_pixels<B: Bus>(bus: &mut B, kind: Kind, address: u32) -> u8
    requires { address < 2 ^ 31 }
    ensures { (bus.new, result) ≡ run B.meaning (read_nonzero_pixels_plan kind address) bus.old }
{
    by_kind!(
        kind,
        Text => 0,
        Planar => 255 - get(bus, address),
        Packed => read_nonzero_pixels_in_256_colours(bus, address),
    )
}

/// Reads the lines of a cell from the top.
#[tactic(auto, using(crate::proofs::PlanRuns::run_bind), unfolding(crate::specs::CharacterReading::read_lines_plan))]
fn read_lines<B: Bus>(bus: &mut B, cell: GraphicsCell, lines: &mut [u8])
    requires band { IsBand cell.band }
    requires row { cell.row < bound_of_cells_reached_by_calls }
    requires count { length lines.old ≡ cell.band.lines }
    ensures lines { (bus.new, lines.new) ≡ run B.meaning (read_lines_plan cell.band cell.row)
        bus.old }
    ensures count { length lines.new ≡ cell.band.lines }
{
    for r in 0..lines.len() {
        lines[r] = read_nonzero_pixels(bus, cell.band.kind, cell.address(r as u32, 0));
    }
}

/// Reads a cell, and answers the first character whose glyph has its dots, or 0.
#[tactic(auto, using(crate::proofs::PlanRuns::run_bind), unfolding(crate::specs::CharacterReading::read_character_plan))]
pub(crate) fn read_character<B: Bus>(bus: &mut B, cell: GraphicsCell, fonts: &Fonts) -> u8
    requires band { IsBand cell.band }
    requires row { cell.row < bound_of_cells_reached_by_calls }
    ensures { (bus.new, result) ≡ run B.meaning (read_character_plan cell.band cell.row fonts.now)
        bus.old }
{
    let mut room = [0u8; MOST_LINES];
    let lines = &mut room[..cell.band.lines as usize];
    set_read_write_mode_if_16_colours(bus, cell.band.kind, COMPARE_COLOURS);
    read_lines(bus, cell, lines);
    set_read_write_mode_if_16_colours(bus, cell.band.kind, BYTE_ACCESS);
    first_character_with_lines(fonts, cell.band.lines, lines, CHARACTERS)
}
