//! Setting a mode: every register, the palette, the font of a text mode, and the memory.
ghost use Rattle.std.specs.Prelude.{◌≡◌, ◌<◌, ◌≤◌, ◌+◌, ◌*◌, ◌^◌};
ghost use Rattle.bios_services.specs.Bounds.{ports_bound};
ghost use Rattle.bios_services.specs.Plan.{run};
ghost use Rattle.bios_services.specs.ModeSet.{write_registers_plan, write_dac_entry_plan};
ghost use Rattle.bios_services.specs.ModeSet.{mask_and_palette_plan};
ghost use Rattle.bios_services.specs.ModeSet.{write_blanks_plan, clear_graphics_memory_plan};
ghost use Rattle.bios_services.specs.ModeSet.{write_text_memory_plan, write_mode_memory_plan, mode_set_plan};

use crate::cells::GRAPHICS_BASE;
use crate::cycles::{
    out, put_in_turn, reset_attribute_flip_flop, show_palette, write_attribute_registers,
    write_indexed, write_registers_from_0,
};
use crate::glyph_load::GlyphLoad;
use crate::video_registers::{
    ALL_BITS, DAC_DATA, DAC_MASK, DAC_WRITE_INDEX, GRAPHICS, MISCELLANEOUS, MISCELLANEOUS_OUTPUT,
    SEQUENCER, VERTICAL_RETRACE_END,
};
use bios_modes::{Fonts, Kind, ModeRow, Palette};
use vga_card::Bus;

/// How many bytes of memory a text mode clears.
const TEXT_LEN: u32 = 0x8000;

/// How many bytes of memory a graphics mode clears.
const GRAPHICS_LEN: u32 = 0x10000;

/// Writes all registers.
#[tactic(auto, using(crate::proofs::PlanRuns::run_bind), unfolding(crate::specs::ModeSet::write_registers_plan))]
fn write_registers<B: Bus>(bus: &mut B, row: &ModeRow)
    requires { row.now.crtc_address < ports_bound }
    ensures { bus.new ≡ (run B.meaning (write_registers_plan row.now) bus.old).0 }
{
    out(bus, MISCELLANEOUS_OUTPUT, row.misc);
    write_registers_from_0(bus, SEQUENCER, &row.sequencer);
    let unprotected = row.crtc[VERTICAL_RETRACE_END as usize] & 0x7F;
    write_indexed(bus, row.crtc_address, VERTICAL_RETRACE_END, unprotected);
    write_registers_from_0(bus, row.crtc_address, &row.crtc);
    write_registers_from_0(bus, GRAPHICS, &row.graphics);
    reset_attribute_flip_flop(bus, row.crtc_address);
    write_attribute_registers(bus, &row.attribute);
    show_palette(bus, row.crtc_address);
}

/// Writes red, green and blue of the DAC's next entry.
#[tactic(auto, using(crate::proofs::PlanRuns::run_bind), unfolding(crate::specs::ModeSet::write_dac_entry_plan))]
fn write_colour<B: Bus>(bus: &mut B, colour: [u8; 3])
    ensures { bus.new ≡ (run B.meaning (write_dac_entry_plan colour) bus.old).0 }
{
    out(bus, DAC_DATA, colour[0]);
    out(bus, DAC_DATA, colour[1]);
    out(bus, DAC_DATA, colour[2]);
}

/// Writes the DAC's mask, and the first n entries of a palette.
#[tactic(auto, using(crate::proofs::PlanRuns::run_bind), unfolding(crate::specs::ModeSet::mask_and_palette_plan))]
fn write_mask_and_palette<B: Bus>(bus: &mut B, palette: Palette, n: u16)
    requires { n ≤ 256 }
    ensures { bus.new ≡ (run B.meaning (mask_and_palette_plan palette n) bus.old).0 }
{
    out(bus, DAC_MASK, ALL_BITS);
    out(bus, DAC_WRITE_INDEX, 0x00);
    for i in 0..n {
        write_colour(bus, palette.entry(i as u8));
    }
}

/// The character of a blank cell.
const BLANK: u8 = 0x20;

/// The attribute of a blank cell.
const ATTRIBUTE_OF_BLANK: u8 = 0x07;

/// Writes n bytes of blank cells from an address on.
#[tactic(auto, using(crate::proofs::PlanRuns::run_bind), unfolding(crate::specs::ModeSet::write_blanks_plan))]
fn write_blanks<B: Bus>(bus: &mut B, base: u32, n: u32)
    requires { base + n < 2 ^ 32 }
    ensures { bus.new ≡ (run B.meaning (write_blanks_plan base n) bus.old).0 }
{
    put_in_turn(bus, base, n, BLANK, ATTRIBUTE_OF_BLANK);
}

/// Writes n bytes of 0 to the memory of a graphics mode.
#[tactic(auto, using(crate::proofs::PlanRuns::puts_same), unfolding(crate::specs::ModeSet::clear_graphics_memory_plan))]
fn clear<B: Bus>(bus: &mut B, n: u32)
    requires { n ≤ 65536 }
    ensures { bus.new ≡ (run B.meaning (clear_graphics_memory_plan n) bus.old).0 }
{
    put_in_turn(bus, GRAPHICS_BASE, n, 0, 0);
}

/// Writes what a text mode needs besides registers and palette: the font, and blank cells.
#[tactic(auto, using(crate::proofs::PlanRuns::run_bind), unfolding(crate::specs::ModeSet::write_text_memory_plan))]
fn write_text<B: Bus>(bus: &mut B, row: &ModeRow, keeps: bool, fonts: &Fonts)
    requires { row.now.base < 2 ^ 20 }
    ensures { bus.new ≡ (run B.meaning (write_text_memory_plan row.now keeps fonts.now.f16) bus.old).0 }
{
    GlyphLoad::write_font_of_16(bus, fonts, row.graphics[MISCELLANEOUS as usize]);
    if !keeps {
        write_blanks(bus, row.base, TEXT_LEN);
    }
}

/// Writes what a mode needs besides registers and palette.
#[tactic(auto, using(crate::proofs::PlanRuns::run_bind), unfolding(crate::specs::ModeSet::write_mode_memory_plan))]
fn write_mode_memory<B: Bus>(bus: &mut B, row: &ModeRow, keeps: bool, fonts: &Fonts)
    requires { row.now.base < 2 ^ 20 }
    ensures { bus.new ≡ (run B.meaning (write_mode_memory_plan row.now keeps fonts.now.f16) bus.old).0 }
{
    if row.kind == Kind::Text {
        write_text(bus, row, keeps, fonts);
    } else if !keeps {
        clear(bus, GRAPHICS_LEN);
    }
}

/// Sets a mode, and clears its memory unless it is kept.
#[tactic(auto, using(crate::proofs::PlanRuns::run_bind), unfolding(crate::specs::ModeSet::mode_set_plan))]
pub(crate) fn set_mode<B: Bus>(bus: &mut B, row: &ModeRow, keeps: bool, fonts: &Fonts)
    requires port { row.now.crtc_address < ports_bound }
    requires base { row.now.base < 2 ^ 20 }
    ensures { bus.new ≡ (run B.meaning (mode_set_plan row.now keeps fonts.now) bus.old).0 }
{
    write_registers(bus, row);
    write_mask_and_palette(bus, row.palette, 256);
    write_mode_memory(bus, row, keeps, fonts);
}
