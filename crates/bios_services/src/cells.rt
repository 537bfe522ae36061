//! Cells of characters: where they lie in memory, and how text is read and written.
ghost use Rattle.std.specs.Prelude.{◌≡◌, ◌<◌, ◌≤◌, ◌+◌, ◌*◌, ◌^◌};
ghost use Rattle.bios_services.specs.Plan.{run};
ghost use Rattle.bios_services.specs.Bounds.{IsModeSet, page_count, bound_of_cells_reached_by_calls};
ghost use Rattle.bios_services.specs.Cells.{page_0_address_of_mode as page_base_of};
ghost use Rattle.bios_services.specs.Cells.{page_address as page_address_of};
ghost use Rattle.bios_services.specs.Cells.{cell_address as cell_address_of, cells_per_page};
ghost use Rattle.bios_services.specs.Cells.{read_cell_plan, attribute_plan, write_cell_plan};

use crate::colouring::Colouring;
use crate::cycles::{get, put};
use bios_modes::{Bda, mode_row};
use vga_card::Bus;

/// Where the pages of graphics modes begin, and where glyphs are loaded.
pub(crate) const GRAPHICS_BASE: u32 = 0xA0000;

/// The address where the pages of a mode begin.
#[tactic(auto, using(crate::proofs::BoundLemmas::base_small))]
fn page_0_address_of_mode(mode: u8) -> u32
    ensures value { result ≡ page_base_of mode }
    ensures small { result ≤ 0xB8000 }
{
    match mode_row(mode) {
        Some(row) => row.base,
        None => GRAPHICS_BASE,
    }
}

/// The address where a page begins.
pub(crate) fn page_address(bda: &Bda, page: u8) -> u32
    requires data { IsModeSet bda.now }
    requires page { page < page_count bda.now }
    ensures value { result ≡ page_address_of bda.now page }
    ensures small { result < 2 ^ 20 }
{
    page_0_address_of_mode(bda.mode()) + bda.size() as u32 * page as u32
}

/// The address of cell q of a page of text.
pub(crate) fn cell_address(bda: &Bda, page: u8, q: u32) -> u32
    requires data { IsModeSet bda.now }
    requires page { page < page_count bda.now }
    requires cell { q < bound_of_cells_reached_by_calls }
    ensures value { result ≡ cell_address_of bda.now page q }
    ensures small { result < 2 ^ 21 }
{
    page_address(bda, page) + 2 * q
}

/// How many cells a page has.
pub(crate) fn cells(bda: &Bda) -> u32
    requires { IsModeSet bda.now }
    ensures { result ≡ cells_per_page bda.now }
{
    bda.columns() as u32 * (bda.last_row() as u32 + 1)
}

/// Reads a cell: the character is the low byte of the answer, the attribute its high byte.
#[tactic(auto, using(crate::proofs::PlanRuns::run_bind), unfolding(crate::specs::Cells::read_cell_plan))]
pub(crate) fn read_cell<B: Bus>(bus: &mut B, address: u32) -> u16
    requires { address < 2 ^ 30 }
    ensures { (bus.new, result) ≡ run B.meaning (read_cell_plan address) bus.old }
{
    let character = get(bus, address);
    let colour = get(bus, address + 1);
    character as u16 + 256 * colour as u16
}

/// Writes a cell's attribute, if the colour is one.
fn write_attribute<B: Bus>(bus: &mut B, address: u32, colouring: Colouring)
    ensures { bus.new ≡ (run B.meaning (attribute_plan address colouring) bus.old).0 }
{
    if colouring.is_attribute {
        put(bus, address, colouring.colour);
    }
}

/// Writes a character to a cell of text, and its attribute if it gets one.
#[tactic(auto, using(crate::proofs::PlanRuns::run_bind), unfolding(crate::specs::Cells::write_cell_plan))]
pub(crate) fn write_cell<B: Bus>(bus: &mut B, address: u32, character: u8, colouring: Colouring)
    requires { address < 2 ^ 30 }
    ensures { bus.new ≡ (run B.meaning (write_cell_plan address character colouring) bus.old).0 }
{
    put(bus, address, character);
    write_attribute(bus, address + 1, colouring);
}
