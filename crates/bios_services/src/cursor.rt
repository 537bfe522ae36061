//! The cursor and the pages.
ghost use Rattle.std.specs.Prelude.{◌≡◌, ◌<◌, ◌≤◌, ◌+◌, ◌*◌, ◌/◌};
ghost use Rattle.bios_services.specs.Plan.{run};
ghost use Rattle.bios_services.specs.Bounds.{IsModeSet, StaysInMode, page_count, furthest_cell_number};
ghost use Rattle.bios_services.specs.Bounds.{ports_bound};
ghost use Rattle.bios_services.specs.Cursor.{cell_number_at as cell_number_of};
ghost use Rattle.bios_services.specs.Cursor.{cursor_cell_number as cursor_cell_number_of};
ghost use Rattle.bios_services.specs.Cursor.{write_crtc_word_plan};
ghost use Rattle.bios_services.specs.Cursor.{cursor_address as cursor_address_of, show_cursor_plan};
ghost use Rattle.bios_services.specs.Cursor.{move_cursor_plan, cursor_type_plan, show_page_plan};

use crate::cycles::write_indexed;
use crate::video_registers::{CURSOR_ADDRESS, CURSOR_END, CURSOR_START, START_ADDRESS};
use bios_modes::{Bda, is_text};
use vga_card::Bus;

/// The number of the cell at a position, counted along the rows of its page.
pub(crate) fn cell_number_at(bda: &Bda, position: u16) -> u32
    requires { IsModeSet bda.now }
    ensures value { result ≡ cell_number_of bda.now position }
    ensures small { result ≤ furthest_cell_number }
{
    bda.columns() as u32 * (position / 256) as u32 + (position % 256) as u32
}

/// The number of the cell at the cursor of a page.
pub(crate) fn cursor_cell_number(bda: &Bda, page: u8) -> u32
    requires data { IsModeSet bda.now }
    requires page { page < page_count bda.now }
    ensures value { result ≡ cursor_cell_number_of bda.now page }
    ensures small { result ≤ furthest_cell_number }
{
    cell_number_at(bda, bda.cursor_place(page as usize))
}

/// Writes a word to two registers of the CRT controller, the high byte to register i.
#[tactic(auto, using(crate::proofs::PlanRuns::run_bind), unfolding(crate::specs::Cursor::write_crtc_word_plan))]
pub(crate) fn write_crtc_word<B: Bus>(bus: &mut B, port: u16, i: u8, n: u16)
    requires port { port < ports_bound }
    requires register { i < 255 }
    ensures { bus.new ≡ (run B.meaning (write_crtc_word_plan port i n) bus.old).0 }
{
    write_indexed(bus, port, i, (n / 256) as u8);
    write_indexed(bus, port, i + 1, (n % 256) as u8);
}

/// The number of the cell under the cursor of a page of text, as the CRT controller counts cells.
fn cursor_address(bda: &Bda, page: u8) -> u16
    requires data { IsModeSet bda.now }
    requires page { page < 8 }
    requires text { bda.now.size * page ≤ 65536 }
    ensures { result ≡ cursor_address_of bda.now page }
{
    let start = bda.size() as u32 * page as u32 / 2;
    (start + cell_number_at(bda, bda.cursor_place(page as usize))) as u16
}

/// Gives the CRT controller the cursor of a page, if that is the active page of a text mode.
#[tactic(auto, using(crate::proofs::PlanRuns::run_bind), unfolding(crate::specs::Cursor::show_cursor_plan))]
pub(crate) fn show_cursor<B: Bus>(bus: &mut B, bda: &Bda, page: u8)
    requires data { IsModeSet bda.now }
    requires page { page < page_count bda.now }
    ensures { bus.new ≡ (run B.meaning (show_cursor_plan bda.now page) bus.old).0 }
{
    if is_text(bda.mode()) && page == bda.page() {
        write_crtc_word(
            bus,
            bda.crtc_address(),
            CURSOR_ADDRESS,
            cursor_address(bda, page),
        );
    }
}

/// Moves the cursor of a page, and shows it there if that is the active page of a text mode.
#[tactic(auto, using(crate::proofs::PlanRuns::run_bind), unfolding(crate::specs::Cursor::move_cursor_plan))]
pub(crate) fn move_cursor<B: Bus>(bus: &mut B, bda: &mut Bda, page: u8, position: u16)
    requires data { IsModeSet bda.old }
    requires page { page < page_count bda.old }
    ensures answer { (bus.new, bda.new) ≡ run B.meaning (move_cursor_plan bda.old page position)
        bus.old }
    ensures stays { StaysInMode bda.old bda.new }
{
    bda.set_cursor_place(page as usize, position);
    show_cursor(bus, bda, page);
}

/// Sets the cursor's first and last scan line.
#[tactic(auto, using(crate::proofs::PlanRuns::run_bind), unfolding(crate::specs::Cursor::cursor_type_plan))]
pub(crate) fn set_cursor_type<B: Bus>(bus: &mut B, bda: &mut Bda, cursor_type: u16)
    requires { IsModeSet bda.old }
    ensures answer { (bus.new, bda.new) ≡ run B.meaning (cursor_type_plan bda.old cursor_type)
        bus.old }
    ensures stays { StaysInMode bda.old bda.new }
{
    let port = bda.crtc_address();
    write_indexed(bus, port, CURSOR_START, (cursor_type / 256) as u8);
    write_indexed(bus, port, CURSOR_END, (cursor_type % 256) as u8);
    bda.set_cursor_type(cursor_type);
}

/// Shows a page, with its cursor, and makes it the active one.
#[tactic(auto, using(crate::proofs::PlanRuns::run_bind), unfolding(crate::specs::Cursor::show_page_plan))]
pub(crate) fn show_page<B: Bus>(bus: &mut B, bda: &mut Bda, page: u8)
    requires data { IsModeSet bda.old }
    requires page { page < page_count bda.old }
    ensures answer { (bus.new, bda.new) ≡ run B.meaning (show_page_plan bda.old page) bus.old }
    ensures stays { StaysInMode bda.old bda.new }
{
    let start = bda.size() as u32 * page as u32;
    let address = if is_text(bda.mode()) {
        start / 2
    } else {
        start
    };
    write_crtc_word(bus, bda.crtc_address(), START_ADDRESS, address as u16);
    bda.set_page(page);
    bda.set_start(start as u16);
    show_cursor(bus, bda, page);
}
