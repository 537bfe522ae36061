//! The plain screen that an open card shows.
ghost use Rattle.std.specs.Prelude.{◌≡◌};
ghost use Rattle.bios_modes.specs.Heights.{mode_row_at_height as mode_row_at_height_of};
ghost use Rattle.bios_screen.specs.Parts.{cell_at, cursor_at};
ghost use Rattle.vga_c.specs.Cards.{OpenCardKeepsMachine, ClosedCardStaysUnchanged, ClosedCardLeavesOutput};
ghost use Rattle.vga_c.specs.Screens.{ask_cell, ask_cursor, ask_layout, ask_pixel};
ghost use Rattle.vga_c.specs.Screens.{OpenCardAnswersFromScreen, cell_of};
ghost use Rattle.vga_c.specs.Screens.{MachineAnswersFromScreen, IsAnswered, layout_by_bios_data, pixel_count_unless_text as pixels_in};
ghost use Rattle.vga_c.specs.Screens.{place_of};

use crate::handle::{Handle, on_open_card};
use crate::status::{BAD_ARGUMENT, DONE, NO_SCREEN, OUT_OF_MEMORY};
use bios_modes::{Bda, is_text, mode_row_at_height};
use bios_screen::Screen;
use std::alloc::Global;
use vga_run::machine::Machine;

/// Mode, page and sizes of a screen.
#[repr(C)]
#[derive(Clone, Copy)]
pub struct ScreenLayout {
    pub width: u32,
    pub height: u32,
    pub columns: u16,
    pub rows: u16,
    pub mode: u8,
    pub is_text: u8,
    pub page: u8,
    pub pages: u8,
}

/// A character and its attribute.
#[repr(C)]
#[derive(Clone, Copy)]
pub struct Cell {
    pub character: u8,
    pub attribute: u8,
}

/// A position of the cursor.
#[repr(C)]
#[derive(Clone, Copy)]
pub struct Place {
    pub row: u8,
    pub column: u8,
}

/// Runs a query on the plain screen that a machine shows, and returns its status, or `NO_SCREEN` if
/// there is none.
macro_rules! on_screen {
    ($alloc:ident, $machine:ident, $screen:ident => $found:expr, $to:ident) => {
        match Screen::read($alloc, &$machine.card, &$machine.bda) {
            Ok(Some($screen)) => write_found($found, $to),
            Ok(None) => NO_SCREEN,
            Err(_) => OUT_OF_MEMORY,
        }
    };
}

/// Writes what was found to the caller, and returns the status.
fn write_found<T: Copy>(found: Option<T>, to: &mut T) -> u32
    ensures { IsAnswered found to.old to.new result }
{
    match found {
        Some(value) => {
            *to = value;
            DONE
        }
        None => BAD_ARGUMENT,
    }
}

/// A number of pixels, or 0 in text.
fn pixel_count_unless_text(mode: u8, count: u32) -> u32
    ensures { result ≡ pixels_in mode count }
{
    if is_text(mode) { 0 } else { count }
}

/// The layout of the screen that a card with these BIOS data shows.
fn layout_of(bda: &Bda) -> Option<ScreenLayout>
    ensures { result ≡ layout_by_bios_data (mode_row_at_height_of bda.now.mode bda.now.height) bda.now }
{
    let row = mode_row_at_height(bda.mode(), bda.height())?;
    let rows = bda.last_row() as u16 + 1;
    Some(ScreenLayout {
        width: pixel_count_unless_text(bda.mode(), 8 * bda.columns() as u32),
        height: pixel_count_unless_text(bda.mode(), bda.height() as u32 * rows as u32),
        columns: bda.columns(),
        rows,
        mode: bda.mode(),
        is_text: is_text(bda.mode()) as u8,
        page: bda.page(),
        pages: row.pages,
    })
}

/// Reads the layout of a machine's screen.
#[tactic(auto, using(crate::proofs::ScreenLemmas::layout_shown))]
fn read_layout(alloc: Global, machine: &Machine, layout: &mut ScreenLayout) -> u32
    ensures { MachineAnswersFromScreen machine.now ask_layout layout.old layout.new result }
{
    on_screen!(alloc, machine, _screen => layout_of(&machine.bda), layout)
}

/// Reads mode, page and sizes of the screen that the card shows.
#[unsafe(no_mangle)]
pub extern "C" fn zak_screen_read(
    alloc: Global,
    card: &mut Handle,
    layout: &mut ScreenLayout,
) -> u32
    ensures card { OpenCardKeepsMachine card.old card.new }
    ensures layout { OpenCardAnswersFromScreen ask_layout card.old layout.old layout.new result }
    ensures closed { ClosedCardStaysUnchanged card.old card.new result }
    ensures spared { ClosedCardLeavesOutput card.old layout.old layout.new }
{
    on_open_card!(alloc, card, machine => read_layout(alloc, machine, layout))
}

/// The cell at a row and a column of a page.
fn cell_in(screen: &Screen, page: u8, row: u8, column: u8) -> Option<Cell>
    ensures { result ≡ cell_of (cell_at screen.now page row column) }
{
    let (character, attribute) = screen.cell(page, row, column)?;
    Some(Cell {
        character,
        attribute,
    })
}

/// Reads a cell of a machine's screen.
fn read_cell(
    alloc: Global,
    machine: &Machine,
    page: u8,
    row: u8,
    column: u8,
    cell: &mut Cell,
) -> u32
    ensures { MachineAnswersFromScreen machine.now (ask_cell page row column) cell.old cell.new result }
{
    on_screen!(alloc, machine, screen => cell_in(&screen, page, row, column), cell)
}

/// Reads a cell of the screen that the card shows.
#[unsafe(no_mangle)]
pub extern "C" fn zak_screen_cell(
    alloc: Global,
    card: &mut Handle,
    page: u8,
    row: u8,
    column: u8,
    cell: &mut Cell,
) -> u32
    ensures card { OpenCardKeepsMachine card.old card.new }
    ensures cell { OpenCardAnswersFromScreen (ask_cell page row column) card.old cell.old cell.new result }
    ensures closed { ClosedCardStaysUnchanged card.old card.new result }
    ensures spared { ClosedCardLeavesOutput card.old cell.old cell.new }
{
    on_open_card!(alloc, card, machine => read_cell(alloc, machine, page, row, column, cell))
}

/// Reads a pixel of a machine's screen.
fn read_pixel(alloc: Global, machine: &Machine, page: u8, x: u16, y: u16, pixel: &mut u8) -> u32
    ensures { MachineAnswersFromScreen machine.now (ask_pixel page x y) pixel.old pixel.new result }
{
    on_screen!(alloc, machine, screen => screen.pixel(page, x, y), pixel)
}

/// Reads a pixel of the screen that the card shows.
#[unsafe(no_mangle)]
pub extern "C" fn zak_screen_pixel(
    alloc: Global,
    card: &mut Handle,
    page: u8,
    x: u16,
    y: u16,
    pixel: &mut u8,
) -> u32
    ensures card { OpenCardKeepsMachine card.old card.new }
    ensures pixel { OpenCardAnswersFromScreen (ask_pixel page x y) card.old pixel.old pixel.new result }
    ensures closed { ClosedCardStaysUnchanged card.old card.new result }
    ensures spared { ClosedCardLeavesOutput card.old pixel.old pixel.new }
{
    on_open_card!(alloc, card, machine => read_pixel(alloc, machine, page, x, y, pixel))
}

/// The cursor position on a page.
fn cursor_in(screen: &Screen, page: u8) -> Option<Place>
    ensures { result ≡ place_of (cursor_at screen.now page) }
{
    let (row, column) = screen.cursor(page)?;
    Some(Place { row, column })
}

/// Reads the cursor position on a page of a machine's screen.
fn read_cursor(alloc: Global, machine: &Machine, page: u8, place: &mut Place) -> u32
    ensures { MachineAnswersFromScreen machine.now (ask_cursor page) place.old place.new result }
{
    on_screen!(alloc, machine, screen => cursor_in(&screen, page), place)
}

/// Reads the cursor position on a page of the screen that the card shows.
#[unsafe(no_mangle)]
pub extern "C" fn zak_screen_cursor(
    alloc: Global,
    card: &mut Handle,
    page: u8,
    place: &mut Place,
) -> u32
    ensures card { OpenCardKeepsMachine card.old card.new }
    ensures place { OpenCardAnswersFromScreen (ask_cursor page) card.old place.old place.new result }
    ensures closed { ClosedCardStaysUnchanged card.old card.new result }
    ensures spared { ClosedCardLeavesOutput card.old place.old place.new }
{
    on_open_card!(alloc, card, machine => read_cursor(alloc, machine, page, place))
}
