//! Typing characters one after another, while the cursor advances.
ghost use Rattle.std.specs.Prelude.{◌≡◌, ◌<◌, ◌≤◌, ◌+◌, ◌*◌};
ghost use Rattle.bios_services.specs.Plan.{run};
ghost use Rattle.bios_services.specs.Bounds.{IsModeSet, StaysInMode, page_count};
ghost use Rattle.bios_services.specs.Cursor.{row_of_position, cursor_position_of};
ghost use Rattle.bios_services.specs.Page.{IsPage};
ghost use Rattle.bios_services.specs.Teletype.{line_feed_fill as line_feed_fill_plan};
ghost use Rattle.bios_services.specs.Teletype.{line_feed_plan, next_position_plan};
ghost use Rattle.bios_services.specs.Teletype.{type_character_plan, teletype_plan};

use crate::cells::cell_address;
use crate::colouring::Colouring;
use crate::cursor::{cell_number_at, move_cursor};
use crate::cycles::get;
use crate::direction::Direction;
use crate::drawing::write_character;
use crate::page::Page;
use crate::scroll::Window;
use crate::shift::RowShift;
use bios_modes::{Bda, Fonts, is_text};
use vga_card::Bus;

/// The control character that does nothing.
const BELL: u8 = 0x07;

/// The control character that goes one column back.
const BACKSPACE: u8 = 0x08;

/// The control character that goes one row down.
const LINE_FEED: u8 = 0x0A;

/// The control character that goes to the first column.
const CARRIAGE_RETURN: u8 = 0x0D;

/// The value that a new row is filled with: an attribute in text, and colour 0 in graphics.
#[tactic(auto, using(crate::proofs::PlanRuns::run_bind), unfolding(crate::specs::Teletype::line_feed_fill))]
fn line_feed_fill<B: Bus>(bus: &mut B, bda: &Bda, page: u8, position: u16) -> u8
    requires data { IsModeSet bda.now }
    requires page { page < page_count bda.now }
    ensures { (bus.new, result) ≡ run B.meaning (line_feed_fill_plan bda.now page position)
        bus.old }
{
    if !is_text(bda.mode()) {
        return 0;
    }
    let cell = bda.columns() as u32 * bda.last_row() as u32 + (position % 256) as u32;
    get(bus, cell_address(bda, page, cell) + 1)
}

/// The position one row below. On the last row it stays, and the page goes up by a row.
#[tactic(auto, using(crate::proofs::PlanRuns::run_bind), unfolding(crate::specs::Teletype::line_feed_plan))]
fn position_after_line_feed<B: Bus>(bus: &mut B, bda: &Bda, page: u8, position: u16) -> u16
    requires data { IsModeSet bda.now }
    requires page { page < page_count bda.now }
    requires row { row_of_position position ≤ bda.now.last_row }
    ensures position { (bus.new, result) ≡ run B.meaning (line_feed_plan bda.now page position)
        bus.old }
    ensures row { row_of_position result ≤ bda.now.last_row }
{
    if position / 256 < bda.last_row() as u16 {
        return position + 256;
    }
    let shift = RowShift {
        direction: Direction::Up,
        rows: 1,
        colour: line_feed_fill(bus, bda, page, position),
    };
    Window::whole_page(bda).scroll(bus, bda, page, shift);
    position
}

/// The position after one: the next column, or the first column of the row below.
#[tactic(auto, using(crate::proofs::PlanRuns::run_bind), unfolding(crate::specs::Teletype::next_position_plan))]
fn next_position<B: Bus>(bus: &mut B, bda: &Bda, page: u8, position: u16) -> u16
    requires data { IsModeSet bda.now }
    requires page { page < page_count bda.now }
    requires row { row_of_position position ≤ bda.now.last_row }
    ensures position { (bus.new, result) ≡ run B.meaning (next_position_plan bda.now page position)
        bus.old }
    ensures row { row_of_position result ≤ bda.now.last_row }
{
    if position % 256 + 1 < bda.columns() {
        return position + 1;
    }
    let below = position_after_line_feed(bus, bda, page, position);
    below / 256 * 256
}

/// Types a character at a position, and answers the position afterwards.
#[tactic(auto, using(crate::proofs::PlanRuns::run_bind), unfolding(crate::specs::Teletype::type_character_plan, crate::specs::Teletype::write_and_advance_plan))]
pub(crate) fn type_character<B: Bus>(
    bus: &mut B,
    page: &Page<'_>,
    position: u16,
    character: u8,
    colouring: Colouring,
) -> u16
    requires page { IsPage page.now }
    requires row { row_of_position position ≤ page.now.bda.last_row }
    ensures position { (bus.new, result) ≡ run B.meaning (type_character_plan page.now.fonts page.now.bda
        page.now.number position character colouring) bus.old }
    ensures row { row_of_position result ≤ page.now.bda.last_row }
{
    match character {
        BELL => position,
        BACKSPACE => {
            if position % 256 == 0 {
                position
            } else {
                position - 1
            }
        }
        LINE_FEED => position_after_line_feed(bus, page.bda(), page.number(), position),
        CARRIAGE_RETURN => position / 256 * 256,
        _ => {
            let q = cell_number_at(page.bda(), position);
            write_character(bus, page, q, character, colouring);
            next_position(bus, page.bda(), page.number(), position)
        }
    }
}

/// 0E: types a character at the cursor of the active page, and moves the cursor.
#[tactic(auto, using(crate::proofs::PlanRuns::run_bind), unfolding(crate::specs::Teletype::teletype_plan))]
pub(crate) fn teletype<B: Bus>(bus: &mut B, fonts: &Fonts, bda: &mut Bda, character: u8, colour: u8)
    requires data { IsModeSet bda.old }
    requires row { row_of_position (cursor_position_of bda.old bda.old.page) ≤ bda.old.last_row }
    ensures answer { (bus.new, bda.new) ≡ run B.meaning
        (teletype_plan fonts.now bda.old character colour) bus.old }
    ensures stays { StaysInMode bda.old bda.new }
{
    if character == BELL {
        return;
    }
    let page = bda.page();
    let position = bda.cursor_place(page as usize);
    let colouring = Colouring {
        colour,
        is_attribute: false,
    };
    let written = Page::new(fonts, bda, page);
    let after = type_character(bus, &written, position, character, colouring);
    move_cursor(bus, bda, page, after);
}
