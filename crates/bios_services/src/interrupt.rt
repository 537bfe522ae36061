//! Interrupt 10: which service a call asks for, whether it is refused, and what it does.
ghost use Rattle.std.specs.Prelude.{◌≡◌, ◌≢◌, ◌<◌, true, None, Some, Ok, Err, length};
ghost use Rattle.bios_modes.specs.Valid.{IsValid};
ghost use Rattle.bios_services.specs.Plan.{run};
ghost use Rattle.bios_services.specs.Calls.{call_of};
ghost use Rattle.bios_services.specs.Bounds.{IsModeSet, StaysInMode, page_count};
ghost use Rattle.bios_services.specs.Refusals.{refusal_in_mode as refusal_in_mode_of};
ghost use Rattle.bios_modes.specs.Modes.{mode_row as mode_row_of};
ghost use Rattle.bios_modes.specs.Heights.{mode_row_at_height as mode_row_at_height_of};
ghost use Rattle.bios_services.specs.GlyphLoads.{load_refusal};
ghost use Rattle.bios_services.specs.declared.reply.Table.TheVariants.{Empty};
ghost use Rattle.bios_services.specs.declared.reply.ServiceError.TheVariants.{OutOfMemory};
ghost use Rattle.bios_services.specs.declared.call.Call.TheVariants.{ReadTable};
ghost use Rattle.bios_services.specs.Service.{set_mode_plan, load_if_height_exists};
ghost use Rattle.bios_services.specs.Service.{load_in_mode_plan};
ghost use Rattle.bios_services.specs.Service.{service_in_mode_plan, read_cursor_of, read_mode_of};
ghost use Rattle.bios_services.specs.Service.{read_adapter_of, read_display_of, read_cell_service};
ghost use Rattle.bios_services.specs.Service.{read_pixel_service, plan_of_service};
ghost use Rattle.bios_services.specs.Service.{table_in_mode_plan};
ghost use Rattle.bios_services.specs.Service.{service, allocates_memory, MayAnswer};

use crate::call::{Call, Service, decode};
use crate::cells::{cell_address, read_cell};
use crate::character_reading::read_character;
use crate::colours::perform_colours;
use crate::cursor::{cursor_cell_number, move_cursor, set_cursor_type, show_page};
use crate::direction::Direction;
use crate::dot_cell::GraphicsCell;
use crate::glyph_load::GlyphLoad;
use crate::mode_set;
use crate::pixels::{Pixel, read_pixel, write_pixel};
use crate::refusals::{reason_of_unknown_call, refusal_in_mode};
use crate::regs::{Regs, with_low};
use crate::reply::{Reply, ServiceError, Table};
use crate::tables::{TableService, read_table, table_refusal};
use crate::teletype::teletype;
use bios_modes::{Bda, Fonts, is_monochrome, is_text, mode_row, mode_row_at_height};
use std::alloc::Global;
use vga_bits::Refusal;
use vga_card::Bus;

/// Answers the cursor's type and its position on a page.
fn read_cursor(bda: &Bda, page: u8, regs: &mut Regs)
    requires { page < 8 }
    ensures { regs.new ≡ read_cursor_of bda.now page regs.old }
{
    regs.cx = bda.cursor_type();
    regs.dx = bda.cursor_place(page as usize);
}

/// Answers the character at the cursor of a page, and in text its attribute.
#[tactic(auto, using(crate::proofs::PlanRuns::run_bind), unfolding(crate::specs::Service::read_cell_service))]
fn read_cursor_cell<B: Bus>(bus: &mut B, fonts: &Fonts, bda: &Bda, page: u8, regs: &mut Regs)
    requires data { IsModeSet bda.now }
    requires page { page < page_count bda.now }
    ensures { (bus.new, regs.new) ≡ run B.meaning (read_cell_service fonts.now page bda.now
        regs.old) bus.old }
{
    let q = cursor_cell_number(bda, page);
    if is_text(bda.mode()) {
        regs.ax = read_cell(bus, cell_address(bda, page, q));
        return;
    }
    let character = read_character(bus, GraphicsCell::of_columns(bda, page, q), fonts);
    regs.ax = with_low(regs.ax, character);
}

/// Answers the colour of a pixel.
#[tactic(auto, using(crate::proofs::PlanRuns::run_bind), unfolding(crate::specs::Service::read_pixel_service))]
fn read_pixel_colour<B: Bus>(bus: &mut B, bda: &Bda, pixel: Pixel, regs: &mut Regs)
    requires data { IsModeSet bda.now }
    requires page { pixel.page < page_count bda.now }
    ensures { (bus.new, regs.new) ≡ run B.meaning (read_pixel_service pixel.page pixel.x pixel.y
        bda.now regs.old) bus.old }
{
    let colour = read_pixel(bus, bda, pixel);
    regs.ax = with_low(regs.ax, colour);
}

/// Answers the mode, its number of columns and the active page.
fn read_mode(bda: &Bda, regs: &mut Regs)
    requires { IsModeSet bda.now }
    ensures { regs.new ≡ read_mode_of bda.now regs.old }
{
    regs.ax = bda.mode() as u16 + 256 * bda.columns();
    regs.bx = regs.bx % 256 + 256 * bda.page() as u16;
}

/// Answers which adapter there is.
fn read_adapter(bda: &Bda, regs: &mut Regs)
    ensures { regs.new ≡ read_adapter_of bda.now regs.old }
{
    regs.bx = if is_monochrome(bda.mode()) {
        0x0103
    } else {
        0x0003
    };
    regs.cx = 0x0009;
}

/// Answers which display there is.
fn read_display(regs: &mut Regs)
    ensures { regs.new ≡ read_display_of regs.old }
{
    regs.ax = 0x1A1A;
    regs.bx = 0x0008;
}

/// Does a service that is not refused.
#[tactic(auto, using(crate::proofs::PlanRuns::run_bind), unfolding(crate::specs::Service::plan_of_service, crate::specs::Refusals::refusal_in_mode))]
fn perform<B: Bus>(
    bus: &mut B,
    bda: &mut Bda,
    fonts: &Fonts,
    service: Service,
    regs: &mut Regs,
    block: &[u8],
)
    requires allowed { refusal_in_mode_of service bda.old (length block.now) ≡ None }
    requires data { IsModeSet bda.old }
    ensures answer { (bus.new, (regs.new, bda.new))
        ≡ run B.meaning (plan_of_service service fonts.now bda.old regs.old block.now) bus.old }
    ensures stays { StaysInMode bda.old bda.new }
{
    match service {
        Service::SetCursorType { cursor_type } => set_cursor_type(bus, bda, cursor_type),
        Service::SetCursor { page, position } => move_cursor(bus, bda, page, position),
        Service::ReadCursor { page } => read_cursor(bda, page, regs),
        Service::SelectPage { page } => show_page(bus, bda, page),
        Service::ScrollUp { scroll } => scroll.apply(bus, bda, Direction::Up),
        Service::ScrollDown { scroll } => scroll.apply(bus, bda, Direction::Down),
        Service::ReadCell { page } => read_cursor_cell(bus, fonts, bda, page, regs),
        Service::WriteCells(cells) => cells.write(bus, fonts, bda),
        Service::WritePixel { page, x, y, colour } => {
            write_pixel(bus, bda, Pixel { page, x, y }, colour)
        }
        Service::ReadPixel { page, x, y } => {
            read_pixel_colour(bus, bda, Pixel { page, x, y }, regs)
        }
        Service::Teletype { character, colour } => { teletype(bus, fonts, bda, character, colour) }
        Service::ReadMode => read_mode(bda, regs),
        Service::Colours(service) => {
            perform_colours(bus, bda.crtc_address(), service, regs, block)
        }
        Service::ReadAdapter => read_adapter(bda, regs),
        Service::WriteString(string) => string.write(bus, fonts, bda, block),
        Service::ReadDisplay => read_display(regs),
    }
}

/// Does a service that is not refused, over valid data of a mode, and leaves them valid.
#[tactic(auto, using(crate::proofs::BoundLemmas::set_of_valid, crate::proofs::BoundLemmas::stays_valid))]
fn perform_allowed_service<B: Bus>(
    bus: &mut B,
    bda: &mut Bda,
    fonts: &Fonts,
    service: Service,
    regs: Regs,
    block: &[u8],
) -> Regs
    requires allowed { refusal_in_mode_of service bda.old (length block.now) ≡ None }
    requires valid { IsValid bda.old }
    requires set { bda.old.mode ≢ 0 }
    ensures answer { (bus.new, (result, bda.new)) ≡ run B.meaning
        (plan_of_service service fonts.now bda.old regs block.now) bus.old }
    ensures valid { IsValid bda.new }
{
    let mut answer = regs;
    perform(bus, bda, fonts, service, &mut answer, block);
    answer
}

/// An answer of registers alone.
fn answer_of_registers(regs: Regs) -> Result<Reply, Refusal>
    ensures { result ≡ Ok (record { regs = regs; table = Empty }) }
{
    Ok(Reply {
        regs,
        table: Table::Empty,
    })
}

/// Sets a mode, if there is one of this number.
#[tactic(auto, using(crate::proofs::PlanRuns::run_bind, crate::proofs::BoundLemmas::begins_valid), unfolding(crate::specs::Service::set_mode_plan))]
fn set_mode<B: Bus>(
    bus: &mut B,
    bda: &mut Bda,
    fonts: &Fonts,
    mode: u8,
    keeps: bool,
    regs: Regs,
) -> Result<Reply, Refusal>
    requires { IsValid bda.old }
    ensures answer { (bus.new, (result, bda.new)) ≡ run B.meaning
        (set_mode_plan (mode_row_of mode) mode keeps fonts.now bda.old regs) bus.old }
    ensures valid { IsValid bda.new }
{
    let Some(row) = mode_row(mode) else {
        return Err(Refusal::BadMode);
    };
    mode_set::set_mode(bus, &row, keeps, fonts);
    bda.begin_mode(mode, &row);
    answer_of_registers(regs)
}

/// Loads glyphs, if the mode has a row of their height; no other reason refuses them.
#[tactic(auto, using(crate::proofs::PlanRuns::run_bind, crate::proofs::BoundLemmas::begins_valid_at, crate::proofs::BoundLemmas::there_of, crate::proofs::BoundLemmas::port_small), unfolding(crate::specs::Service::load_if_height_exists))]
fn load_allowed_glyphs<B: Bus>(
    bus: &mut B,
    bda: &mut Bda,
    fonts: &Fonts,
    load: GlyphLoad,
    regs: Regs,
    block: &[u8],
) -> Result<Reply, Refusal>
    requires valid { IsValid bda.old }
    requires allowed { load_refusal load bda.old.mode (length block.now) ≡ None }
    ensures answer { (bus.new, (result, bda.new)) ≡ run B.meaning
        (load_if_height_exists (mode_row_at_height_of bda.old.mode load.height) load fonts.now
        bda.old regs block.now)
        bus.old }
    ensures valid { IsValid bda.new }
{
    let mode = bda.mode();
    let Some(row) = mode_row_at_height(mode, load.height as u16) else {
        return Err(Refusal::BadHeight);
    };
    load.write(bus, fonts, block, &row);
    bda.begin_mode(mode, &row);
    answer_of_registers(regs)
}

/// Loads glyphs of text, unless they are refused.
#[tactic(auto, unfolding(crate::specs::Service::load_in_mode_plan, crate::specs::Service::load_unless_refused_plan))]
fn load_glyphs_in_mode<B: Bus>(
    bus: &mut B,
    bda: &mut Bda,
    fonts: &Fonts,
    load: GlyphLoad,
    regs: Regs,
    block: &[u8],
) -> Result<Reply, Refusal>
    requires { IsValid bda.old }
    ensures answer { (bus.new, (result, bda.new)) ≡ run B.meaning
        (load_in_mode_plan load fonts.now bda.old regs block.now) bus.old }
    ensures valid { IsValid bda.new }
{
    if bda.mode() == 0 {
        return Err(Refusal::NoMode);
    }
    if let Err(reason) = load.refusal(bda.mode(), block.len()) {
        return Err(reason.refusal());
    }
    load_allowed_glyphs(bus, bda, fonts, load, regs, block)
}

/// Does a service that needs a mode, unless it is refused.
#[tactic(auto, using(crate::proofs::PlanRuns::run_bind, crate::proofs::BoundLemmas::set_of_valid), unfolding(crate::specs::Service::service_in_mode_plan, crate::specs::Service::unless_refused_plan))]
fn perform_service_in_mode<B: Bus>(
    bus: &mut B,
    bda: &mut Bda,
    fonts: &Fonts,
    service: Service,
    regs: Regs,
    block: &[u8],
) -> Result<Reply, Refusal>
    requires { IsValid bda.old }
    ensures answer { (bus.new, (result, bda.new)) ≡ run B.meaning
        (service_in_mode_plan service fonts.now bda.old regs block.now) bus.old }
    ensures valid { IsValid bda.new }
{
    if bda.mode() == 0 {
        return Err(Refusal::NoMode);
    }
    let service = service.service_with_page_or_0_if_only_one(bda);
    if let Err(reason) = refusal_in_mode(service, bda, block.len()) {
        return Err(reason.refusal());
    }
    answer_of_registers(perform_allowed_service(bus, bda, fonts, service, regs, block))
}

/// Answers a table, unless that is refused.
#[tactic(auto, using(crate::proofs::PlanRuns::run_bind, crate::proofs::BoundLemmas::set_of_valid), unfolding(crate::specs::Service::table_in_mode_plan, crate::specs::Service::table_unless_refused_plan))]
fn answer_table_in_mode<B: Bus>(
    alloc: Global,
    bus: &mut B,
    bda: &Bda,
    service: TableService,
    regs: Regs,
) -> Result<Reply, ServiceError>
    requires { IsValid bda.now }
    ensures answer { MayAnswer B.meaning (table_in_mode_plan service bda.now regs) bus.old bda.now
        result bus.new bda.now }
    ensures memory { result ≡ Err OutOfMemory → allocates_memory (Some (ReadTable service)) bda.now
        ≡ true }
{
    if bda.mode() == 0 {
        return Err(ServiceError::Refused(Refusal::NoMode));
    }
    if let Err(reason) = table_refusal(service) {
        return Err(ServiceError::Refused(reason.refusal()));
    }
    match read_table(alloc, bus, bda.crtc_address(), service) {
        Ok(table) => Ok(Reply { regs, table }),
        Err(_) => Err(ServiceError::OutOfMemory),
    }
}

/// Does the service that the registers ask for, as cycles over a bus.
///
/// Registers that a service does not answer keep the caller's values. A refused service has no
/// cycle and leaves the BIOS data. The reasons are `NoMode` before a mode is set, `BadFunction`,
/// `BadMode`, `WrongKind`, `BadPage`, `Outside`, `CountPast`, `BadRegister`, `BadBlock` and
/// `BadHeight`; if there are several, the first is answered. Within a service, a write that the bus
/// refuses does nothing, and a read gives FF (hexadecimal). The BIOS data must be valid, and stay
/// valid.
///
/// Only function 10 with AL = 17, which answers CX entries of the DAC as a table, allocates memory:
/// before its first cycle, and if CX is not 0. If memory is refused, the answer is `OutOfMemory`,
/// and nothing has changed.
pub fn int10<B: Bus>(
    alloc: Global,
    bus: &mut B,
    bda: &mut Bda,
    fonts: &Fonts,
    regs: Regs,
    block: &[u8],
) -> Result<Reply, ServiceError>
    requires { IsValid bda.old }
    // The cycles of the service in order, its answer, and the BIOS data afterwards; or memory was
    // refused, and nothing has changed.
    ensures answer { MayAnswer B.meaning (service fonts.now bda.old regs block.now) bus.old bda.old
        result bus.new bda.new }
    // Only a table of entries of the DAC allocates memory.
    ensures memory { result ≡ Err OutOfMemory → allocates_memory (call_of regs) bda.old ≡ true }
    ensures valid { IsValid bda.new }
{
    let outcome = match decode(regs) {
        None => Err(reason_of_unknown_call(bda, regs).refusal()),
        Some(Call::SetMode { mode, keeps }) => set_mode(bus, bda, fonts, mode, keeps, regs),
        Some(Call::ReadTable(service)) => return answer_table_in_mode(
            alloc, bus, bda, service, regs,
        ),
        Some(Call::LoadGlyphs(load)) => load_glyphs_in_mode(bus, bda, fonts, load, regs, block),
        Some(Call::InMode(service)) => perform_service_in_mode(
            bus, bda, fonts, service, regs, block,
        ),
    };
    outcome.map_err(ServiceError::Refused)
}
