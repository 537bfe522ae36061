//! Reasons as numbers: the kind of a reason, and the numbers that decide it.
ghost use Rattle.std.specs.Prelude.{◌≡◌};
ghost use Rattle.vga_c.specs.ReasonNumbers.{group_number as group_number_of, part_number as part_number_of};
ghost use Rattle.vga_c.specs.ReasonNumbers.{word_or_most as word_or_most_of};
ghost use Rattle.vga_c.specs.ReasonNumbers.{cycle_kind as cycle_kind_of, call_kind as call_kind_of};
ghost use Rattle.vga_c.specs.ReasonNumbers.{cycle_numbers as cycle_numbers_of};
ghost use Rattle.vga_c.specs.ReasonNumbers.{call_numbers as call_numbers_of};
ghost use Rattle.vga_c.specs.ReasonNumbers.{reason_kind, reason_numbers};

use bios_services::CallReason;
use vga_explain::{CycleReason, Group, LeftOut, Reason};

/// The number of a group of registers.
fn group_number(group: Group) -> u32
    ensures { result ≡ group_number_of group }
{
    match group {
        Group::Sequencer => 0,
        Group::GraphicsController => 1,
        Group::CrtController => 2,
        Group::AttributeController => 3,
    }
}

/// The number of a part that the adapter leaves out.
fn part_number(part: LeftOut) -> u32
    ensures { result ≡ part_number_of part }
{
    match part {
        LeftOut::InputStatus0 => 0,
        LeftOut::SubsystemEnable => 1,
        LeftOut::DacState => 2,
        LeftOut::FeatureControl => 3,
    }
}

/// A count as a word of 32 bits, or the highest word if it has no room there.
fn word_or_most(count: usize) -> u32
    ensures { result ≡ word_or_most_of count }
{
    if count <= 0xFFFF_FFFF {
        count as u32
    } else {
        0xFFFF_FFFF
    }
}

/// The kind of a reason why a cycle is refused.
fn cycle_kind(reason: CycleReason) -> u32
    ensures { result ≡ cycle_kind_of reason }
{
    match reason {
        CycleReason::NoPort { .. } => 1,
        CycleReason::OtherCrtController { .. } => 2,
        CycleReason::ReadOnly { .. } => 3,
        CycleReason::PortLeftOut { .. } => 4,
        CycleReason::NoRegister { .. } => 5,
        CycleReason::BitLeftOut { .. } => 6,
        CycleReason::FieldLeftOut { .. } => 7,
        CycleReason::MemoryOff { .. } => 8,
        CycleReason::OutsideWindow { .. } => 9,
        CycleReason::LastPort => 10,
        CycleReason::LastAddress => 11,
    }
}

/// The numbers of such a reason.
fn cycle_numbers(reason: CycleReason) -> [u32; 5]
    ensures { result ≡ cycle_numbers_of reason }
{
    match reason {
        CycleReason::NoPort { port } => [port as u32, 0, 0, 0, 0],
        CycleReason::OtherCrtController { port, base, there } => [
            port as u32,
            base as u32,
            there as u32,
            0,
            0,
        ],
        CycleReason::ReadOnly { port } => [port as u32, 0, 0, 0, 0],
        CycleReason::PortLeftOut { port, part } => [port as u32, part_number(part), 0, 0, 0],
        CycleReason::NoRegister { group, index, last } => [
            group_number(group),
            index as u32,
            last as u32,
            0,
            0,
        ],
        CycleReason::BitLeftOut {
            group,
            index,
            bit,
            value,
        } => [
            group_number(group),
            index as u32,
            bit as u32,
            value as u32,
            0,
        ],
        CycleReason::FieldLeftOut {
            group,
            index,
            high,
            low,
            wanted,
        } => [
            group_number(group),
            index as u32,
            high as u32,
            low as u32,
            wanted as u32,
        ],
        CycleReason::MemoryOff { address } => [address, 0, 0, 0, 0],
        CycleReason::OutsideWindow {
            address,
            map,
            first,
            last,
        } => [address, map as u32, first, last, 0],
        CycleReason::LastPort => [0, 0, 0, 0, 0],
        CycleReason::LastAddress => [0, 0, 0, 0, 0],
    }
}

/// The kind of a reason why a call of the video BIOS is refused.
fn call_kind(reason: CallReason) -> u32
    ensures { result ≡ call_kind_of reason }
{
    match reason {
        CallReason::NoModeSet { .. } => 12,
        CallReason::NoService { .. } => 13,
        CallReason::NoSuchMode { .. } => 14,
        CallReason::NoPixels { .. } => 15,
        CallReason::NoCharacterMap { .. } => 16,
        CallReason::NoPage { .. } => 17,
        CallReason::CursorOutside { .. } => 18,
        CallReason::PositionOutside { .. } => 19,
        CallReason::PixelOutside { .. } => 20,
        CallReason::CellsPast { .. } => 21,
        CallReason::GlyphsPast { .. } => 22,
        CallReason::NoPaletteRegister { .. } => 23,
        CallReason::NoBlinking { .. } => 24,
        CallReason::NoEntry { .. } => 25,
        CallReason::NoEntries { .. } => 26,
        CallReason::WrongBlock { .. } => 27,
        CallReason::NoHeight { .. } => 28,
    }
}

/// The numbers of such a reason.
fn call_numbers(reason: CallReason) -> [u32; 5]
    ensures { result ≡ call_numbers_of reason }
{
    match reason {
        CallReason::NoModeSet { function } => [function as u32, 0, 0, 0, 0],
        CallReason::NoService { function, al, bl } => [function as u32, al as u32, bl as u32, 0, 0],
        CallReason::NoSuchMode { mode } => [mode as u32, 0, 0, 0, 0],
        CallReason::NoPixels { mode } => [mode as u32, 0, 0, 0, 0],
        CallReason::NoCharacterMap { mode } => [mode as u32, 0, 0, 0, 0],
        CallReason::NoPage { page, pages } => [page as u32, pages as u32, 0, 0, 0],
        CallReason::CursorOutside { page, cell, cells } => [page as u32, cell, cells, 0, 0],
        CallReason::PositionOutside {
            row,
            column,
            rows,
            columns,
        } => [row as u32, column as u32, rows as u32, columns as u32, 0],
        CallReason::PixelOutside {
            x,
            y,
            width,
            height,
        } => [x as u32, y as u32, width, height, 0],
        CallReason::CellsPast {
            count,
            first,
            cells,
        } => [count as u32, first, cells, 0, 0],
        CallReason::GlyphsPast { count, first } => [count as u32, first as u32, 0, 0, 0],
        CallReason::NoPaletteRegister { register } => [register as u32, 0, 0, 0, 0],
        CallReason::NoBlinking { value } => [value as u32, 0, 0, 0, 0],
        CallReason::NoEntry { entry } => [entry as u32, 0, 0, 0, 0],
        CallReason::NoEntries { count, first } => [count as u32, first as u32, 0, 0, 0],
        CallReason::WrongBlock { len, wanted } => [
            word_or_most(len),
            word_or_most(wanted),
            0,
            0,
            0,
        ],
        CallReason::NoHeight { height, mode } => [height as u32, mode as u32, 0, 0, 0],
    }
}

/// The kind of a reason.
pub(crate) fn kind_of_reason(reason: Reason) -> u32
    ensures { result ≡ reason_kind reason }
{
    match reason {
        Reason::Cycle { reason, .. } => cycle_kind(reason),
        Reason::Call { reason } => call_kind(reason),
        Reason::TooManyDots { .. } => 29,
        Reason::NoCellsYet => 30,
        Reason::NoCells { .. } => 31,
    }
}

/// The numbers of a reason, and 0 behind them.
pub(crate) fn numbers_of_reason(reason: Reason) -> [u32; 5]
    ensures { result ≡ reason_numbers reason }
{
    match reason {
        Reason::Cycle { reason, .. } => cycle_numbers(reason),
        Reason::Call { reason } => call_numbers(reason),
        Reason::TooManyDots { dots, most } => [dots, most, 0, 0, 0],
        Reason::NoCellsYet => [0, 0, 0, 0, 0],
        Reason::NoCells { mode } => [mode as u32, 0, 0, 0, 0],
    }
}
