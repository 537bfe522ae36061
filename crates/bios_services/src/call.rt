//! Which service the registers ask for.
ghost use Rattle.std.specs.Prelude.{◌≡◌};
ghost use Rattle.bios_services.specs.Calls.{scroll_of as scroll_of_regs};
ghost use Rattle.bios_services.specs.Calls.{colour_call_of as colour_call_of_regs};
ghost use Rattle.bios_services.specs.Calls.{service_of as service_of_regs, call_of};

use crate::cell_run::CellRun;
use crate::colours::ColourService;
use crate::glyph_load::GlyphLoad;
use crate::regs::{Regs, high, low};
use crate::scroll::Scroll;
use crate::strings::StringCall;
use crate::tables::TableService;

/// What a call asks for.
#[derive(Clone, Copy)]
pub enum Call {
    /// 00: sets a mode, and keeps the memory if bit 7 of AL is 1. It needs no mode before.
    SetMode { mode: u8, keeps: bool },
    /// 10 with AL = 09 or 17: answers a table.
    ReadTable(TableService),
    /// 11 with AL = 10, 11, 12 or 14 and BL = 00: loads glyphs of text.
    LoadGlyphs(GlyphLoad),
    /// Any other service.
    InMode(Service),
}

/// A service that needs a mode, with its arguments.
#[derive(Clone, Copy)]
pub enum Service {
    /// 01: sets the cursor's first and last scan line.
    SetCursorType {
        cursor_type: u16,
    },
    /// 02: sets the cursor's position on a page.
    SetCursor {
        page: u8,
        position: u16,
    },
    /// 03: answers the cursor's position on a page, and its type.
    ReadCursor {
        page: u8,
    },
    /// 05: shows a page.
    SelectPage {
        page: u8,
    },
    /// 06: scrolls a window up.
    ScrollUp {
        scroll: Scroll,
    },
    /// 07: scrolls a window down.
    ScrollDown {
        scroll: Scroll,
    },
    /// 08: answers the character at the cursor, and in text its attribute.
    ReadCell {
        page: u8,
    },
    /// 09 and 0A: writes a character to a run of cells from the cursor on; in text 09 writes the
    /// attribute too.
    WriteCells(CellRun),
    /// 0C: writes a pixel.
    WritePixel {
        page: u8,
        x: u16,
        y: u16,
        colour: u8,
    },
    /// 0D: answers a pixel.
    ReadPixel {
        page: u8,
        x: u16,
        y: u16,
    },
    /// 0E: types a character at the cursor of the active page.
    Teletype {
        character: u8,
        colour: u8,
    },
    /// 0F: answers the mode, its number of columns and the active page.
    ReadMode,
    /// 10: palette, overscan colour, blinking, DAC.
    Colours(ColourService),
    /// 12 with BL = 10: answers which adapter there is.
    ReadAdapter,
    /// 13 with AL = 00 to 03: types a string.
    WriteString(StringCall),
    /// 1A with AL = 00: answers which display there is.
    ReadDisplay,
}

/// The scroll that functions 06 and 07 ask for.
fn scroll_of(regs: Regs) -> Scroll
    ensures { result ≡ scroll_of_regs regs }
{
    Scroll {
        lines: low(regs.ax),
        fill: high(regs.bx),
        top: high(regs.cx),
        left: low(regs.cx),
        bottom: high(regs.dx),
        right: low(regs.dx),
    }
}

/// The subfunction of function 10 that the registers ask for, if there is one.
fn colour_call_of(regs: Regs) -> Option<Call>
    ensures { result ≡ colour_call_of_regs regs }
{
    let register = low(regs.bx);
    let value = high(regs.bx);
    let first = regs.bx;
    let count = regs.cx;
    let service = match low(regs.ax) {
        0x00 => ColourService::SetRegister { register, value },
        0x01 => ColourService::SetOverscan { value },
        0x02 => ColourService::SetPalette,
        0x03 => ColourService::SetBlinking { blinking: register },
        0x07 => ColourService::ReadRegister { register },
        0x08 => ColourService::ReadOverscan,
        0x09 => return Some(Call::ReadTable(TableService::ReadPalette)),
        0x10 => ColourService::SetEntry {
            entry: regs.bx,
            red: high(regs.dx),
            green: high(regs.cx),
            blue: low(regs.cx),
        },
        0x12 => ColourService::SetEntries { first, count },
        0x15 => ColourService::ReadEntry { entry: regs.bx },
        0x17 => return Some(Call::ReadTable(TableService::ReadEntries { first, count })),
        0x18 => ColourService::SetMask { mask: low(regs.bx) },
        0x19 => ColourService::ReadMask,
        _ => return None,
    };
    Some(Call::InMode(Service::Colours(service)))
}

/// The service of a function other than 00, 10 and 11, if there is one.
fn service_of(regs: Regs) -> Option<Service>
    ensures { result ≡ service_of_regs regs }
{
    let al = low(regs.ax);
    let page = high(regs.bx);
    let position = regs.dx;
    let x = regs.cx;
    let y = regs.dx;
    let scroll = scroll_of(regs);
    match high(regs.ax) {
        0x01 => Some(Service::SetCursorType {
            cursor_type: regs.cx,
        }),
        0x02 => Some(Service::SetCursor { page, position }),
        0x03 => Some(Service::ReadCursor { page }),
        0x05 => Some(Service::SelectPage { page: al }),
        0x06 => Some(Service::ScrollUp { scroll }),
        0x07 => Some(Service::ScrollDown { scroll }),
        0x08 => Some(Service::ReadCell { page }),
        0x09 => Some(Service::WriteCells(CellRun::of_registers(regs, true))),
        0x0A => Some(Service::WriteCells(CellRun::of_registers(regs, false))),
        0x0C => Some(Service::WritePixel {
            page,
            x,
            y,
            colour: al,
        }),
        0x0D => Some(Service::ReadPixel { page, x, y }),
        0x0E => Some(Service::Teletype {
            character: al,
            colour: low(regs.bx),
        }),
        0x0F => Some(Service::ReadMode),
        0x12 if low(regs.bx) == 0x10 => Some(Service::ReadAdapter),
        0x13 if al < 4 => Some(Service::WriteString(StringCall::of_registers(regs))),
        0x1A if al == 0x00 => Some(Service::ReadDisplay),
        _ => None,
    }
}

/// What the registers ask for, if that is a call.
pub(crate) fn decode(regs: Regs) -> Option<Call>
    ensures { result ≡ call_of regs }
{
    let al = low(regs.ax);
    if high(regs.ax) == 0x00 {
        return Some(Call::SetMode {
            mode: al % 128,
            keeps: al >= 128,
        });
    }
    if high(regs.ax) == 0x10 {
        return colour_call_of(regs);
    }
    if let Some(load) = GlyphLoad::of_registers(regs) {
        return Some(Call::LoadGlyphs(load));
    }
    match service_of(regs) {
        Some(service) => Some(Call::InMode(service)),
        None => None,
    }
}
