//! Checking screens that are read after BIOS calls.

use crate::checks::Checks;
use anyhow::Result;
use bios_modes::{Bda, Fonts};
use bios_screen::Screen;
use bios_services::{Regs, int10};
use std::alloc::Global;
use vga_bits::{Bytes, Fault};
use vga_card::Card;

/// How many bytes a font file has.
pub const FONTS_LEN: usize = 9_728;

/// Mode 13, and the last pixel of the page in colour AB.
const PIXEL_CALLS: [Regs; 2] = [
    Regs {
        ax: 0x0013,
        bx: 0,
        cx: 0,
        dx: 0,
    },
    Regs {
        ax: 0x0CAB,
        bx: 0,
        cx: 0x013F,
        dx: 0x00C7,
    },
];

/// Mode 3, the cursor in the last cell, a blank there in yellow on blue, and an A typed there.
const CELL_CALLS: [Regs; 4] = [
    Regs {
        ax: 0x0003,
        bx: 0,
        cx: 0,
        dx: 0,
    },
    Regs {
        ax: 0x0200,
        bx: 0,
        cx: 0,
        dx: 0x184F,
    },
    Regs {
        ax: 0x0920,
        bx: 0x001E,
        cx: 1,
        dx: 0,
    },
    Regs {
        ax: 0x0E41,
        bx: 0,
        cx: 0,
        dx: 0,
    },
];

/// Mode 3 with characters of eight scan lines, the cursor in the last cell of page 3, and an A
/// there in yellow on blue.
const SMALL_CELL_CALLS: [Regs; 4] = [
    Regs {
        ax: 0x0003,
        bx: 0,
        cx: 0,
        dx: 0,
    },
    Regs {
        ax: 0x1112,
        bx: 0,
        cx: 0,
        dx: 0,
    },
    Regs {
        ax: 0x0200,
        bx: 0x0300,
        cx: 0,
        dx: 0x314F,
    },
    Regs {
        ax: 0x0941,
        bx: 0x031E,
        cx: 1,
        dx: 0,
    },
];

/// Makes calls one after another, and returns whether all were accepted.
fn serve(alloc: Global, card: &mut Card, bda: &mut Bda, fonts: &Fonts, calls: &[Regs]) -> bool {
    let mut accepted = true;
    for regs in calls {
        accepted = accepted && bda.valid() && int10(alloc, card, bda, fonts, *regs, &[]).is_ok();
    }
    accepted
}

/// Fonts whose glyphs have no dots.
pub fn blank_fonts(alloc: Global) -> Result<Fonts, Fault> {
    let glyphs = Bytes::zeros(alloc, FONTS_LEN)?;
    Fonts::from_bytes(alloc, glyphs.as_slice())
}

/// Whether a screen is shown.
fn is_shown(alloc: Global, card: &Card, bda: &Bda) -> Result<bool, Fault> {
    Ok(Screen::read(alloc, card, bda)?.is_some())
}

/// Makes the calls, and returns whether all were accepted and no screen was shown before them.
fn serve_calls_unless_screen_is_shown(
    alloc: Global,
    card: &mut Card,
    bda: &mut Bda,
    calls: &[Regs],
) -> Result<bool, Fault> {
    let fonts = blank_fonts(alloc)?;
    let was_shown = is_shown(alloc, card, bda)?;
    Ok(!was_shown && serve(alloc, card, bda, &fonts, calls))
}

/// The screen that is shown after the calls, if there is one. Before them there must be none.
fn screen_after(alloc: Global, calls: &[Regs]) -> Result<Option<Screen>, Fault> {
    let mut card = Card::new(alloc)?;
    let mut bda = Bda::new();
    if !serve_calls_unless_screen_is_shown(alloc, &mut card, &mut bda, calls)? {
        return Ok(None);
    }
    Screen::read(alloc, &card, &bda)
}

/// The text screen after its calls.
pub fn screen_after_calls(alloc: Global) -> Result<Option<Screen>, Fault> {
    screen_after(alloc, &CELL_CALLS)
}

/// Whether the A went up with its row, and the row below has its attribute.
pub fn is_scrolled(screen: &Screen) -> bool {
    screen.cell(0, 23, 79) == Some((0x41, 0x1E)) && screen.cell(0, 24, 0) == Some((0x20, 0x1E))
}

/// Checks the parts of a graphics screen.
fn check_pixels(screen: &Screen, checks: &mut Checks) {
    checks.note("the last pixel", screen.pixel(0, 319, 199) == Some(0xAB));
    checks.note("its neighbour", screen.pixel(0, 318, 199) == Some(0));
    checks.note(
        "no pixel past the line",
        screen.pixel(0, 320, 199).is_none(),
    );
    checks.note("no line past the last", screen.pixel(0, 319, 200).is_none());
    checks.note("no pixel of a second page", screen.pixel(1, 0, 0).is_none());
    checks.note("no cell of graphics", screen.cell(0, 0, 0).is_none());
}

/// Checks the parts of a text screen.
fn check_parts(screen: &Screen, checks: &mut Checks) {
    checks.note("cells of a page that has scrolled", is_scrolled(screen));
    let other = screen.cell(7, 0, 0) == Some((0x20, 0x07));
    checks.note("a cell of another page", other);
    checks.note("no cell below the page", screen.cell(0, 25, 0).is_none());
    checks.note("a cursor", screen.cursor(0) == Some((24, 0)));
    checks.note("no cursor of a ninth page", screen.cursor(8).is_none());
    checks.note("no pixel of text", screen.pixel(0, 0, 0).is_none());
}

/// Checks the parts of a text screen of small cells: 50 rows on each of four pages.
fn check_small_cells(screen: &Screen, checks: &mut Checks) {
    let last = screen.cell(3, 49, 79) == Some((0x41, 0x1E));
    checks.note("the last cell of the last page", last);
    let other = screen.cell(0, 49, 79) == Some((0x20, 0x07));
    checks.note("the last cell of another page", other);
    checks.note("no cell below 50 rows", screen.cell(0, 50, 0).is_none());
    checks.note("no cell of a fifth page", screen.cell(4, 0, 0).is_none());
    checks.note("a cursor in row 49", screen.cursor(3) == Some((49, 79)));
}

/// Checks the text screen after its calls.
fn check_cell_calls(alloc: Global, checks: &mut Checks) -> Result<(), Fault> {
    let cells = screen_after_calls(alloc)?;
    checks.note("a screen of cells behind calls", cells.is_some());
    if let Some(screen) = &cells {
        check_parts(screen, checks);
    }
    Ok(())
}

/// Checks the text screen of small cells after its calls.
fn check_small_cell_calls(alloc: Global, checks: &mut Checks) -> Result<(), Fault> {
    let cells = screen_after(alloc, &SMALL_CELL_CALLS)?;
    checks.note("a screen of small cells behind calls", cells.is_some());
    if let Some(screen) = &cells {
        check_small_cells(screen, checks);
    }
    Ok(())
}

/// Checks the graphics screen after its calls.
fn check_pixel_calls(alloc: Global, checks: &mut Checks) -> Result<(), Fault> {
    let pixels = screen_after(alloc, &PIXEL_CALLS)?;
    checks.note("a screen of pixels behind calls", pixels.is_some());
    if let Some(screen) = &pixels {
        check_pixels(screen, checks);
    }
    Ok(())
}

/// Checks screens that are read after calls.
pub fn check_screens(alloc: Global) -> Result<Checks> {
    let mut checks = Checks::new();
    check_cell_calls(alloc, &mut checks)?;
    check_small_cell_calls(alloc, &mut checks)?;
    check_pixel_calls(alloc, &mut checks)?;
    Ok(checks)
}
