//! Checking the number of cycles of BIOS calls against docs/SERVICES.md.

use crate::checks::Checks;
use crate::counted_card::CountedCard;
use crate::screens::blank_fonts;
use anyhow::Result;
use bios_modes::{Bda, Fonts};
use bios_services::{Regs, int10};
use std::alloc::Global;
use vga_bits::Fault;
use vga_card::Card;

/// A call: AX, BX, CX and DX, the length of its block, and how many cycles it has.
type CountedCall = ([u16; 4], usize, u32);

/// The cycles of a mode set: its registers and palette; its font; and the memory that it clears, in
/// text and in graphics.
const REGISTERS: u32 = 896;

const FONT: u32 = 4_112;

const TEXT_MEMORY: u32 = 32_768;

const GRAPHICS_MEMORY: u32 = 65_536;

/// The cycles of a page of 25 rows of text that goes up by one row.
const PAGE_UP: u32 = 7_840;

/// Mode 3, its cursor, windows, characters, strings and heights.
const TEXT_CALLS: [CountedCall; 40] = [
    ([0x0003, 0, 0, 0], 0, REGISTERS + FONT + TEXT_MEMORY),
    ([0x0083, 0, 0, 0], 0, REGISTERS + FONT),
    ([0x0100, 0, 0x0607, 0], 0, 4),
    // Only the active page's cursor is shown.
    ([0x0200, 0, 0, 0x0102], 0, 4),
    ([0x0200, 0x0100, 0, 0x0102], 0, 0),
    ([0x0300, 0, 0, 0], 0, 0),
    ([0x0501, 0, 0, 0], 0, 8),
    ([0x0500, 0, 0, 0], 0, 8),
    ([0x0601, 0x0700, 0, 0x184F], 0, PAGE_UP),
    ([0x0701, 0x0700, 0, 0x184F], 0, PAGE_UP),
    // The whole page becomes blank; DX is limited to the page's last cell.
    ([0x0600, 0x0700, 0, 0xFFFF], 0, 4_000),
    // A window of five rows and ten columns goes up by two: three rows are copied, two become
    // blank.
    ([0x0602, 0x0700, 0x020A, 0x0613], 0, 4 * 10 * 3 + 2 * 10 * 2),
    ([0x0702, 0x0700, 0x020A, 0x0613], 0, 4 * 10 * 3 + 2 * 10 * 2),
    // A window without rows, and one without columns.
    ([0x0601, 0x0700, 0x0300, 0x024F], 0, 0),
    ([0x0601, 0x0700, 0x0005, 0x1804], 0, 0),
    ([0x0800, 0, 0, 0], 0, 2),
    ([0x0941, 0x0007, 3, 0], 0, 6),
    ([0x0A41, 0x0007, 3, 0], 0, 3),
    ([0x0941, 0x0007, 0, 0], 0, 0),
    // Refused: a text mode has no pixels.
    ([0x0C01, 0, 0, 0], 0, 0),
    ([0x0E41, 0, 0, 0], 0, 5),
    ([0x0E07, 0, 0, 0], 0, 0),
    ([0x0E08, 0, 0, 0], 0, 4),
    ([0x0E0A, 0, 0, 0], 0, 4),
    ([0x0E0D, 0, 0, 0], 0, 4),
    // At the last cell the page goes up, after a read of the attribute there.
    ([0x0200, 0, 0, 0x184F], 0, 4),
    ([0x0E41, 0, 0, 0], 0, 5 + 1 + PAGE_UP),
    ([0x0E0A, 0, 0, 0], 0, 4 + 1 + PAGE_UP),
    ([0x0F00, 0, 0, 0], 0, 0),
    // Characters with their attributes; with AL 01 the cursor follows them.
    ([0x1301, 0x0007, 4, 0x0500], 4, 4 * 2 + 4),
    ([0x1302, 0, 4, 0x0500], 8, 4 * 2),
    ([0x1301, 0x0007, 0, 0x0500], 0, 4),
    ([0x1112, 0, 0, 0], 0, 2_082),
    ([0x0601, 0x0700, 0, 0x314F], 0, 15_840),
    ([0x1111, 0, 0, 0], 0, 3_618),
    ([0x0601, 0x0700, 0, 0x1B4F], 0, 8_800),
    ([0x1114, 0, 0, 0], 0, 4_130),
    ([0x1110, 0x0800, 2, 0x0041], 16, 34 + 2 * 8),
    ([0x1210, 0x0010, 0, 0], 0, 0),
    ([0x1A00, 0, 0, 0], 0, 0),
];

/// The palette and the DAC, in mode 7.
const COLOUR_CALLS: [CountedCall; 18] = [
    ([0x0007, 0, 0, 0], 0, REGISTERS + FONT + TEXT_MEMORY),
    ([0x1000, 0x3F07, 0, 0], 0, 5),
    ([0x1001, 0x0100, 0, 0], 0, 5),
    ([0x1002, 0, 0, 0], 17, 1 + 2 * 17 + 2),
    ([0x1003, 0x0001, 0, 0], 0, 6),
    ([0x1007, 0x0007, 0, 0], 0, 4),
    ([0x1008, 0, 0, 0], 0, 4),
    ([0x1009, 0, 0, 0], 0, 1 + 3 * 17),
    ([0x1010, 0x0007, 0, 0], 0, 4),
    ([0x1012, 0x0007, 2, 0], 6, 1 + 3 * 2),
    ([0x1012, 0x0007, 0, 0], 0, 1),
    ([0x1015, 0x0007, 0, 0], 0, 4),
    ([0x1017, 0x0007, 2, 0], 0, 1 + 3 * 2),
    ([0x1017, 0x0007, 0, 0], 0, 1),
    ([0x1018, 0x00FF, 0, 0], 0, 1),
    ([0x1019, 0, 0, 0], 0, 1),
    // Refused: there is no palette register 10, and no subfunction 04.
    ([0x1000, 0x0010, 0, 0], 0, 0),
    ([0x1004, 0, 0, 0], 0, 0),
];

/// 16 colours: mode 0D, with characters of 8 lines, and pages of modes 10 and 12 that go up by one
/// row.
const PLANAR_CALLS: [CountedCall; 22] = [
    ([0x000D, 0, 0, 0], 0, REGISTERS + GRAPHICS_MEMORY),
    ([0x008D, 0, 0, 0], 0, REGISTERS),
    ([0x0200, 0, 0, 0x0102], 0, 0),
    ([0x0501, 0, 0, 0], 0, 4),
    ([0x0601, 0, 0, 0x1827], 0, 16_008),
    ([0x0701, 0, 0, 0x1827], 0, 16_008),
    // A window of five rows and ten columns goes up by two.
    ([0x0602, 0, 0x020A, 0x0613], 0, 2 * 8 * 10 * 5 + 8),
    ([0x0800, 0, 0, 0], 0, 2 + 8 + 2),
    // One character, one with XOR, and three.
    ([0x0941, 0x0007, 1, 0], 0, 2 * 8 + 4),
    ([0x0941, 0x0087, 1, 0], 0, 2 * 8 + 8),
    ([0x0A41, 0x0007, 3, 0], 0, 3 * (2 * 8 + 4)),
    ([0x0C07, 0, 5, 9], 0, 10),
    ([0x0C87, 0, 5, 9], 0, 14),
    ([0x0C07, 0, 320, 9], 0, 0),
    ([0x0D00, 0, 5, 9], 0, 4 * 3 + 2),
    ([0x0E41, 0x0007, 0, 0], 0, 2 * 8 + 4),
    ([0x0E0A, 0, 0, 0], 0, 0),
    ([0x1301, 0x0007, 4, 0x0500], 4, 4 * (2 * 8 + 4)),
    ([0x0010, 0, 0, 0], 0, REGISTERS + GRAPHICS_MEMORY),
    ([0x0601, 0, 0, 0x184F], 0, 56_008),
    ([0x0012, 0, 0, 0], 0, REGISTERS + GRAPHICS_MEMORY),
    ([0x0601, 0, 0, 0x1D4F], 0, 76_808),
];

/// 256 colours: mode 13.
const PACKED_CALLS: [CountedCall; 9] = [
    ([0x0013, 0, 0, 0], 0, REGISTERS + GRAPHICS_MEMORY),
    ([0x0601, 0, 0, 0x1827], 0, 125_440),
    // A window of five rows and ten columns goes down by two: three rows are copied, two become
    // blank.
    ([0x0702, 0, 0x020A, 0x0613], 0, 128 * 10 * 3 + 64 * 10 * 2),
    ([0x0800, 0, 0, 0], 0, 64),
    ([0x0941, 0x0087, 2, 0], 0, 2 * 64),
    ([0x0C87, 0, 5, 9], 0, 1),
    ([0x0D00, 0, 5, 9], 0, 1),
    ([0x0200, 0, 0, 0x1800], 0, 0),
    ([0x0E0A, 0, 0, 0], 0, 125_440),
];

/// The bytes of blocks.
const BLOCK: [u8; 17] = [0x41; 17];

/// How many cycles a call makes on an adapter.
fn cycle_count_of_call(
    alloc: Global,
    card: &mut CountedCard,
    bda: &mut Bda,
    fonts: &Fonts,
    words: [u16; 4],
    len: usize,
) -> u32 {
    let [ax, bx, cx, dx] = words;
    let regs = Regs { ax, bx, cx, dx };
    let (block, _) = BLOCK.split_at(len.min(BLOCK.len()));
    if bda.valid() {
        let _ = int10(alloc, card, bda, fonts, regs, block);
    }
    card.take_cycle_count()
}

/// Checks that calls, made one after another on an adapter, have these numbers of cycles.
fn check_calls(
    alloc: Global,
    fonts: &Fonts,
    what: &'static str,
    calls: &[CountedCall],
    checks: &mut Checks,
) -> Result<(), Fault> {
    let mut card = CountedCard::new(Card::new(alloc)?);
    let mut bda = Bda::new();
    for (words, len, wanted) in calls {
        let cycles = cycle_count_of_call(alloc, &mut card, &mut bda, fonts, *words, *len);
        checks.note(what, cycles == *wanted);
    }
    Ok(())
}

/// Checks the calls of text, and of the palette and the DAC.
fn check_text_and_colours(alloc: Global, fonts: &Fonts, checks: &mut Checks) -> Result<(), Fault> {
    check_calls(alloc, fonts, "cycles in text", &TEXT_CALLS, checks)?;
    check_calls(alloc, fonts, "cycles of colours", &COLOUR_CALLS, checks)
}

/// Checks the calls of 16 and of 256 colours.
fn check_graphics(alloc: Global, fonts: &Fonts, checks: &mut Checks) -> Result<(), Fault> {
    check_calls(alloc, fonts, "cycles in 16 colours", &PLANAR_CALLS, checks)?;
    check_calls(alloc, fonts, "cycles in 256 colours", &PACKED_CALLS, checks)
}

/// Checks that BIOS calls have as many cycles as their page says.
pub fn check_cycle_counts(alloc: Global) -> Result<Checks> {
    let mut checks = Checks::new();
    let fonts = blank_fonts(alloc)?;
    check_text_and_colours(alloc, &fonts, &mut checks)?;
    check_graphics(alloc, &fonts, &mut checks)?;
    Ok(checks)
}
