//! Pseudo-random calls of the video BIOS. Their arguments mostly suit the mode, often at its
//! limits. Some calls are refused.
ghost use Rattle.std.specs.Prelude.{◌≡◌, ◌<◌};

use crate::plain_modes::{HEIGHTS, MODES, PlainMode};
use crate::plain_refusals::high;
use crate::random_numbers::{is_one_in, next_below, next_byte};
use bios_services::Regs;
use rand_core::Rng;
use rand_pcg::Pcg32;
use std::alloc::{AllocError, Global};

/// The registers of a call, and its block.
#[derive(Drop)]
pub struct RandomCall {
    pub regs: Regs,
    pub block: Vec<u8>,
}

/// Functions, each as many times as it should occur in 57 calls.
const FUNCTIONS: [u8; 57] = [
    0x00, 0x01, 0x02, 0x02, 0x02, 0x02, 0x03, 0x05, 0x05, 0x06, 0x06, 0x07, 0x07, 0x08, 0x08, 0x08,
    0x08, 0x09, 0x09, 0x09, 0x0A, 0x0A, 0x0A, 0x0C, 0x0C, 0x0C, 0x0D, 0x0D, 0x0E, 0x0E, 0x0E, 0x0E,
    0x0F, 0x10, 0x10, 0x10, 0x10, 0x10, 0x10, 0x10, 0x10, 0x10, 0x10, 0x10, 0x10, 0x10, 0x10, 0x11,
    0x11, 0x11, 0x12, 0x13, 0x13, 0x13, 0x13, 0x13, 0x1A,
];

/// The subfunctions of 10.
const COLOUR_PARTS: [u8; 13] = [
    0x00, 0x01, 0x02, 0x03, 0x07, 0x08, 0x09, 0x10, 0x12, 0x15, 0x17, 0x18, 0x19,
];

/// The subfunctions of 11. The glyphs of a block come more often than each font.
const GLYPH_PARTS: [u8; 5] = [0x10, 0x10, 0x11, 0x12, 0x14];

/// The control characters, which are obeyed when they are typed.
const CONTROLS: [u8; 4] = [0x07, 0x08, 0x0A, 0x0D];

fn word(high: u8, low: u8) -> u16 {
    256 * high as u16 + low as u16
}

/// One of these bytes.
fn one_of(random: &mut Pcg32, bytes: &[u8]) -> u8 {
    let n = next_byte(random) as usize;
    match bytes.len() {
        0 => 0,
        len => bytes.get(n % len).copied().unwrap_or(0),
    }
}

/// A number up to `last`: often `last`, seldom one past it.
fn up_to(random: &mut Pcg32, last: u8) -> u8 {
    match next_below(random, 8) {
        0 => next_byte(random),
        1 => last.saturating_add(1),
        2 | 3 => last,
        _ => next_below(random, last as u32 + 1).min(0xFF) as u8,
    }
}

/// A byte that is mostly this one.
fn mostly(random: &mut Pcg32, byte: u8) -> u8 {
    if is_one_in(random, 4) {
        next_byte(random)
    } else {
        byte
    }
}

/// A character: often a control character.
fn next_character(random: &mut Pcg32) -> u8 {
    if is_one_in(random, 4) {
        one_of(random, &CONTROLS)
    } else {
        next_byte(random)
    }
}

/// A page: mostly the active one.
fn next_page(random: &mut Pcg32, mode: PlainMode, active: u8) -> u8 {
    if is_one_in(random, 2) {
        active
    } else {
        up_to(random, mode.pages.saturating_sub(1))
    }
}

/// A row and a column: mostly within the page.
fn next_place(random: &mut Pcg32, mode: PlainMode) -> u16 {
    let row = up_to(random, mode.rows.saturating_sub(1));
    let column = up_to(random, mode.columns.saturating_sub(1));
    if is_one_in(random, 2) {
        word(row, column)
    } else {
        let last_row = mode.rows.saturating_sub(1);
        let last_column = mode.columns.saturating_sub(1);
        word(row.min(last_row), column.min(last_column))
    }
}

/// How many cells are written: mostly few, sometimes up to a little more than a page has.
fn next_count(random: &mut Pcg32, mode: PlainMode) -> u16 {
    let cells = mode.columns as u32 * mode.rows as u32;
    match next_below(random, 8) {
        0 => next_below(random, cells + 400).min(0xFFFF) as u16,
        1 => (random.next_u32() >> 16) as u16,
        _ => next_below(random, 24) as u16,
    }
}

/// A column or a line of pixels below `end`: often the last, or the first that does not exist.
fn next_coordinate(random: &mut Pcg32, end: u16) -> u16 {
    match next_below(random, 10) {
        0 => end,
        1 => (random.next_u32() >> 16) as u16,
        2 => end.saturating_sub(1),
        _ => (next_below(random, end as u32 + 1) as u16).min(end.saturating_sub(1)),
    }
}

/// Bytes with a few control characters.
fn next_block(alloc: Global, random: &mut Pcg32, len: usize) -> Result<Vec<u8>, AllocError> {
    let mut block = Vec::new(alloc);
    for _ in 0..len {
        let byte = if is_one_in(random, 3) {
            one_of(random, &CONTROLS)
        } else {
            next_byte(random)
        };
        block.push(byte)?;
    }
    Ok(block)
}

/// The length of a block: mostly the one that is needed, sometimes one less or one more.
fn next_length(random: &mut Pcg32, wanted: usize) -> usize
    requires { wanted < 262144 }
{
    match next_below(random, 6) {
        0 => wanted.saturating_sub(1),
        1 => wanted + 1,
        _ => wanted,
    }
}

/// The registers of a call for cells, with this AH.
fn cell_call(random: &mut Pcg32, mode: PlainMode, active: u8, ah: u8) -> Regs {
    let page = next_page(random, mode, active);
    let colour = next_byte(random);
    Regs {
        ax: word(ah, next_character(random)),
        bx: word(page, colour),
        cx: next_count(random, mode),
        dx: next_place(random, mode),
    }
}

/// The registers of a call for windows, with this AH.
fn window_call(random: &mut Pcg32, mode: PlainMode, ah: u8) -> Regs {
    let by = match next_below(random, 4) {
        0 => 0,
        1 => next_byte(random),
        _ => next_below(random, 12) as u8,
    };
    let whole = word(mode.rows.saturating_sub(1), mode.columns.saturating_sub(1));
    let is_whole = is_one_in(random, 6);
    Regs {
        ax: word(ah, by),
        bx: word(next_byte(random), 0),
        cx: if is_whole {
            0
        } else {
            next_place(random, mode)
        },
        dx: if is_whole {
            whole
        } else {
            next_place(random, mode)
        },
    }
}

/// The registers of a call for pixels, with this AH.
fn pixel_call(random: &mut Pcg32, mode: PlainMode, active: u8, ah: u8) -> Regs {
    let width = 8 * mode.columns as u16;
    let height = mode.rows as u16 * mode.height as u16;
    Regs {
        ax: word(ah, next_byte(random)),
        bx: word(next_page(random, mode, active), 0),
        cx: next_coordinate(random, width),
        dx: next_coordinate(random, height),
    }
}

/// A call for a string: mostly short, and mostly of the length that it must have.
fn string_call(
    alloc: Global,
    random: &mut Pcg32,
    mode: PlainMode,
    active: u8,
) -> Result<RandomCall, AllocError> {
    let count = next_below(random, 32) as u16;
    let kind = next_below(random, 4) as u8;
    let part = mostly(random, kind);
    let each = if part & 2 == 2 { 2 } else { 1 };
    let len = next_length(random, each * count as usize);
    let page = next_page(random, mode, active);
    Ok(RandomCall {
        regs: Regs {
            ax: word(0x13, part),
            bx: word(page, next_byte(random)),
            cx: count,
            dx: next_place(random, mode),
        },
        block: next_block(alloc, random, len)?,
    })
}

/// An entry of the DAC: seldom one that does not exist.
fn random_dac_entry_number(random: &mut Pcg32) -> u16 {
    match next_below(random, 8) {
        0 => 0x100,
        1 => (random.next_u32() >> 16) as u16,
        2 => 0xFF,
        _ => next_byte(random) as u16,
    }
}

/// A call for colours.
fn colour_call(alloc: Global, random: &mut Pcg32) -> Result<RandomCall, AllocError> {
    let part = one_of(random, &COLOUR_PARTS);
    let part = if is_one_in(random, 20) {
        next_byte(random)
    } else {
        part
    };
    let count = if is_one_in(random, 8) {
        0x100
    } else {
        next_below(random, 6) as u16
    };
    let entry = random_dac_entry_number(random);
    let bx = match part {
        0x00 | 0x07 => word(next_byte(random), up_to(random, 0x0F)),
        0x03 => word(next_byte(random), up_to(random, 1)),
        0x10 | 0x12 | 0x15 | 0x17 => entry,
        _ => (random.next_u32() >> 16) as u16,
    };
    let cx = match part {
        0x12 | 0x17 => count,
        _ => (random.next_u32() >> 16) as u16,
    };
    let len = match part {
        0x02 => next_length(random, 17),
        0x12 => next_length(random, 3 * count as usize),
        _ => 0,
    };
    Ok(RandomCall {
        regs: Regs {
            ax: word(0x10, part),
            bx,
            cx,
            dx: (random.next_u32() >> 16) as u16,
        },
        block: next_block(alloc, random, len)?,
    })
}

/// How many glyphs are loaded: mostly few.
fn next_glyph_count(random: &mut Pcg32) -> u16 {
    match next_below(random, 16) {
        0 | 1 => 0,
        2 => 0x100,
        3 => (random.next_u32() >> 16) as u16,
        _ => next_below(random, 24) as u16,
    }
}

/// The first character of `count` glyphs: often one with which the last character is FF or just
/// past it, or with which a sum of 16 bits would be 0.
fn next_first_character(random: &mut Pcg32, count: u16) -> u16 {
    let past = 0x100u16.saturating_sub(count);
    match next_below(random, 10) {
        0 => past + 1,
        1 => (random.next_u32() >> 16) as u16,
        2 => 0u16.wrapping_sub(count),
        3 | 4 => past,
        _ => next_below(random, past as u32 + 1).min(0xFFFF) as u16,
    }
}

/// A call that loads glyphs of a block, for characters of a height that mostly exists.
fn block_glyph_call(alloc: Global, random: &mut Pcg32, map: u8) -> Result<RandomCall, AllocError> {
    let listed = one_of(random, &HEIGHTS);
    let height = if is_one_in(random, 6) {
        next_byte(random)
    } else {
        listed
    };
    let count = next_glyph_count(random);
    let wanted = height as usize * count.min(0x100) as usize;
    let len = next_length(random, wanted);
    Ok(RandomCall {
        regs: Regs {
            ax: word(0x11, 0x10),
            bx: word(height, map),
            cx: count,
            dx: next_first_character(random, count),
        },
        block: next_block(alloc, random, len)?,
    })
}

/// A call that loads glyphs, mostly into a map that exists. For glyphs of a font it may have a
/// block, which is ignored.
fn glyph_call(alloc: Global, random: &mut Pcg32) -> Result<RandomCall, AllocError> {
    let map = if is_one_in(random, 5) {
        next_byte(random)
    } else {
        0
    };
    let listed = one_of(random, &GLYPH_PARTS);
    let part = if is_one_in(random, 16) {
        next_byte(random)
    } else {
        listed
    };
    if part == 0x10 {
        return block_glyph_call(alloc, random, map);
    }
    let len = next_below(random, 3) as usize;
    Ok(RandomCall {
        regs: Regs {
            ax: word(0x11, part),
            bx: word(next_byte(random), map),
            cx: (random.next_u32() >> 16) as u16,
            dx: (random.next_u32() >> 16) as u16,
        },
        block: next_block(alloc, random, len)?,
    })
}

/// A mode set that clears the memory: half of the time of one of the six modes, otherwise of a
/// number that mostly is no mode.
fn mode_call(random: &mut Pcg32) -> Regs {
    let number = match MODES.get(next_below(random, 12) as usize) {
        Some(mode) => mode.number,
        None => (next_byte(random) & 0x0B) | 0x04,
    };
    Regs {
        ax: word(0, number),
        bx: 0,
        cx: 0,
        dx: 0,
    }
}

/// The registers of a call without a block, with this AH.
fn call_without_block(random: &mut Pcg32, mode: PlainMode, active: u8, ah: u8) -> Regs {
    let any = (random.next_u32() >> 16) as u16;
    match ah {
        0x00 => mode_call(random),
        0x01 => Regs {
            ax: word(ah, 0),
            bx: 0,
            cx: if is_one_in(random, 4) {
                any
            } else {
                any & 0x0F1F
            },
            dx: 0,
        },
        0x05 => Regs {
            ax: word(ah, up_to(random, mode.pages.saturating_sub(1))),
            bx: any,
            cx: 0,
            dx: 0,
        },
        0x06 | 0x07 => window_call(random, mode, ah),
        0x0C | 0x0D => pixel_call(random, mode, active, ah),
        0x12 => Regs {
            ax: word(ah, 0),
            bx: word(high(any), mostly(random, 0x10)),
            cx: any,
            dx: any,
        },
        0x1A => Regs {
            ax: word(ah, mostly(random, 0)),
            bx: any,
            cx: any,
            dx: any,
        },
        _ => cell_call(random, mode, active, ah),
    }
}

/// The next call on a screen of this mode, in text with this height of its characters, and with
/// this active page.
pub fn next_call(
    alloc: Global,
    random: &mut Pcg32,
    mode: PlainMode,
    active: u8,
) -> Result<RandomCall, AllocError> {
    let listed = one_of(random, &FUNCTIONS);
    let ah = if is_one_in(random, 40) {
        next_byte(random).max(1)
    } else {
        listed
    };
    match ah {
        0x10 => colour_call(alloc, random),
        0x11 => glyph_call(alloc, random),
        0x13 => string_call(alloc, random, mode, active),
        _ => Ok(RandomCall {
            regs: call_without_block(random, mode, active, ah),
            block: Vec::new(alloc),
        }),
    }
}
