//! Scan lines of the frame under way, drawn to their ends.
ghost use Rattle.std.specs.Prelude.{◌≡◌, ◌+◌, ◌*◌, ◌≤◌, ◌<◌, ℕ, length, slice_index, bit_or};
ghost use Rattle.vga_c.specs.Cards.{ClosedCardStaysUnchanged, ClosedCardLeavesOutput};
ghost use Rattle.vga_c.specs.Forms.{AreRowsInBuffer, rgb_word_of_dot as rgb_word_of_dot_of};
ghost use Rattle.vga_c.specs.ScanLines.{DrawsLine, DrawsLineOfOpenCard};

use crate::forms::{Form, write_row_of_words};
use crate::handle::{Handle, on_open_card};
use crate::status::{BAD_ARGUMENT, DONE, NO_ROOM};
use std::alloc::Global;
use vga_card::DrawnLines;
use vga_run::machine::Machine;

/// A scan line of a frame: its number, how many dots it has, and whether the frame ends with it.
#[repr(C)]
#[derive(Clone, Copy)]
pub struct ScanLine {
    pub number: u32,
    pub width: u32,
    pub ends_frame: bool,
}

/// Writes the words of `count` dots, from dot `first` on, to the beginning of the caller's words,
/// if there is room.
fn write_words(bytes: &[u8], first: usize, count: usize, above: u32, pixels: &mut [u32]) -> u32
    requires { 3 * (first + count) ≤ length bytes.now }
    ensures { AreRowsInBuffer count 1 count
        (λ x y. bit_or above (rgb_word_of_dot_of bytes.now (first + x))) pixels.old pixels.new
        result }
{
    if count > pixels.len() {
        return NO_ROOM;
    }
    let form = Form {
        across: 1,
        down: 1,
        above,
    };
    write_row_of_words(bytes, first, form, count, pixels, 0);
    DONE
}

/// Lets the clock of a machine run to the end of the line under way, and writes the words of its
/// dots. If an unknown flag is set, nothing changes.
fn draw_line(machine: &mut Machine, flags: u32, scan_line: &mut ScanLine, pixels: &mut [u32]) -> u32
    ensures { DrawsLine flags machine.old machine.new scan_line.old scan_line.new pixels.old
        pixels.new result }
{
    if flags >= 2 {
        return BAD_ARGUMENT;
    }
    let (number, ends_frame) = machine.card.end_line();
    let DrawnLines { widths, bytes } = machine.card.drawn_lines();
    let width = if number < 1024 {
        widths[number as usize]
    } else {
        0
    };
    *scan_line = ScanLine {
        number: number as u32,
        width,
        ends_frame,
    };
    let count = width as usize;
    let above = if flags == 1 { 0xFF00_0000 } else { 0 };
    write_words(bytes, bytes.len() / 3 - count, count, above, pixels)
}

/// Lets the clock run to the end of the line under way, and writes a word for each of its dots.
#[unsafe(no_mangle)]
pub extern "C" fn zak_line(
    alloc: Global,
    card: &mut Handle,
    flags: u32,
    scan_line: &mut ScanLine,
    pixels: &mut [u32],
) -> u32
    ensures line { DrawsLineOfOpenCard flags card.old card.new scan_line.old scan_line.new pixels.old
        pixels.new result }
    ensures closed { ClosedCardStaysUnchanged card.old card.new result }
    ensures spared { ClosedCardLeavesOutput card.old scan_line.old scan_line.new }
    ensures pixels { ClosedCardLeavesOutput card.old pixels.old pixels.new }
{
    on_open_card!(alloc, card, machine => draw_line(machine, flags, scan_line, pixels))
}
