//! The steps that lead the beam to its place and its counters by registers of their own, whatever
//! is drawn on the way.

use crate::controller::{VERTICAL_RETRACE_END, push_start_address};
use crate::ports::{CLOCKING_MODE, ENABLE_RAM, MISCELLANEOUS_OUTPUT, controller_port};
use crate::step_list::StepList;
use vga_bits::Fault;
use vga_card::Card;
use vga_crtc::Beam;
use vga_host::SEQUENCER_INDEX;

const HORIZONTAL_TOTAL: u8 = 0x00;

const VERTICAL_TOTAL: u8 = 0x06;

const OVERFLOW: u8 = 0x07;

const PRESET_ROW_SCAN: u8 = 0x08;

const MAXIMUM_SCAN_LINE: u8 = 0x09;

const OFFSET: u8 = 0x13;

const LINE_COMPARE: u8 = 0x18;

/// Overflow: bits 8 and 9 of the vertical total.
const MOST_LINES: u8 = 0x21;

/// Overflow: bit 8 of line compare.
const LINE_COMPARE_BIT_8: u8 = 0x10;

/// Maximum scan line: a row of characters has 32 scan lines.
const MOST_SCAN_LINES: u8 = 0x1F;

/// Maximum scan line: bit 9 of line compare.
const LINE_COMPARE_BIT_9: u8 = 0x40;

/// Maximum scan line: each scan line is shown twice.
const DOUBLE_SCAN: u8 = 0x80;

/// By how much the counter grows from row to row with the largest offset.
const LARGEST_STEP: u16 = 510;

/// How many dots a character has.
const CHARACTER_WIDTH: u32 = 9;

/// The script of a drive, the port of the CRT controller, and how many characters a line has.
#[derive(Drop)]
struct Drive<'a> {
    steps: &'a mut StepList,
    port: u16,
    characters: u16,
}

impl<'a> Drive<'a> {
    /// Appends the write of a register of the CRT controller.
    fn set(&mut self, register: u8, value: u8) -> Result<(), Fault> {
        self.steps.register(self.port, register, value)
    }

    /// Appends an advance by whole lines.
    fn lines(&mut self, count: u16) -> Result<(), Fault> {
        let dots = CHARACTER_WIDTH * self.characters as u32;
        self.steps.advance(dots.wrapping_mul(count as u32))
    }

    /// Appends the steps after which frames have the most lines, and lines so many characters.
    fn begin(&mut self, misc: u8) -> Result<(), Fault> {
        self.steps.out(MISCELLANEOUS_OUTPUT, misc | ENABLE_RAM)?;
        self.steps.register(SEQUENCER_INDEX, CLOCKING_MODE, 0)?;
        self.set(VERTICAL_RETRACE_END, 0)?;
        let total = self.characters.wrapping_sub(5) % 256;
        self.set(HORIZONTAL_TOTAL, total as u8)?;
        self.set(VERTICAL_TOTAL, 0xFF)
    }

    /// Appends the steps that count `lines` lines in one row of characters, so that the counters
    /// are the beam's. Line compare is not reached.
    fn count_in_one_row(&mut self, beam: Beam, lines: u16) -> Result<(), Fault> {
        let first_scan = (beam.scan as u16).wrapping_sub(lines) % 32;
        self.set(OVERFLOW, MOST_LINES | LINE_COMPARE_BIT_8)?;
        self.set(MAXIMUM_SCAN_LINE, MOST_SCAN_LINES | LINE_COMPARE_BIT_9)?;
        self.set(LINE_COMPARE, 0xFF)?;
        self.set(OFFSET, 0)?;
        self.set(PRESET_ROW_SCAN, first_scan as u8)?;
        push_start_address(self.steps, self.port, beam.base)?;
        self.lines(lines)
    }

    /// Appends the steps that reach line compare at the first line, and then count rows of one scan
    /// line up to the beam's counter, and scan lines up to the beam's. There are `lines` lines. A
    /// beam that steps led to has so many at least.
    fn count_from_split(&mut self, beam: Beam, lines: u16) -> Result<(), Fault> {
        let rows = beam.base / LARGEST_STEP;
        let rest = beam.base % LARGEST_STEP / 2;
        let scan = beam.scan as u16;
        self.set(OVERFLOW, MOST_LINES)?;
        self.set(MAXIMUM_SCAN_LINE, 0)?;
        self.set(LINE_COMPARE, 0)?;
        self.set(OFFSET, 0xFF)?;
        self.lines(rows + 1)?;
        if rest > 0 {
            self.set(OFFSET, rest as u8)?;
            self.lines(1)?;
        }
        self.set(OFFSET, 0)?;
        self.lines(lines.saturating_sub(rows + 1 + (rest > 0) as u16 + scan))?;
        self.set(MAXIMUM_SCAN_LINE, MOST_SCAN_LINES)?;
        self.lines(scan)
    }

    /// Appends the steps that lead from the first dot of a frame to the beam's line.
    fn reach_line(&mut self, beam: Beam) -> Result<(), Fault> {
        let lines = beam.line.saturating_sub(beam.half as u16);
        if beam.split {
            self.count_from_split(beam, lines)?;
        } else {
            self.count_in_one_row(beam, lines)?;
        }
        if !beam.half {
            return Ok(());
        }
        let compare = if beam.split { 0 } else { LINE_COMPARE_BIT_9 };
        self.set(MAXIMUM_SCAN_LINE, DOUBLE_SCAN | MOST_SCAN_LINES | compare)?;
        self.lines(1)
    }
}

/// Appends the steps that lead the beam from the first dot of a frame to its place and its
/// counters.
pub(crate) fn push_beam_drive(steps: &mut StepList, card: &Card) -> Result<(), Fault> {
    let regs = card.regs();
    let beam = regs.crtc.beam();
    let mut drive = Drive {
        port: controller_port(regs.misc),
        characters: beam.character.saturating_add(1).clamp(5, 260),
        steps,
    };
    drive.begin(regs.misc)?;
    drive.reach_line(beam)?;
    steps.advance(CHARACTER_WIDTH * beam.character as u32 + beam.dot as u32)
}
