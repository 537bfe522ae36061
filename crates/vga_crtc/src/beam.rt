//! The beam, and how it moves.
ghost use Rattle.std.specs.Prelude.{◌≡◌, ◌≤◌, ◌⊎◌, ◌↔◌, IsTrue};
ghost use Rattle.vga_crtc.specs.Raster.{IsWithinItsLine, beam_after_dots_of_line};

mod clock;
mod saved;

use crate::registers::Registers;

/// Where the beam is, and what it counts.
#[derive(Clone, Copy, Debug, PartialEq, Eq)]
pub struct Beam {
    /// The number of the frame, 0 to 31.
    pub frame: u8,
    /// The line of the frame, 0 to 1024.
    pub line: u16,
    /// The character of the line, 0 to 259.
    pub character: u16,
    /// The dot of the character, 0 to 8.
    pub dot: u8,
    /// The counter of the first character of this line.
    pub base: u16,
    /// The scan line of the row of characters, 0 to 31.
    pub scan: u8,
    /// Under double scan, whether this line is the second of its scan line.
    pub half: bool,
    /// Whether line compare was reached in this frame.
    pub split: bool,
}

impl Beam {
    ghost use Rattle.vga_crtc.specs.Crtc.{first_dot_of_frame};
    ghost use Rattle.vga_crtc.specs.Beam.{IsBeam, is_first_dot_of_frame, with_frame_start_taken, counters_after_line};
    ghost use Rattle.vga_crtc.specs.Beam.{next_line, dot};

    /// The beam at the first dot of a frame, before the start of the frame is taken.
    pub(crate) fn first_dot_of_frame(frame: u8) -> Beam
        ensures { result ≡ first_dot_of_frame frame }
    {
        Beam {
            frame,
            line: 0,
            character: 0,
            dot: 0,
            base: 0,
            scan: 0,
            half: false,
            split: false,
        }
    }

    /// Whether all that the beam counts is within its bounds, as it is for the beam of every CRT
    /// controller.
    pub fn is_in_bounds(&self) -> bool
        ensures { IsTrue result ↔ IsBeam self.now }
    {
        self.frame < 32
            && self.line <= 1024
            && self.character <= 259
            && self.dot < 9
            && self.scan < 32
    }

    /// Whether the beam is at the first dot of a frame.
    pub fn is_first_dot_of_frame(self) -> bool
        ensures { result ≡ is_first_dot_of_frame self }
    {
        self.character == 0 && self.dot == 0 && self.line == 0
    }

    /// Takes the start address and the first scan line, if a frame begins here.
    pub(crate) fn take_start(&mut self, registers: &Registers)
        requires { IsBeam self.old }
        ensures value { self.new ≡ with_frame_start_taken registers.now self.old }
        ensures place { IsBeam self.new }
    {
        if self.is_first_dot_of_frame() {
            self.base = registers.first_counter();
            self.scan = registers.preset_row_scan();
            self.half = false;
            self.split = false;
        }
    }

    /// Moves the counters on from a line that ends: to the next scan line, to the next row of
    /// characters, or to 0 at line compare. Under double scan every other line leaves them.
    fn move_counters_past_ended_line(&mut self, registers: &Registers)
        requires { IsBeam self.old }
        ensures value { self.new ≡ counters_after_line registers.now self.old }
        ensures place { IsBeam self.new }
    {
        if self.line == registers.line_compare() {
            self.base = 0;
            self.scan = 0;
            self.half = false;
            self.split = true;
        } else if registers.is_double_scan() && !self.half {
            self.half = true;
        } else if self.scan < registers.maximum_scan_line() {
            self.half = false;
            self.scan += 1;
        } else {
            self.half = false;
            self.scan = 0;
            self.base = self.base.wrapping_add(2 * registers.offset() as u16);
        }
    }

    /// Moves to the first dot of the next line.
    // A line whose dots are not displayed takes little more time than this, so a call would cost.
    #[inline(always)]
    fn end_line(&mut self, registers: &Registers)
        requires { IsBeam self.old }
        ensures value { self.new ≡ next_line registers.now self.old }
        ensures place { IsBeam self.new }
    {
        if self.line + 1 < registers.lines() {
            self.character = 0;
            self.dot = 0;
            self.move_counters_past_ended_line(registers);
            self.line += 1;
        } else {
            *self = Beam::first_dot_of_frame((self.frame + 1) % 32);
        }
    }

    /// Moves by one dot, of a character `cw` dots wide.
    pub(crate) fn step_dot(&mut self, registers: &Registers, cw: u8)
        requires width { (cw ≡ 8) ⊎ (cw ≡ 9) }
        requires place { IsBeam self.old }
        ensures value { self.new ≡ dot cw registers.now self.old }
        ensures place { IsBeam self.new }
    {
        self.take_start(registers);
        if self.dot + 1 < cw {
            self.dot += 1;
        } else if self.character + 1 < registers.characters() {
            self.dot = 0;
            self.character += 1;
        } else {
            self.end_line(registers);
        }
    }

    /// Moves from any dot of a line to the first dot of the next.
    pub(crate) fn step_line(&mut self, registers: &Registers)
        requires { IsBeam self.old }
        ensures value { self.new ≡ next_line registers.now (with_frame_start_taken registers.now
            self.old) }
        ensures place { IsBeam self.new }
    {
        self.take_start(registers);
        self.end_line(registers);
    }

    /// Moves by `n` dots within the beam's line, or to the first dot of the next line. The beam is
    /// at a dot of its line.
    pub(crate) fn step_dots(&mut self, registers: &Registers, cw: u8, n: u32)
        requires width { (cw ≡ 8) ⊎ (cw ≡ 9) }
        requires place { IsBeam self.old }
        requires inside { IsWithinItsLine cw registers.now self.old }
        requires few { n ≤ 2340 }
        ensures value { self.new ≡ beam_after_dots_of_line cw registers.now n
            (with_frame_start_taken registers.now self.old) }
        ensures place { IsBeam self.new }
    {
        self.take_start(registers);
        let width = cw as u32;
        let at = self.character as u32 * width + self.dot as u32 + n;
        if at < registers.characters() as u32 * width {
            self.character = (at / width) as u16;
            self.dot = (at % width) as u8;
        } else {
            self.end_line(registers);
        }
    }
}
