//! How many dots lead to a line, a frame, or a change of a bit of input status 1. `registers` are
//! the CRT controller's, and a character is `cw` dots wide, 8 or 9.
ghost use Rattle.std.specs.Prelude.{◌≡◌, ◌+◌, if◌then◌else◌, ◌<◌, ◌≤◌, ◌⊎◌, IfSome, MatchOption, false};
ghost use Rattle.vga_crtc.specs.Beam.{IsBeam};
ghost use Rattle.vga_crtc.specs.Raster.{dots_to_line_end, dots_to_frame_end};
ghost use Rattle.vga_crtc.specs.Status.{is_display, is_retrace};
ghost use Rattle.vga_crtc.specs.Clock.{ChangesAfter, NeverChanges, dots_to_line};
ghost use Rattle.vga_crtc.specs.Clock.{dots_to_character};

use super::Beam;
use crate::registers::Registers;

impl Beam {
    /// Whether the beam is in the vertical retrace.
    pub(crate) fn is_retrace(self, registers: &Registers) -> bool
        ensures { result ≡ is_retrace registers.now self }
    {
        let start = registers.vertical_retrace_start();
        start <= self.line && self.line < start + registers.retrace_lines()
    }

    /// Whether the dot at the beam is a display dot.
    fn is_display(self, registers: &Registers) -> bool
        ensures { result ≡ is_display registers.now self }
    {
        self.character <= registers.horizontal_display_end() as u16
            && self.line <= registers.vertical_display_end()
    }

    /// Input status 1. Bit 0 is 0 at a display dot, else 1. Bit 3 is 1 in the vertical retrace. The
    /// other bits are 0.
    pub(crate) fn status(self, registers: &Registers) -> u8
        ensures { result ≡ (if is_display registers.now self then 0 else 1)
            + (if is_retrace registers.now self then 8 else 0) }
    {
        let display = if self.is_display(registers) {
            0x00
        } else {
            0x01
        };
        let retrace = if self.is_retrace(registers) {
            0x08
        } else {
            0x00
        };
        display + retrace
    }

    /// How many dots, at least one, lead to the next line.
    #[tactic(auto, unfolding(crate::specs::Raster::dots_to_line_end))]
    #[inline(always)]
    pub(crate) fn dots_to_line_end(self, registers: &Registers, cw: u8) -> u32
        requires width { (cw ≡ 8) ⊎ (cw ≡ 9) }
        requires place { IsBeam self }
        ensures value { result ≡ dots_to_line_end cw registers.now self }
        ensures at_most { result ≤ 2340 }
    {
        let after = registers.characters().saturating_sub(self.character + 1);
        after as u32 * cw as u32 + cw.saturating_sub(self.dot + 1) as u32 + 1
    }

    /// How many dots, at least one, lead to the next frame.
    #[tactic(auto, unfolding(crate::specs::Raster::dots_to_frame_end))]
    #[inline(always)]
    pub(crate) fn dots_to_frame_end(self, registers: &Registers, cw: u8) -> u32
        requires width { (cw ≡ 8) ⊎ (cw ≡ 9) }
        requires place { IsBeam self }
        ensures value { result ≡ dots_to_frame_end cw registers.now self }
        ensures at_most { result ≤ 2398500 }
    {
        let line = registers.characters() as u32 * cw as u32;
        let after = registers.lines().saturating_sub(self.line + 1);
        after as u32 * line + self.dots_to_line_end(registers, cw)
    }

    /// How many dots, at least one, lead to the first dot of line `line`: of this frame if the line
    /// is still to come, and else of the next frame.
    #[tactic(auto, unfolding(crate::specs::Clock::dots_to_line))]
    fn dots_to_line(self, registers: &Registers, cw: u8, line: u16) -> u32
        requires width { (cw ≡ 8) ⊎ (cw ≡ 9) }
        requires place { IsBeam self }
        requires line { line < 1026 }
        ensures value { result ≡ dots_to_line cw registers.now line self }
        ensures at_most { result ≤ 4800000 }
    {
        let width = registers.characters() as u32 * cw as u32;
        if self.line < line {
            (line - (self.line + 1)) as u32 * width + self.dots_to_line_end(registers, cw)
        } else {
            line as u32 * width + self.dots_to_frame_end(registers, cw)
        }
    }

    /// How many dots, at least one, lead to the first dot of character `character`, which is still
    /// to come in the line.
    #[tactic(auto, unfolding(crate::specs::Clock::dots_to_character))]
    fn dots_to_character(self, cw: u8, character: u16) -> u32
        requires width { (cw ≡ 8) ⊎ (cw ≡ 9) }
        requires place { IsBeam self }
        requires later { self.character < character }
        requires few { character < 260 }
        ensures value { result ≡ dots_to_character cw character self }
        ensures at_most { result ≤ 2340 }
    {
        let between = (character - (self.character + 1)) as u32;
        between * cw as u32 + cw.saturating_sub(self.dot + 1) as u32 + 1
    }

    /// The line at whose first dot the vertical retrace begins next, or ends if the beam is in it;
    /// `None` if the retrace is at no line of a frame, or at every line.
    fn next_retrace_change_line(self, registers: &Registers, cw: u8) -> Option<u16>
        requires { (cw ≡ 8) ⊎ (cw ≡ 9) }
        ensures few { IfSome result (λ v. v < 1026) }
        ensures change { MatchOption result
            (NeverChanges (is_retrace registers.now) cw registers.now self)
            (λ v. ChangesAfter (is_retrace registers.now) cw registers.now self
            (dots_to_line cw registers.now v self)) }
    {
        let start = registers.vertical_retrace_start();
        let end = start + registers.retrace_lines();
        let lines = registers.lines();
        if !self.is_retrace(registers) {
            return if start < lines { Some(start) } else { None };
        }
        if end < lines {
            Some(end)
        } else if start > 0 {
            Some(0)
        } else {
            None
        }
    }

    /// After how many dots, at least one, the vertical retrace begins next, or ends if the beam is
    /// in it; `None` if no dots lead there.
    pub(crate) fn dots_to_retrace_change(self, registers: &Registers, cw: u8) -> Option<u32>
        requires width { (cw ≡ 8) ⊎ (cw ≡ 9) }
        requires place { IsBeam self }
        ensures change { MatchOption result
            (NeverChanges (is_retrace registers.now) cw registers.now self)
            (ChangesAfter (is_retrace registers.now) cw registers.now self) }
        ensures at_most { IfSome result (λ n. n ≤ 4800000) }
    {
        match self.next_retrace_change_line(registers, cw) {
            Some(line) => Some(self.dots_to_line(registers, cw, line)),
            None => None,
        }
    }

    /// The line at whose first dot the display begins next; the beam is at no display dot.
    fn next_display_line(self, registers: &Registers, cw: u8) -> u16
        requires width { (cw ≡ 8) ⊎ (cw ≡ 9) }
        requires place { IsBeam self }
        requires hidden { is_display registers.now self ≡ false }
        ensures few { result < 1026 }
        ensures change { ChangesAfter (is_display registers.now) cw registers.now self
            (dots_to_line cw registers.now result self) }
    {
        let next = self.line + 1;
        if self.line < registers.vertical_display_end() && next < registers.lines() {
            next
        } else {
            0
        }
    }

    /// After how many dots, at least one, the display begins next, or ends if the beam is at a
    /// display dot; `None` if no dots lead there.
    pub(crate) fn dots_to_display_change(self, registers: &Registers, cw: u8) -> Option<u32>
        requires width { (cw ≡ 8) ⊎ (cw ≡ 9) }
        requires place { IsBeam self }
        ensures change { MatchOption result
            (NeverChanges (is_display registers.now) cw registers.now self)
            (ChangesAfter (is_display registers.now) cw registers.now self) }
        ensures at_most { IfSome result (λ n. n ≤ 4800000) }
    {
        if !self.is_display(registers) {
            let line = self.next_display_line(registers, cw);
            return Some(self.dots_to_line(registers, cw, line));
        }
        let character = registers.horizontal_display_end() as u16 + 1;
        let line = registers.vertical_display_end() + 1;
        if character < registers.characters() {
            Some(self.dots_to_character(cw, character))
        } else if line < registers.lines() {
            Some(self.dots_to_line(registers, cw, line))
        } else {
            None
        }
    }
}
