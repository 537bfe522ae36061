//! Dots, lines and frames.
ghost use Rattle.std.specs.Prelude.{ℕ, ◌≡◌, ◌<◌, ◌≤◌, ◌⊎◌, ◌↔◌, true};
ghost use Rattle.std.specs.Prelude.{IfSome, MatchOption};
ghost use Rattle.vga_crtc.specs.Clock.{ChangesAfter, NeverChanges};
ghost use Rattle.vga_crtc.specs.Status.{is_display, is_retrace};
ghost use Rattle.vga_crtc.specs.Beam.{crtc_with_start_taken, after_dot, after_dots};
ghost use Rattle.vga_crtc.specs.Raster.{dots_to_line_end, dots_to_frame_end, IsLineTaken, IsWithinItsLine};

use super::Crtc;
use crate::beam::Beam;

impl Crtc {
    /// Takes the start of a frame, if the beam is there: the start address with byte panning, and
    /// the first scan line. Elsewhere it does nothing. A dot leads to the same beam whether the
    /// start was taken before or not.
    #[tactic(auto, unfolding(crate::specs::Beam::crtc_with_start_taken))]
    pub fn take_start(&mut self)
        ensures started { self.new ≡ crtc_with_start_taken self.old }
        ensures again { (cw : ℕ) → after_dot self.new cw ≡ after_dot self.old cw }
    {
        self.beam.take_start(&self.registers);
    }

    /// Moves the beam by one dot; a character is `cw` dots wide, 8 or 9. Where a frame begins, its
    /// start is taken first.
    #[tactic(auto, unfolding(crate::specs::Beam::after_dot))]
    pub fn step_dot(&mut self, cw: u8)
        requires { (cw ≡ 8) ⊎ (cw ≡ 9) }
        ensures { self.new ≡ after_dot self.old cw }
    {
        self.beam.step_dot(&self.registers, cw);
    }

    /// How many dots, at least one, lead to the next line; a character is `cw` dots wide, 8 or 9.
    pub fn dots_to_line_end(&self, cw: u8) -> u32
        requires { (cw ≡ 8) ⊎ (cw ≡ 9) }
        ensures value { result ≡ dots_to_line_end cw self.now.registers self.now.beam }
        ensures at_most { result ≤ 2340 }
    {
        self.beam.dots_to_line_end(&self.registers, cw)
    }

    /// How many dots, at least one, lead to the next frame; a character is `cw` dots wide, 8 or 9.
    pub fn dots_to_frame_end(&self, cw: u8) -> u32
        requires { (cw ≡ 8) ⊎ (cw ≡ 9) }
        ensures value { result ≡ dots_to_frame_end cw self.now.registers self.now.beam }
        ensures at_most { result ≤ 2398500 }
    {
        self.beam.dots_to_frame_end(&self.registers, cw)
    }

    /// After how many dots, at least one, the vertical retrace begins next, or ends if the beam is
    /// in it; `None` if no dots lead there. No register is written meanwhile, and a character is
    /// `cw` dots wide, 8 or 9.
    pub fn dots_to_retrace_change(&self, cw: u8) -> Option<u32>
        requires { (cw ≡ 8) ⊎ (cw ≡ 9) }
        ensures change { MatchOption result
            (NeverChanges (is_retrace self.now.registers) cw self.now.registers self.now.beam)
            (ChangesAfter (is_retrace self.now.registers) cw self.now.registers self.now.beam) }
        ensures at_most { IfSome result (λ n. n ≤ 4800000) }
    {
        self.beam.dots_to_retrace_change(&self.registers, cw)
    }

    /// After how many dots, at least one, the display begins next, or ends if the beam is at a
    /// display dot; `None` if no dots lead there. No register is written meanwhile, and a character
    /// is `cw` dots wide, 8 or 9.
    pub fn dots_to_display_change(&self, cw: u8) -> Option<u32>
        requires { (cw ≡ 8) ⊎ (cw ≡ 9) }
        ensures change { MatchOption result
            (NeverChanges (is_display self.now.registers) cw self.now.registers self.now.beam)
            (ChangesAfter (is_display self.now.registers) cw self.now.registers self.now.beam) }
        ensures at_most { IfSome result (λ n. n ≤ 4800000) }
    {
        self.beam.dots_to_display_change(&self.registers, cw)
    }

    /// Moves the beam to the first dot of the next line, by at least one dot. It does so in one
    /// step. A character is `cw` dots wide, 8 or 9.
    pub fn step_line(&mut self, cw: u8)
        requires { (cw ≡ 8) ⊎ (cw ≡ 9) }
        ensures { IsLineTaken cw self.old self.new }
    {
        self.beam.step_line(&self.registers);
    }

    /// Moves the beam to where single dots, at least one, first lead to the first dot of a frame.
    /// It does so in one step, whatever the width of a character.
    pub fn step_frame(&mut self)
        ensures { (cw : ℕ) → 0 < cw → self.new
            ≡ after_dots self.old cw (dots_to_frame_end cw self.old.registers self.old.beam) }
    {
        self.beam = Beam::first_dot_of_frame((self.beam.frame + 1) % 32);
    }

    /// Whether the beam is at a dot that its line has. Lowering a register can leave the beam past
    /// those dots. A character is `cw` dots wide.
    pub fn is_in_line(&self, cw: u8) -> bool
        ensures { (result ≡ true) ↔ IsWithinItsLine cw self.now.registers self.now.beam }
    {
        self.beam.character < self.registers.characters() && self.beam.dot < cw
    }

    /// Moves the beam by `n` dots of its line, at least one and at most those that lead to the next
    /// line. It does so in one step. Where a frame begins, its start is taken first. A character is
    /// `cw` dots wide, 8 or 9.
    pub fn step_dots(&mut self, cw: u8, n: u32)
        requires width { (cw ≡ 8) ⊎ (cw ≡ 9) }
        requires inside { IsWithinItsLine cw self.old.registers self.old.beam }
        requires some { 0 < n }
        requires few { n ≤ dots_to_line_end cw self.old.registers self.old.beam }
        requires at_most { n ≤ 2340 }
        ensures { self.new ≡ after_dots self.old cw n }
    {
        self.beam.step_dots(&self.registers, cw, n);
    }

    /// The CRT controller as it is `n` dots later: at least one, and at most those that lead to the
    /// next line. A character is `cw` dots wide, 8 or 9.
    pub fn after_dots(&self, cw: u8, n: u32) -> Crtc
        requires width { (cw ≡ 8) ⊎ (cw ≡ 9) }
        requires inside { IsWithinItsLine cw self.now.registers self.now.beam }
        requires some { 0 < n }
        requires few { n ≤ dots_to_line_end cw self.now.registers self.now.beam }
        requires at_most { n ≤ 2340 }
        ensures { result ≡ after_dots self.now cw n }
    {
        let mut crtc = self.with_beam(self.beam);
        crtc.step_dots(cw, n);
        crtc
    }
}
