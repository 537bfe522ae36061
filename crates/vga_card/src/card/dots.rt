//! Dots of the adapter's clock.
ghost use Rattle.std.specs.Prelude.{◌≡◌, ◌<◌, ◌≤◌, ◌↔◌, ◌⊎◌, ◌+◌, ◌-◌, ◌*◌, ◌++◌, min};
ghost use Rattle.std.specs.Prelude.{IsOk, OnOk, IfErr, IfSome};
ghost use Rattle.vga_host.specs.Sequencer.{character_width as host_width};
ghost use Rattle.vga_crtc.specs.Beam.{crtc_with_start_taken, after_dot};
ghost use Rattle.vga_crtc.specs.Fields.{horizontal_display_end};
ghost use Rattle.vga_crtc.specs.Raster.{IsLineStart, IsWithinItsLine, dot_number_in_line};
ghost use Rattle.vga_crtc.specs.Raster.{dots_to_line_end};
ghost use Rattle.vga_dots.specs.Line.{shown_characters as characters_shown};
ghost use Rattle.vga_card.specs.Dots.{character_width, dots_unless_frame_start, display_dot, dot};
ghost use Rattle.vga_card.specs.Dots.{dots};
ghost use Rattle.vga_card.specs.Dots.{most_dots_of_an_advance};
ghost use Rattle.vga_card.specs.Line.{displayed_line_dots, display_dots_among_next_dots};
ghost use Rattle.vga_card.specs.Line.{card_dots_to_line_end, display_with_start_taken};
ghost use Rattle.vga_card.specs.Repeat.{EndsWithLine};
ghost use Rattle.vga_card.specs.Valid.{count_unless_frame_start, IsLineDrawnToBeam};

use super::Card;
use super::repeats::add_row;
use crate::canvas::Canvas;
use vga_attr::Attr;
use vga_bits::Refusal;
use vga_crtc::laws::{
    beam_place_in_line, dot_leads_to_next_place, dots_move_beam_in_line, frame_ends_with_its_dots,
    line_ends_with_its_dots, line_leads_to_next_line, start_is_taken_once,
};
use vga_crtc::{Beam, Crtc};
use vga_dac::Dac;
use vga_dots::{Display, MOST_DOTS_OF_PART, dot_colour, shown_characters};
use vga_host::Host;

/// The most dots that one step may advance.
const MOST_DOTS: u32 = 16_777_216;

/// The most dots of a line.
const LONGEST_LINE: u32 = 2340;

/// Removes the dots of the frame before, where a frame begins.
fn clear_at_first_dot(beam: Beam, canvas: &mut Canvas)
    ensures dots { canvas.new.dots ≡ dots_unless_frame_start beam canvas.old.dots }
    ensures line { canvas.new.line ≡ count_unless_frame_start beam canvas.old.line }
    ensures width { canvas.new.width ≡ count_unless_frame_start beam canvas.old.width }
{
    if beam.is_first_dot_of_frame() {
        canvas.clear();
    }
}

/// Adds the dot at the beam, if it is a display dot, and moves the beam. Where a frame begins, its
/// start is taken first. A character is `width` dots wide, 8 or 9.
#[tactic(auto, unfolding(crate::specs::Dots::display_dot))]
fn draw_dot(host: &Host, crtc: &mut Crtc, attr: &Attr, dac: &Dac, canvas: &mut Canvas, width: u8)
    requires place { IsLineDrawnToBeam crtc.old.beam 0 canvas.old.line canvas.old.width }
    requires width { (width ≡ 8) ⊎ (width ≡ 9) }
    ensures crtc { crtc.new ≡ after_dot crtc.old width }
    ensures dots { canvas.new.dots ≡ canvas.old.dots
        ++ display_dot host.now (crtc_with_start_taken crtc.old) attr.now dac.now }
    ensures place { IsLineDrawnToBeam (crtc_with_start_taken crtc.old).beam 1 canvas.new.line canvas.new.width }
{
    start_is_taken_once();
    crtc.take_start();
    if crtc.is_display() {
        let colour = dot_colour(host, crtc, attr, dac);
        canvas.add(crtc.beam().line, colour);
    }
    crtc.step_dot(width);
}

/// Adds the display dots of the beam's line. The start of its frame is taken already.
pub(super) fn draw_row(display: &Display<'_>, canvas: &mut Canvas)
    requires place { IsLineDrawnToBeam display.now.crtc.beam 0 canvas.old.line canvas.old.width }
    requires start { IsLineStart display.now.crtc.beam }
    ensures dots { canvas.new.dots ≡ canvas.old.dots ++ displayed_line_dots display.now }
    ensures below { canvas.new.line ≤ display.now.crtc.beam.line }
{
    let crtc = display.crtc();
    if crtc.is_display() {
        let count = shown_characters(crtc.fields()) as usize;
        if display.host().is_eight_dots() {
            canvas.add_line_of_characters::<8>(display, count);
        } else {
            canvas.add_line_of_characters::<9>(display, count);
        }
    }
}

/// How many of the next `n` dots are displayed. The beam is at a displayed character.
fn displayed_dot_count(display: &Display<'_>, n: u32) -> usize
    requires inside { IsWithinItsLine (host_width display.now.host) display.now.crtc.registers
        display.now.crtc.beam }
    requires shown { display.now.crtc.beam.character
        ≤ horizontal_display_end display.now.crtc.registers }
    ensures few { characters_shown display.now.crtc.registers ≤ 256 }
    ensures value { result ≡ min n (characters_shown display.now.crtc.registers
        * host_width display.now.host
        - dot_number_in_line (host_width display.now.host) display.now.crtc.beam) }
{
    let width = display.host().character_width() as u32;
    let beam = display.beam();
    let at = beam.character as u32 * width + beam.dot as u32;
    let shown = shown_characters(display.crtc().fields()) as u32 * width;
    n.min(shown.saturating_sub(at)) as usize
}

/// Adds the display dots among the next `n` dots of the beam's line. The start of its frame is
/// taken already.
fn draw_dots(display: &Display<'_>, canvas: &mut Canvas, n: u32)
    requires place { IsLineDrawnToBeam display.now.crtc.beam 0 canvas.old.line canvas.old.width }
    requires inside { IsWithinItsLine (host_width display.now.host) display.now.crtc.registers
        display.now.crtc.beam }
    requires few { n ≤ dots_to_line_end (host_width display.now.host) display.now.crtc.registers
        display.now.crtc.beam }
    requires at_most { n ≤ 128 }
    ensures dots { canvas.new.dots ≡ canvas.old.dots ++ display_dots_among_next_dots n display.now }
    ensures place { IsLineDrawnToBeam display.now.crtc.beam n canvas.new.line canvas.new.width }
{
    dots_move_beam_in_line();
    let crtc = display.crtc();
    if crtc.is_display() {
        let count = displayed_dot_count(display, n);
        if display.host().is_eight_dots() {
            canvas.add_next_dots_of_line::<8>(display, count);
        } else {
            canvas.add_next_dots_of_line::<9>(display, count);
        }
    }
}

impl Card {
    /// Takes the dots of a whole line, and returns the beam that the line was drawn with. The beam
    /// is at the line's first dot. If the dots drawn last are those of a whole line, `before` may
    /// be the beam of that line.
    fn take_line(&mut self, before: Option<Beam>) -> Beam
        requires start { IsLineStart self.old.crtc.beam }
        requires before { IfSome before (EndsWithLine (display_with_start_taken self.old) self.old.drawn) }
        ensures by_dots { self.new ≡ dots (card_dots_to_line_end self.old) self.old }
        ensures ends { EndsWithLine (display_with_start_taken self.new) self.new.drawn result }
    {
        start_is_taken_once();
        beam_place_in_line();
        line_leads_to_next_line();
        frame_ends_with_its_dots();
        let width = self.host.character_width();
        clear_at_first_dot(self.crtc.beam(), &mut self.canvas);
        self.crtc.take_start();
        let display = Display::new(&self.host, &self.crtc, &self.attr, &self.dac);
        add_row(&display, &mut self.canvas, before);
        let beam = display.beam();
        self.crtc.step_line(width);
        beam
    }

    /// Takes the next `n` dots of the beam's line, which has at least `n` dots left.
    fn take_and_draw_next_dots_of_line(&mut self, n: u32)
        requires some { 0 < n }
        requires inside { IsWithinItsLine (character_width self.old) self.old.crtc.registers
            self.old.crtc.beam }
        requires few { n ≤ card_dots_to_line_end self.old }
        requires at_most { n ≤ 128 }
        ensures { self.new ≡ dots n self.old }
    {
        start_is_taken_once();
        dots_move_beam_in_line();
        line_ends_with_its_dots();
        line_leads_to_next_line();
        frame_ends_with_its_dots();
        let width = self.host.character_width();
        clear_at_first_dot(self.crtc.beam(), &mut self.canvas);
        self.crtc.take_start();
        let display = Display::new(&self.host, &self.crtc, &self.attr, &self.dac);
        draw_dots(&display, &mut self.canvas, n);
        self.crtc.step_dots(width, n);
    }

    /// Takes one dot: draws it if it is a display dot, and moves the beam.
    fn take_dot(&mut self)
        ensures { self.new ≡ dot self.old }
    {
        start_is_taken_once();
        dot_leads_to_next_place();
        let width = self.host.character_width();
        clear_at_first_dot(self.crtc.beam(), &mut self.canvas);
        draw_dot(
            &self.host,
            &mut self.crtc,
            &self.attr,
            &self.dac,
            &mut self.canvas,
            width,
        );
    }

    /// Takes `n` dots and draws them, by whole lines and parts of lines where it can. A line may be
    /// a copy of the whole line taken just before it.
    fn take_and_draw_dots(&mut self, n: u32)
        ensures { self.new ≡ dots n self.old }
    {
        let width = self.host.character_width();
        let mut left = n;
        let mut before = None;
        while left > 0 {
            let beam = self.crtc.beam();
            if beam.character == 0 && beam.dot == 0 && self.crtc.dots_to_line_end(width) <= left {
                left -= self.crtc.dots_to_line_end(width);
                before = Some(self.take_line(before));
            } else if 1 < left && self.crtc.is_in_line(width) {
                let part = left
                    .min(self.crtc.dots_to_line_end(width))
                    .min(MOST_DOTS_OF_PART as u32);
                self.take_and_draw_next_dots_of_line(part);
                left -= part;
                before = None;
            } else {
                self.take_dot();
                left -= 1;
                before = None;
            }
        }
    }

    /// Takes `n` dots. It draws none of a frame that ends before the last of them, because no dot
    /// of that frame can be seen any more.
    pub(super) fn take_dots(&mut self, n: u32)
        ensures { self.new ≡ dots n self.old }
    {
        // So few dots end no frame, or one of so few lines that it may be drawn.
        let left = if n > LONGEST_LINE {
            self.skip_frames_among_next_dots(n)
        } else {
            n
        };
        self.take_and_draw_dots(left);
    }

    /// Lets the clock run for `n` dots, at most 16,777,216. The display dots among them join the
    /// picture of their frame. Registers and memory stay the same. A larger `n` is refused with
    /// `TooFar`, and then nothing changes.
    pub fn advance(&mut self, n: u32) -> Result<(), Refusal>
        ensures few { IsOk result ↔ (n ≤ most_dots_of_an_advance) }
        ensures ok { OnOk result (self.new ≡ dots n self.old) }
        ensures err { IfErr result (λ e. (e ≡ Refusal.TooFar) × (self.new ≡ self.old)) }
    {
        if n > MOST_DOTS {
            return Err(Refusal::TooFar);
        }
        self.take_dots(n);
        Ok(())
    }
}
