//! Rows that are copied from the line before. This file serves speed alone: `draw_row` can draw
//! them all. In graphics, the lines of one row of characters have the same dots, and so do the two
//! lines of a doubled line, because the profile leaves out the row scan as a bit of the address.
ghost use Rattle.std.specs.Prelude.{◌≡◌, ◌<◌, ◌≤◌, ◌++◌, true, IfSome};
ghost use Rattle.vga_crtc.specs.Raster.{IsLineStart};
ghost use Rattle.vga_card.specs.Line.{displayed_line_dots};
ghost use Rattle.vga_card.specs.Repeat.{EndsWithLine, ShowsLineAgain};
ghost use Rattle.vga_card.specs.Valid.{IsLineDrawnToBeam};

use super::dots::draw_row;
use crate::canvas::Canvas;
use vga_crtc::Beam;
use vga_dots::laws::graphics_lines_depend_on_counter;
use vga_dots::{Display, shown_characters};

/// Whether the beam's line, in graphics, shows the same as an earlier line of the frame. That line
/// was drawn with the beam `before`.
fn shows_line_again(display: &Display<'_>, before: Beam) -> bool
    ensures { result ≡ true → ShowsLineAgain display.now before }
{
    let beam = display.beam();
    display.host().is_graphics()
        && before.base == beam.base
        && before.split == beam.split
        && before.line < beam.line
}

/// Adds the display dots of the beam's line as a copy of the dots added last. Those are the dots of
/// a line that was drawn with the beam `before` and shows the same. The start of the frame is taken
/// already.
fn copy_row(display: &Display<'_>, canvas: &mut Canvas, before: Beam)
    requires place { IsLineDrawnToBeam display.now.crtc.beam 0 canvas.old.line canvas.old.width }
    requires start { IsLineStart display.now.crtc.beam }
    requires again { ShowsLineAgain display.now before }
    requires ends { EndsWithLine display.now canvas.old.dots before }
    ensures dots { canvas.new.dots ≡ canvas.old.dots ++ displayed_line_dots display.now }
    ensures below { canvas.new.line ≤ display.now.crtc.beam.line }
{
    graphics_lines_depend_on_counter();
    let crtc = display.crtc();
    if crtc.is_display() {
        let width = display.host().character_width() as usize;
        let count = shown_characters(crtc.fields()) as usize;
        canvas.repeat(display.beam().line, count * width);
    }
}

/// Adds the display dots of the beam's line. If the dots added last are those of a whole line,
/// `before` may be its beam. If that line shows the same, its dots are copied. The start of the
/// frame is taken already.
pub(super) fn add_row(display: &Display<'_>, canvas: &mut Canvas, before: Option<Beam>)
    requires place { IsLineDrawnToBeam display.now.crtc.beam 0 canvas.old.line canvas.old.width }
    requires start { IsLineStart display.now.crtc.beam }
    requires before { IfSome before (λ b. b.line < display.now.crtc.beam.line →
        EndsWithLine display.now canvas.old.dots b) }
    ensures dots { canvas.new.dots ≡ canvas.old.dots ++ displayed_line_dots display.now }
    ensures below { canvas.new.line ≤ display.now.crtc.beam.line }
{
    match before {
        Some(before) if shows_line_again(display, before) => copy_row(display, canvas, before),
        _ => draw_row(display, canvas),
    }
}
