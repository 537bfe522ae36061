//! The dots drawn until now of the frame under way.
ghost use Rattle.std.specs.Prelude.{◌≡◌, ℕ, ◌+◌, ◌*◌, ◌<◌, ◌≤◌, [], ◌∷◌, ◌++◌, length};
ghost use Rattle.std.specs.Prelude.{slice_index, take, drop, replicate, vec_len, vec_capacity};
ghost use Rattle.std.specs.Prelude.{IfOk, IfSome, IsOkUnless};
ghost use Rattle.vga_host.specs.Sequencer.{character_width};
ghost use Rattle.vga_crtc.specs.Fields.{vertical_display_end};
ghost use Rattle.vga_crtc.specs.Raster.{dot_number_in_line};
ghost use Rattle.vga_dots.specs.Line.{shown_characters, IsLineDrawn, AreNextDotsDrawn};
ghost use Rattle.vga_card.specs.Picture.{Dot, most_dots_of_a_line, most_lines_of_a_frame};
ghost use Rattle.vga_card.specs.Picture.{bytes_of_dots, picture_shape, row_count, IsPictureOf};
ghost use Rattle.vga_card.specs.Frames.{IsPictureInBounds};
ghost use Rattle.vga_card.specs.Canvas.{IsShapeInBounds, blank_canvas, width_with_dot};
ghost use Rattle.vga_card.specs.Canvas.{width_with_dots};
ghost use Rattle.vga_card.specs.Line.{displayed_line_dots, display_dots_among_next_dots, IsLineAppended};
ghost use Rattle.vga_card.specs.Line.{AreNextDotsAppended};
ghost use Rattle.vga_card.specs.Lines.{line_widths, IsLinesOf};

mod repeated;
pub(crate) mod saved;

use crate::drawn::Drawn;
use crate::lines::DrawnLines;
use crate::shape::Shape;
use crate::widths::{MOST_LINES_WITH_DOTS, Widths};
use std::alloc::Global;
use std::marker::Model;
use vga_bits::Fault;
use vga_dots::{Display, draw_line, draw_next_dots_of_line};

/// How many dots a line can have: 256 characters of 9 dots.
const WIDEST: usize = 2_304;

/// The dots in order in one buffer, three bytes each, and the number of dots on each line. The
/// buffer keeps its memory when it is cleared.
///
/// Contracts see the list of the dots, the last line with one, and how many that line has.
#[derive(Drop)]
pub(crate) struct Canvas {
    buffer: Vec<u8>,
    /// How many bytes of the buffer the dots take. The bytes after them mean nothing, and are
    /// overwritten.
    used: usize,
    widths: Widths,
    line: u16,
}

impl Model for Canvas {
    ghost use Rattle.std.specs.Prelude.{◌≤◌, length, slice_index, take, vec_capacity};
    ghost use Rattle.vga_card.specs.Canvas.{CanvasState, IsCanvas, stored_dots};

    ghost Value = { CanvasState };

    ghost view = { λ c. record {
      dots = stored_dots c.widths (take c.used c.buffer.items);
      line = c.line;
      width = slice_index c.widths c.line;
    } };

    ghost invariant = { λ c. (c.used ≤ length c.buffer.items)
        × IsCanvas (vec_capacity c.buffer) (take c.used c.buffer.items) c.widths c.line };
}

/// An empty buffer with room for `bytes` bytes. It fails only with `OutOfMemory`.
fn room_for(alloc: Global, bytes: usize) -> Result<Vec<u8>, Fault>
    ensures items { IfOk result (λ v. v.items ≡ []) }
    ensures capacity { IfOk result (λ v. vec_capacity v ≡ bytes) }
    ensures err { IsOkUnless result Fault.OutOfMemory }
{
    match Vec::with_capacity(alloc, bytes) {
        Ok(buffer) => Ok(buffer),
        Err(_) => Err(Fault::OutOfMemory),
    }
}

/// Appends the three bytes of a dot, for which there is room.
fn push_colour(buffer: &mut Vec<u8>, colour: [u8; 3])
    requires { vec_len buffer.old + 3 ≤ vec_capacity buffer.old }
    ensures bytes { buffer.new.items ≡ buffer.old.items ++ colour }
    ensures capacity { vec_capacity buffer.new ≡ vec_capacity buffer.old }
{
    buffer.push_reserved(colour[0]);
    buffer.push_reserved(colour[1]);
    buffer.push_reserved(colour[2]);
}

/// Lengthens a buffer to at least `len` bytes. It has memory for them.
fn lengthen_buffer(buffer: &mut Vec<u8>, len: usize)
    requires { len ≤ vec_capacity buffer.old }
    ensures prefix { take (length buffer.old.items) buffer.new.items ≡ buffer.old.items }
    ensures len { len ≤ length buffer.new.items }
    ensures capacity { vec_capacity buffer.old ≤ vec_capacity buffer.new }
{
    if buffer.len() >= len {
        return;
    }
    if buffer.resize(len, 0).is_err() {
        unreachable!();
    }
}

/// Writes the displayed dots of the beam's line, three bytes each, over the bytes from `at` on.
fn draw_line_at<const CW: usize>(display: &Display<'_>, bytes: &mut [u8], at: usize)
    requires width { CW ≡ character_width display.now.host }
    requires room { at + 3 * (shown_characters display.now.crtc.registers * CW) ≤ length bytes.old }
    ensures prefix { take at bytes.new ≡ take at bytes.old }
    ensures drawn { IsLineDrawn CW (shown_characters display.now.crtc.registers) display.now
        (drop at bytes.old) (drop at bytes.new) }
{
    draw_line::<CW>(
        display.host(),
        display.crtc(),
        display.attr(),
        display.dac(),
        &mut bytes[at..],
    );
}

/// Puts the displayed dots of the beam's line, three bytes each, after the first `used` bytes of a
/// buffer. The buffer has memory for them. The dots are drawn in place: to draw a row elsewhere and
/// copy it would take twice as long.
fn append_line<const CW: usize>(
    display: &Display<'_>,
    buffer: &mut Vec<u8>,
    used: usize,
    len: usize,
)
    requires width { CW ≡ character_width display.now.host }
    requires len { len ≡ 3 * (shown_characters display.now.crtc.registers * CW) }
    requires used { used ≤ length buffer.old.items }
    requires room { used + len ≤ vec_capacity buffer.old }
    ensures line { IsLineAppended CW display.now (take used buffer.old.items)
        (take (used + len) buffer.new.items) }
    ensures len { used + len ≤ length buffer.new.items }
    ensures capacity { vec_capacity buffer.old ≤ vec_capacity buffer.new }
{
    lengthen_buffer(buffer, used + len);
    draw_line_at::<CW>(display, buffer.as_mut_slice(), used);
}

/// Writes the next `count` dots of the beam's line, three bytes each, from the beam's dot on, over
/// the bytes from `at` on.
fn draw_next_dots_at<const CW: usize>(
    display: &Display<'_>,
    count: usize,
    bytes: &mut [u8],
    at: usize,
)
    requires count { count ≤ 128 }
    requires width { CW ≡ character_width display.now.host }
    requires room { at + 3 * count ≤ length bytes.old }
    ensures prefix { take at bytes.new ≡ take at bytes.old }
    ensures drawn { AreNextDotsDrawn CW count display.now (drop at bytes.old) (drop at bytes.new) }
{
    draw_next_dots_of_line::<CW>(display, count, &mut bytes[at..]);
}

/// Puts the next `count` dots of the beam's line, from the beam's dot on, after the first `used`
/// bytes of a buffer. The buffer has memory for them.
fn append_next_dots<const CW: usize>(
    display: &Display<'_>,
    count: usize,
    buffer: &mut Vec<u8>,
    used: usize,
)
    requires count { count ≤ 128 }
    requires width { CW ≡ character_width display.now.host }
    requires used { used ≤ length buffer.old.items }
    requires room { used + 3 * count ≤ vec_capacity buffer.old }
    ensures part { AreNextDotsAppended CW count display.now (take used buffer.old.items)
        (take (used + 3 * count) buffer.new.items) }
    ensures len { used + 3 * count ≤ length buffer.new.items }
    ensures capacity { vec_capacity buffer.old ≤ vec_capacity buffer.new }
{
    lengthen_buffer(buffer, used + 3 * count);
    draw_next_dots_at::<CW>(display, count, buffer.as_mut_slice(), used);
}

impl Canvas {
    /// A canvas without dots, with room for the largest frame: no later call allocates memory. It
    /// fails only with `OutOfMemory`.
    pub(crate) fn new(alloc: Global) -> Result<Canvas, Fault>
        ensures ok { IfOk result (λ canvas. canvas ≡ blank_canvas) }
        ensures err { IsOkUnless result Fault.OutOfMemory }
    {
        let buffer = room_for(alloc, 3 * WIDEST * MOST_LINES_WITH_DOTS)?;
        let widths = Widths::new(alloc)?;
        Ok(Canvas {
            buffer,
            used: 0,
            widths,
            line: 0,
        })
    }

    /// Adds a dot, in red, green and blue, to the last line or to one after it. A line is below
    /// 1,024 and has at most 2,304 dots.
    pub(crate) fn add(&mut self, line: u16, colour: [u8; 3])
        requires lines { line < most_lines_of_a_frame }
        requires after { self.old.line ≤ line }
        requires room { line ≡ self.old.line → self.old.width < most_dots_of_a_line }
        ensures dots { self.new.dots ≡ self.old.dots
            ++ (record { line = line; colour = colour }) ∷ [] }
        ensures line { self.new.line ≡ line }
        ensures width { self.new.width ≡ width_with_dot self.old line }
    {
        self.buffer.truncate(self.used);
        push_colour(&mut self.buffer, colour);
        self.used += 3;
        self.widths.add(line as usize, 1);
        self.line = line;
    }

    /// Adds the displayed dots of the beam's line, `count` characters of `CW` dots each, to the
    /// last line or to one after it. A line is below 1,024 and has at most 2,304 dots.
    pub(crate) fn add_line_of_characters<const CW: usize>(
        &mut self,
        display: &Display<'_>,
        count: usize,
    )
        requires width { CW ≡ character_width display.now.host }
        requires count { count ≡ shown_characters display.now.crtc.registers }
        requires shown { display.now.crtc.beam.line
            ≤ vertical_display_end display.now.crtc.registers }
        requires lines { display.now.crtc.beam.line < most_lines_of_a_frame }
        requires after { self.old.line ≤ display.now.crtc.beam.line }
        requires few { count * CW ≤ most_dots_of_a_line }
        requires room { display.now.crtc.beam.line ≡ self.old.line →
            self.old.width + count * CW ≤ most_dots_of_a_line }
        ensures dots { self.new.dots ≡ self.old.dots ++ displayed_line_dots display.now }
        ensures line { self.new.line ≡ display.now.crtc.beam.line }
    {
        let line = display.beam().line;
        let dots = count * CW;
        append_line::<CW>(display, &mut self.buffer, self.used, 3 * dots);
        self.used += 3 * dots;
        self.widths.add(line as usize, dots as u32);
        self.line = line;
    }

    /// Adds the next `count` dots of the beam's line, at most 128, from the beam's dot on, to the
    /// last line or to one after it. All of them are displayed.
    pub(crate) fn add_next_dots_of_line<const CW: usize>(
        &mut self,
        display: &Display<'_>,
        count: usize,
    )
        requires width { CW ≡ character_width display.now.host }
        requires count { count ≤ 128 }
        requires shown { display.now.crtc.beam.line
            ≤ vertical_display_end display.now.crtc.registers }
        requires inside { dot_number_in_line CW display.now.crtc.beam + count
            ≤ shown_characters display.now.crtc.registers * CW }
        requires lines { display.now.crtc.beam.line < most_lines_of_a_frame }
        requires after { self.old.line ≤ display.now.crtc.beam.line }
        requires room { display.now.crtc.beam.line ≡ self.old.line →
            self.old.width + count ≤ most_dots_of_a_line }
        ensures dots { self.new.dots ≡ self.old.dots ++ display_dots_among_next_dots count display.now }
        ensures line { self.new.line ≡ display.now.crtc.beam.line }
        ensures width { self.new.width ≡ width_with_dots self.old display.now.crtc.beam.line count }
    {
        let line = display.beam().line;
        append_next_dots::<CW>(display, count, &mut self.buffer, self.used);
        self.used += 3 * count;
        self.widths.add(line as usize, count as u32);
        self.line = line;
    }

    /// Removes all dots.
    pub(crate) fn clear(&mut self)
        ensures { self.new ≡ blank_canvas }
    {
        self.used = 0;
        self.widths.clear(self.line as usize);
        self.line = 0;
    }

    /// How many rows there are: lines with a dot.
    pub(crate) fn rows(&self) -> u16
        ensures { result ≡ row_count self.now.dots }
    {
        self.widths.rows()
    }

    /// The shape of the picture, at most 2,304 by 1,024, or `None` where two rows differ in width.
    fn shape(&self) -> Option<Shape>
        ensures value { result ≡ picture_shape self.now.dots }
        ensures few { IfSome result IsShapeInBounds }
        ensures area { IfSome result (λ shape. length self.now.dots ≡ shape.width * shape.height) }
    {
        Shape::of_widths(self.widths.as_slice())
    }

    /// Red, green and blue of each dot in turn.
    fn bytes(&self) -> &[u8]
        ensures value { result.now ≡ bytes_of_dots self.now.dots }
        ensures len { length result.now ≡ 3 * length self.now.dots }
    {
        &self.buffer[..self.used]
    }

    /// The picture of the dots.
    pub(crate) fn picture(&self) -> Drawn<'_>
        ensures picture { IsPictureOf self.now.dots result }
        ensures few { IsPictureInBounds result }
    {
        match self.shape() {
            Some(shape) => Drawn::Picture(shape.width, shape.height, self.bytes()),
            None => Drawn::Ragged,
        }
    }
    /// How many dots each line has.
    fn widths(&self) -> &[u32]
        ensures value { result.now ≡ line_widths self.now.dots }
        ensures count { length result.now ≡ most_lines_of_a_frame }
    {
        self.widths.as_slice()
    }

    /// The dots, line by line.
    pub(crate) fn lines(&self) -> DrawnLines<'_>
        ensures lines { IsLinesOf self.now.dots result }
        ensures count { length result.widths.now ≡ most_lines_of_a_frame }
        ensures len { length result.bytes.now ≡ 3 * length self.now.dots }
    {
        DrawnLines {
            widths: self.widths(),
            bytes: self.bytes(),
        }
    }
}
