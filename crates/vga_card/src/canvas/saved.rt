//! The dots drawn, as bytes: a word for each of the 1,024 lines that counts its dots, and then red,
//! green and blue of each dot in turn.
ghost use Rattle.std.specs.Prelude.{◌≡◌, ℕ, ◌+◌, ◌*◌, ◌<◌, ◌≤◌, ◌↔◌, IsTrue, length, slice_index};
ghost use Rattle.std.specs.Prelude.{[], take, IfSome, IfNone, vec_capacity, false};
ghost use Rattle.std.specs.List.{flat_map};
ghost use Rattle.vga_bits.specs.Bytes.{zeros};
ghost use Rattle.vga_bits.specs.Saved.{word_bytes, IsPut};
ghost use Rattle.vga_card.specs.Picture.{most_dots_of_a_line, most_lines_of_a_frame};
ghost use Rattle.vga_card.specs.Picture.{line_of_each_dot_by_widths};
ghost use Rattle.vga_card.specs.Valid.{IsCanvasDrawnToBeam};
ghost use Rattle.vga_crtc.specs.Beam.{is_first_dot_of_frame};
ghost use Rattle.vga_card.specs.Saved.{saved_dots, saved_dots_from, widths_from_saved_bytes, past_widths};
ghost use Rattle.vga_card.specs.Saved.{most_dots_on_line as most_dots_on, AreWidthsInBounds};
ghost use Rattle.vga_card.specs.Saved.{AreSavedDots};

use super::{Canvas, WIDEST, lengthen_buffer};
use crate::widths::MOST_LINES_WITH_DOTS;
use vga_bits::{put_bytes, put_word, word_at};
use vga_crtc::Beam;

/// How many bytes the widths of all lines have.
pub(crate) const WIDTHS_LEN: usize = 2 * MOST_LINES_WITH_DOTS;

/// Puts a word for each width, at most 2,304, into a slice from index `at` on. It returns the index
/// after them.
fn put_widths(out: &mut [u8], at: usize, widths: &[u32]) -> usize
    requires narrow { (j : ℕ) → slice_index widths.now j ≤ most_dots_of_a_line }
    requires few { length widths.now ≡ most_lines_of_a_frame }
    requires room { at + 2048 ≤ length out.old }
    ensures put { IsPut out.old out.new at result (flat_map word_bytes widths.now) }
    ensures end { result ≡ at + 2048 }
{
    let mut next = at;
    for line in 0..widths.len() {
        next = put_word(out, next, widths[line] as u16);
    }
    next
}

/// The widths of `N` lines without dots.
#[tactic(auto, unfolding(vga_bits::specs::Bytes::zeros))]
fn blank_widths<const N: usize>() -> [u32; N]
    ensures { result ≡ zeros N }
{
    [0; N]
}

/// Puts the bytes of a canvas without dots into a slice from index `at` on. It returns the index
/// after them.
pub(crate) fn put_zero_widths(out: &mut [u8], at: usize) -> usize
    requires { at + 2048 ≤ length out.old }
    ensures put { IsPut out.old out.new at result (saved_dots []) }
    ensures end { result ≡ at + 2048 }
{
    put_widths(out, at, &blank_widths::<MOST_LINES_WITH_DOTS>())
}

/// The most dots that a line can have while the beam is at `beam`.
fn most_dots_on_line(beam: Beam, line: usize) -> u32
    ensures { result ≡ most_dots_on beam line }
{
    if line < beam.line as usize {
        WIDEST as u32
    } else if line == beam.line as usize {
        (9 * beam.character as u32 + beam.dot as u32).min(WIDEST as u32)
    } else {
        0
    }
}

/// How many dots all lines have together, or `None` if a line has more than it can have.
fn count_saved_dots(beam: Beam, bytes: &[u8]) -> Option<u32>
    requires { 2048 ≤ length bytes.now }
    ensures some { IfSome result (λ n. AreWidthsInBounds beam (widths_from_saved_bytes bytes.now)
        × (n ≡ length (line_of_each_dot_by_widths 0 (widths_from_saved_bytes bytes.now)))) }
    ensures none { IfNone result (¬ AreWidthsInBounds beam (widths_from_saved_bytes bytes.now)) }
{
    let mut count = 0;
    for line in 0..MOST_LINES_WITH_DOTS {
        let width = word_at(bytes, 2 * line) as u32;
        if width > most_dots_on_line(beam, line) {
            return None;
        }
        count += width;
    }
    Some(count)
}

/// Whether some bytes could be the saved dots of a frame whose beam is at `beam`. No line may have
/// more dots than it can have, and each dot must have three bytes. At the first dot of a frame
/// there must be no dots.
pub(crate) fn are_saved_dots(beam: Beam, bytes: &[u8]) -> bool
    requires { 2048 ≤ length bytes.now }
    ensures { IsTrue result ↔ AreSavedDots beam bytes.now }
{
    let rest = bytes.split_at(WIDTHS_LEN).1;
    match count_saved_dots(beam, bytes) {
        Some(count) => {
            rest.len() == 3 * count as usize && (rest.is_empty() || !beam.is_first_dot_of_frame())
        }
        None => false,
    }
}

/// Overwrites the start of a buffer with some bytes. The buffer has memory for them.
fn restore_bytes(buffer: &mut Vec<u8>, bytes: &[u8])
    requires { length bytes.now ≤ vec_capacity buffer.old }
    ensures prefix { take (length bytes.now) buffer.new.items ≡ bytes.now }
    ensures len { length bytes.now ≤ length buffer.new.items }
    ensures capacity { vec_capacity buffer.old ≤ vec_capacity buffer.new }
{
    lengthen_buffer(buffer, bytes.len());
    put_bytes(buffer.as_mut_slice(), 0, bytes);
}

impl Canvas {
    /// Puts the bytes of the dots into a slice from index `at` on. It returns the index after them.
    pub(crate) fn save(&self, out: &mut [u8], at: usize) -> usize
        requires { at + (2048 + 3 * length self.now.dots) ≤ length out.old }
        ensures put { IsPut out.old out.new at result (saved_dots self.now.dots) }
        ensures end { result ≡ at + (2048 + 3 * length self.now.dots) }
    {
        let at = put_widths(out, at, self.widths.as_slice());
        put_bytes(out, at, self.bytes())
    }

    /// How many bytes the dots take, without the widths.
    pub(crate) fn saved_len(&self) -> usize
        ensures value { result ≡ 3 * length self.now.dots }
        ensures few { result ≤ 7077888 }
    {
        self.used
    }

    /// Restores the dots of a frame under way from their bytes. The beam is at `beam`.
    pub(crate) fn restore(&mut self, beam: Beam, bytes: &[u8])
        requires all { 2048 ≤ length bytes.now }
        requires dots { AreSavedDots beam bytes.now }
        ensures dots { self.new.dots ≡ saved_dots_from bytes.now }
        ensures drawn { IsCanvasDrawnToBeam beam self.new }
    {
        let rest = bytes.split_at(WIDTHS_LEN).1;
        self.widths.restore(bytes);
        restore_bytes(&mut self.buffer, rest);
        self.used = rest.len();
        self.line = beam.line.min(MOST_LINES_WITH_DOTS as u16 - 1);
    }

    /// Saved dots are restored in full. The beam is at `beam`. The clauses are for proofs: nothing
    /// runs.
    pub(crate) fn restore_gives_what_was_saved(&self, beam: Beam)
        requires { IsCanvasDrawnToBeam beam self.now }
        ensures saved { is_first_dot_of_frame beam ≡ false → AreSavedDots beam (saved_dots self.now.dots) }
        ensures back { saved_dots_from (saved_dots self.now.dots) ≡ self.now.dots }
        ensures len { length (saved_dots self.now.dots) ≡ 2048 + 3 * length self.now.dots }
    {
        let _ = &self.widths;
    }
}
