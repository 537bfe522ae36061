//! Cycles of memory before dots of the beam's line, by what is known of these dots.
ghost use Rattle.std.specs.Prelude.{◌≡◌, ◌≤◌, true, false, ℕ, Ok};
ghost use Rattle.vga_host.specs.Memory.Address.{window_offset};
ghost use Rattle.vga_host.specs.Memory.Write.{memory_after_put};
ghost use Rattle.vga_card.specs.Cycles.{put_cycle};
ghost use Rattle.vga_card.specs.WordCycles.{put_word_cycle};
ghost use Rattle.vga_card.specs.Dots.{dots};
ghost use Rattle.vga_card.specs.LineAhead.{IsLineAhead, IsAtSameLine};
ghost use Rattle.vga_card.specs.Owed.{DotsSeeSameMemory};

use super::Card;
use super::word_cycles::bytes_of;
use crate::laws::{dots_change_only_beam_and_picture, dots_split, unseen_writes_commute_with_dots};
use crate::line_ahead::LineAhead;
use vga_bits::Refusal;
use vga_crtc::laws::{dots_move_beam_in_line, start_is_taken_once};
use vga_dots::laws::dots_see_what_they_fetch;
use vga_dots::offsets_fetched_on_line;

impl Card {
    /// What the dots ahead on the beam's line may fetch. At a frame's first dot, and past its line's
    /// end, nothing is known.
    pub fn line_ahead(&self) -> LineAhead
        ensures { IsLineAhead result self.now }
    {
        start_is_taken_once();
        dots_move_beam_in_line();
        let width = self.host.character_width();
        if self.crtc.beam().is_first_dot_of_frame() || !self.crtc.is_in_line(width) {
            return LineAhead::unknown();
        }
        LineAhead {
            dots: self.crtc.dots_to_line_end(width),
            fetched: offsets_fetched_on_line(&self.crtc),
        }
    }

    /// What is known of the line ahead, if it tells of the next n dots; else what the registers say.
    fn line_for(&self, line: LineAhead, n: u32) -> LineAhead
        requires { IsLineAhead line self.now }
        ensures { IsLineAhead result self.now }
    {
        if n <= line.dots {
            line
        } else {
            self.line_ahead()
        }
    }

    /// True only if none of the next n dots sees a write to this address. They must be dots of the
    /// line ahead, which fetch nothing near the offset that is written. In text the write must not
    /// reach the plane of glyphs.
    pub(super) fn is_write_unseen(&self, line: LineAhead, n: u32, address: u32) -> bool
        requires { IsLineAhead line self.now }
        ensures { result ≡ true → (v : ℕ) → DotsSeeSameMemory n self.now
            (memory_after_put self.now.host (window_offset self.now.host address) v) }
    {
        if n > line.dots {
            return false;
        }
        match self.host.write_offset_unless_glyphs(address, self.misc) {
            Some(offset) => !line.fetched.contains(offset),
            None => false,
        }
    }

    /// Writes a byte to an address. What is known of the line ahead stays true.
    #[inline(always)]
    #[tactic(auto, using(crate::proofs::LineAheadLemmas::put_stays_at_line))]
    fn put_at_line(&mut self, address: u32, v: u8) -> Result<(), Refusal>
        ensures put { (self.new, result) ≡ put_cycle self.old address v }
        ensures line { (line : LineAhead) → IsLineAhead line self.old → IsLineAhead line self.new }
    {
        self.put(address, v)
    }

    /// Takes those of the next n dots that may see a write to an address. It returns how many dots
    /// are left, and what is known of them. None of those sees the write.
    #[inline(never)]
    fn take_dots_that_may_see_write(&mut self, n: u32, address: u32) -> (u32, LineAhead)
        ensures left { result.0 ≤ n }
        ensures line { IsLineAhead result.1 self.new }
        ensures dots { dots result.0 self.new ≡ dots n self.old }
        ensures unseen { (v : ℕ) → DotsSeeSameMemory result.0 self.new
            (memory_after_put self.new.host (window_offset self.new.host address) v) }
    {
        dots_split();
        let left = self.take_to_last_line_start(n);
        let line = self.line_ahead();
        if self.is_write_unseen(line, left, address) {
            return (left, line);
        }
        self.take_dots(left);
        (0, LineAhead::unknown())
    }

    /// Writes a byte to an address n dots on. It is given what is known of the line ahead. It
    /// returns how many of these dots remain to be taken after the write, and what is known of the
    /// line ahead then. They do not see the write.
    pub fn put_with_dots_owed(
        &mut self,
        line: LineAhead,
        n: u32,
        address: u32,
        v: u8,
    ) -> (u32, LineAhead, Result<(), Refusal>)
        requires { IsLineAhead line self.old }
        ensures left { result.0 ≤ n }
        ensures line { IsLineAhead result.1 self.new }
        ensures put { (dots result.0 self.new, result.2) ≡ put_cycle (dots n self.old) address v }
    {
        dots_split();
        unseen_writes_commute_with_dots();
        let known = self.line_for(line, n);
        if n == 0 || self.is_write_unseen(known, n, address) {
            return (n, known, self.put_at_line(address, v));
        }
        let (left, after) = self.take_dots_that_may_see_write(n, address);
        (left, after, self.put_at_line(address, v))
    }

    /// Writes a word to an address and the next, n dots on. It is given what is known of the line
    /// ahead. It returns how many of these dots remain to be taken after the write, and what is
    /// known of the line ahead then. They see neither byte.
    pub fn put_word_with_dots_owed(
        &mut self,
        line: LineAhead,
        n: u32,
        address: u32,
        v: u16,
    ) -> (u32, LineAhead, Result<(), Refusal>)
        requires { IsLineAhead line self.old }
        ensures left { result.0 ≤ n }
        ensures line { IsLineAhead result.1 self.new }
        ensures put { (dots result.0 self.new, result.2)
            ≡ put_word_cycle (dots n self.old) address v }
    {
        dots_change_only_beam_and_picture();
        if address == u32::MAX || !self.decodes_word(address) {
            return (n, line, Err(Refusal::NotDecoded));
        }
        let (low, high) = bytes_of(v);
        let (left, between, first) = self.put_with_dots_owed(line, n, address, low);
        match first {
            Ok(()) => self.put_with_dots_owed(between, left, address + 1, high),
            Err(refusal) => (left, between, Err(refusal)),
        }
    }

    /// Writes a byte to an address before the next n dots, if they are dots of the line ahead that do
    /// not see the write, and the byte is stored unchanged. It returns whether it did; if not,
    /// nothing changes. It serves speed alone: a put is the most frequent cycle, and here it calls
    /// nothing.
    #[inline(always)]
    pub fn put_before_line(&mut self, line: LineAhead, n: u32, address: u32, v: u8) -> bool
        requires { IsLineAhead line self.old }
        ensures done { result ≡ true → (dots n self.new, Ok tt)
            ≡ put_cycle (dots n self.old) address v }
        ensures line { IsAtSameLine self.old self.new }
        ensures left { result ≡ false → self.new ≡ self.old }
    {
        dots_see_what_they_fetch();
        n <= line.dots && self.put_if_unchanged_outside(line.fetched, address, v)
    }

    /// Writes a word to an address and the next as `put_before_line` writes a byte.
    #[inline(always)]
    pub fn put_word_before_line(&mut self, line: LineAhead, n: u32, address: u32, v: u16) -> bool
        requires { IsLineAhead line self.old }
        ensures done { result ≡ true → (dots n self.new, Ok tt)
            ≡ put_word_cycle (dots n self.old) address v }
        ensures line { IsAtSameLine self.old self.new }
        ensures left { result ≡ false → self.new ≡ self.old }
    {
        dots_see_what_they_fetch();
        if n > line.dots || address == u32::MAX {
            return false;
        }
        self.put_word_if_unchanged_outside(line.fetched, address, v)
    }
}
