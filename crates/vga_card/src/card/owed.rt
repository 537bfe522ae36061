//! Cycles that need not wait for the dots before them: reads of memory and of input status 1, and
//! writes to memory and to registers that none of the dots sees. The clock's timing need not wait
//! either. Each takes only the dots that it must, and returns how many are left.
ghost use Rattle.std.specs.Prelude.{◌≡◌, ◌≤◌, ◌==◌, ◌&&◌, ◌<◌, not, true, false, ℕ, None, Some, Ok, IfSome};
ghost use Rattle.vga_card.specs.Clock.{IsRasterTiming};
ghost use Rattle.vga_card.specs.Dots.{character_width, dots};
ghost use Rattle.vga_card.specs.Port.{port_of};
ghost use Rattle.vga_card.specs.declared.port.Port.TheVariants.{InputStatus1};
ghost use Rattle.vga_crtc.specs.Raster.{IsWithinItsLine, dots_to_line_end};
ghost use Rattle.vga_card.specs.Cycles.{out_cycle, inp_cycle, put_cycle, get_cycle};
ghost use Rattle.vga_card.specs.WordCycles.{out_word_cycle, put_word_cycle, get_word_cycle};
ghost use Rattle.vga_host.specs.Memory.Address.{window_offset};
ghost use Rattle.vga_host.specs.Ports.{IsHostPort, IsIndexPort};
ghost use Rattle.vga_host.specs.Memory.Write.{memory_after_put};
ghost use Rattle.vga_card.specs.LineAhead.{IsLineAhead, IsAtSameLine};
ghost use Rattle.vga_card.specs.Owed.{DotsSeeSameMemory, IsChangeHiddenFromDots};

use super::Card;
use super::word_cycles::bytes_of;
use crate::clock::{RasterTiming, raster_timing};
use crate::laws::{
    dots_change_only_beam_and_picture, dots_split, hidden_writes_commute_with_dots,
    memory_reads_commute_with_dots, status_reads_commute_with_dots,
    unseen_writes_commute_with_dots,
};
use crate::line_ahead::LineAhead;
use crate::port::{Port, port_reached};
use vga_bits::Refusal;
use vga_host::{GRAPHICS_DATA, GRAPHICS_INDEX, SEQUENCER_DATA, SEQUENCER_INDEX};

/// Whether no dot sees the sequencer's register with this index. Dots see clocking mode and
/// character map select.
fn is_sequencer_register_hidden_from_dots(index: u8) -> bool
    ensures { result ≡ (not (index == 1) && not (index == 3)) }
{
    index != 1 && index != 3
}

/// Whether no dot sees the graphics controller's register with this index. Dots see graphics mode
/// and miscellaneous.
fn is_graphics_register_hidden_from_dots(index: u8) -> bool
    ensures { result ≡ (not (index == 5) && not (index == 6)) }
{
    index != 5 && index != 6
}

impl Card {
    /// Whether the next n dots are dots of the beam's line.
    fn are_next_dots_within_line(&self, n: u32) -> bool
        ensures inside { result ≡ true
            → IsWithinItsLine (character_width self.now) self.now.crtc.registers
            self.now.crtc.beam }
        ensures few { result ≡ true → n ≤ dots_to_line_end (character_width self.now)
            self.now.crtc.registers self.now.crtc.beam }
        ensures at_most { result ≡ true → n ≤ 2340 }
    {
        let width = self.host.character_width();
        self.crtc.is_in_line(width) && n <= self.crtc.dots_to_line_end(width)
    }

    /// Takes the rest of the line under way if it ends among the next n dots, and then the whole
    /// lines among them. It takes all n dots if the beam is past its line's end. It returns how many
    /// dots are left.
    pub(super) fn take_to_last_line_start(&mut self, n: u32) -> u32
        ensures left { result ≤ n }
        ensures dots { dots result self.new ≡ dots n self.old }
    {
        dots_split();
        let width = self.host.character_width();
        let rest = if self.crtc.is_in_line(width) {
            let first = self.crtc.dots_to_line_end(width);
            if n < first {
                return n;
            }
            let line = self.crtc.fields().characters() as u32 * width as u32;
            (n - first) % line
        } else {
            0
        };
        self.take_dots(n - rest);
        rest
    }

    /// Whether a port is that of input status 1.
    fn is_input_status_1(&self, port: u16) -> bool
        ensures { result ≡ true → port_of self.now.misc port ≡ Some InputStatus1 }
    {
        matches!(port_reached(self.misc, port), Some(Port::InputStatus1))
    }

    /// Reads input status 1 as it is n dots on, within the beam's line. The attribute controller
    /// takes its next write as an index; no dot sees that.
    fn read_status_with_dots_owed(&mut self, n: u32) -> u8
        requires some { 0 < n }
        requires inside { IsWithinItsLine (character_width self.old) self.old.crtc.registers
            self.old.crtc.beam }
        requires few { n ≤ dots_to_line_end (character_width self.old) self.old.crtc.registers
            self.old.crtc.beam }
        requires at_most { n ≤ 2340 }
        ensures read { (port : ℕ) → port_of self.old.misc port ≡ Some InputStatus1 →
            (dots n self.new, Ok result) ≡ inp_cycle (dots n self.old) port }
        ensures line { IsAtSameLine self.old self.new }
    {
        status_reads_commute_with_dots();
        let status = self.crtc.status_after(self.host.character_width(), n);
        self.attr.to_index();
        status
    }

    /// Reads a byte from a port n dots on. It takes the whole lines among these dots first. It
    /// returns how many dots remain to be taken after the read.
    #[inline(never)]
    fn take_lines_and_inp_with_dots_owed(&mut self, n: u32, port: u16) -> (u32, Result<u8, Refusal>)
        ensures left { result.0 ≤ n }
        ensures read { (dots result.0 self.new, result.1) ≡ inp_cycle (dots n self.old) port }
    {
        dots_split();
        let left = self.take_to_last_line_start(n);
        if left > 0 && self.are_next_dots_within_line(left) && self.is_input_status_1(port) {
            return (left, Ok(self.read_status_with_dots_owed(left)));
        }
        self.take_dots(left);
        (0, self.inp(port))
    }

    /// Reads a byte from a port n dots on. It returns how many of these dots remain to be taken
    /// after the read.
    pub fn inp_with_dots_owed(&mut self, n: u32, port: u16) -> (u32, Result<u8, Refusal>)
        ensures left { result.0 ≤ n }
        ensures read { (dots result.0 self.new, result.1) ≡ inp_cycle (dots n self.old) port }
    {
        dots_split();
        if n == 0 {
            return (0, self.inp(port));
        }
        if self.are_next_dots_within_line(n) && self.is_input_status_1(port) {
            return (n, Ok(self.read_status_with_dots_owed(n)));
        }
        self.take_lines_and_inp_with_dots_owed(n, port)
    }

    /// The timing as it is n dots on, within the beam's line.
    fn clock_after_dots(&self, n: u32) -> RasterTiming
        requires some { 0 < n }
        requires inside { IsWithinItsLine (character_width self.now) self.now.crtc.registers
            self.now.crtc.beam }
        requires few { n ≤ dots_to_line_end (character_width self.now) self.now.crtc.registers
            self.now.crtc.beam }
        requires at_most { n ≤ 2340 }
        ensures clock { IsRasterTiming (dots n self.now) result }
        ensures display { IfSome result.to_display (λ d. d ≤ 4800000) }
        ensures retrace { IfSome result.to_retrace (λ d. d ≤ 4800000) }
    {
        dots_change_only_beam_and_picture();
        let crtc = self.crtc.after_dots(self.host.character_width(), n);
        raster_timing(&crtc, &self.host, self.misc)
    }

    /// The timing as it is n dots on. It takes the whole lines among these dots first. It returns
    /// how many dots remain to be taken.
    #[inline(never)]
    fn take_lines_and_clock_with_dots_owed(&mut self, n: u32) -> (u32, RasterTiming)
        ensures left { result.0 ≤ n }
        ensures dots { dots result.0 self.new ≡ dots n self.old }
        ensures clock { IsRasterTiming (dots n self.old) result.1 }
        ensures display { IfSome result.1.to_display (λ d. d ≤ 4800000) }
        ensures retrace { IfSome result.1.to_retrace (λ d. d ≤ 4800000) }
    {
        dots_split();
        let left = self.take_to_last_line_start(n);
        if left > 0 && self.are_next_dots_within_line(left) {
            return (left, self.clock_after_dots(left));
        }
        self.take_dots(left);
        (0, self.clock())
    }

    /// The timing as it is n dots on. It returns how many of these dots remain to be taken.
    pub fn clock_with_dots_owed(&mut self, n: u32) -> (u32, RasterTiming)
        ensures left { result.0 ≤ n }
        ensures dots { dots result.0 self.new ≡ dots n self.old }
        ensures clock { IsRasterTiming (dots n self.old) result.1 }
        ensures display { IfSome result.1.to_display (λ d. d ≤ 4800000) }
        ensures retrace { IfSome result.1.to_retrace (λ d. d ≤ 4800000) }
    {
        dots_split();
        if n == 0 {
            (0, self.clock())
        } else {
            self.take_lines_and_clock_with_dots_owed(n)
        }
    }

    /// Reads input status 1 where no dots are owed, if the port is its port. Else it is `None`, and
    /// nothing changes.
    #[inline(always)]
    #[tactic(auto, unfolding(crate::specs::Cycles::inp_reached))]
    pub fn inp_status(&mut self, port: u16) -> Option<u8>
        ensures read { IfSome result (λ v. (self.new, Ok v) ≡ inp_cycle self.old port) }
        ensures line { IsAtSameLine self.old self.new }
        ensures left { result ≡ None → self.new ≡ self.old }
    {
        if !self.is_input_status_1(port) {
            return None;
        }
        self.attr.to_index();
        Some(self.crtc.status())
    }

    /// Reads input status 1 as it is n dots on, one at least, if they are dots of the line ahead and
    /// the port is its port. Else it is `None`, and nothing changes.
    #[inline(always)]
    pub fn inp_status_before_line(&mut self, line: LineAhead, n: u32, port: u16) -> Option<u8>
        requires { IsLineAhead line self.old }
        ensures read { IfSome result (λ v. (dots n self.new, Ok v)
            ≡ inp_cycle (dots n self.old) port) }
        ensures line { IsAtSameLine self.old self.new }
        ensures left { result ≡ None → self.new ≡ self.old }
    {
        if n == 0 || n > line.dots || !self.is_input_status_1(port) {
            return None;
        }
        Some(self.read_status_with_dots_owed(n))
    }

    /// Reads a byte from an address in read mode 0, however many dots are owed before. It is
    /// `None`, and changes nothing, in read mode 1 and where the address is not decoded.
    #[inline(always)]
    pub fn get_from_plane_before_dots(&mut self, address: u32) -> Option<u8>
        ensures read { IfSome result (λ v. (n : ℕ)
            → (dots n self.new, Ok v) ≡ get_cycle (dots n self.old) address) }
        ensures line { IsAtSameLine self.old self.new }
        ensures left { result ≡ None → self.new ≡ self.old }
    {
        memory_reads_commute_with_dots();
        self.get_from_plane(address)
    }

    /// Reads a word from an address and the next in read mode 0, however many dots are owed before.
    /// It is `None`, and changes nothing, in read mode 1 and where one of the addresses is not
    /// decoded.
    #[inline(always)]
    pub fn get_word_from_planes_before_dots(&mut self, address: u32) -> Option<u16>
        ensures read { IfSome result (λ v. (n : ℕ)
            → (dots n self.new, Ok v) ≡ get_word_cycle (dots n self.old) address) }
        ensures line { IsAtSameLine self.old self.new }
        ensures left { result ≡ None → self.new ≡ self.old }
    {
        memory_reads_commute_with_dots();
        self.get_word_from_planes(address)
    }

    /// Reads a byte from an address n dots on. All these dots remain to be taken after the read,
    /// because no dot sees the latches.
    pub fn get_with_dots_owed(&mut self, n: u32, address: u32) -> Result<u8, Refusal>
        ensures { (dots n self.new, result) ≡ get_cycle (dots n self.old) address }
    {
        memory_reads_commute_with_dots();
        self.get(address)
    }

    /// Reads a word from an address and the next, n dots on. All these dots remain to be taken
    /// after the read.
    pub fn get_word_with_dots_owed(&mut self, n: u32, address: u32) -> Result<u16, Refusal>
        ensures { (dots n self.new, result) ≡ get_word_cycle (dots n self.old) address }
    {
        memory_reads_commute_with_dots();
        self.get_word(address)
    }

    /// Whether a write to this port is known to be hidden from dots, whichever byte it writes. Such
    /// a port reaches the index of the sequencer or the graphics controller, or a hidden register
    /// of theirs.
    fn is_out_hidden_from_dots(&self, port: u16) -> bool
        ensures hidden { result ≡ true → (v : ℕ)
            → IsChangeHiddenFromDots self.now (out_cycle self.now port v).0 }
        ensures host { result ≡ true → IsHostPort port }
    {
        match port {
            SEQUENCER_INDEX | GRAPHICS_INDEX => true,
            SEQUENCER_DATA => is_sequencer_register_hidden_from_dots(self.host.seq_index()),
            GRAPHICS_DATA => is_graphics_register_hidden_from_dots(self.host.gfx_index()),
            _ => false,
        }
    }

    /// Whether a write of this word to a port is known to be hidden from dots. Such a word sets the
    /// index of the sequencer or the graphics controller, and a hidden register of theirs.
    fn is_out_word_hidden_from_dots(&self, port: u16, v: u16) -> bool
        ensures hidden { result ≡ true
            → IsChangeHiddenFromDots self.now (out_word_cycle self.now port v).0 }
        ensures index { result ≡ true → IsIndexPort port }
    {
        let index = (v % 256) as u8;
        match port {
            SEQUENCER_INDEX => is_sequencer_register_hidden_from_dots(index & 0x07),
            GRAPHICS_INDEX => is_graphics_register_hidden_from_dots(index & 0x0F),
            _ => false,
        }
    }

    /// Writes a byte to a port of the sequencer or the graphics controller, if it is not refused. It
    /// returns whether it did; if not, nothing changes.
    #[inline(always)]
    #[tactic(auto, unfolding(crate::specs::Cycles::out_reached, crate::specs::Port::port_of))]
    fn out_to_host(&mut self, port: u16, v: u8) -> bool
        requires { IsHostPort port }
        ensures done { result ≡ true → (self.new, Ok tt) ≡ out_cycle self.old port v }
        ensures left { result ≡ false → self.new ≡ self.old }
    {
        self.host.out(port, v).is_ok()
    }

    /// Writes a byte to a port, however many dots are owed before, if no dot sees the write and it
    /// is not refused. It returns whether it did; if not, nothing changes.
    #[inline(always)]
    pub fn out_before_dots(&mut self, port: u16, v: u8) -> bool
        ensures done { result ≡ true → (n : ℕ)
            → (dots n self.new, Ok tt) ≡ out_cycle (dots n self.old) port v }
        ensures line { IsAtSameLine self.old self.new }
        ensures left { result ≡ false → self.new ≡ self.old }
    {
        hidden_writes_commute_with_dots();
        self.is_out_hidden_from_dots(port) && self.out_to_host(port, v)
    }

    /// Writes an index of the sequencer or the graphics controller, and the register that it selects,
    /// if this is not refused. It returns whether it did; if not, nothing changes.
    #[inline(always)]
    fn out_word_to_host(&mut self, port: u16, v: u16) -> bool
        requires { IsIndexPort port }
        ensures done { result ≡ true → (self.new, Ok tt) ≡ out_word_cycle self.old port v }
        ensures left { result ≡ false → self.new ≡ self.old }
    {
        let (index, data) = bytes_of(v);
        if port == SEQUENCER_INDEX {
            self.out_sequencer(index, data).is_ok()
        } else {
            self.out_graphics(index, data).is_ok()
        }
    }

    /// Writes a word to a port and the next port, however many dots are owed before, if no dot sees
    /// the writes and neither is refused. It returns whether it did; if not, nothing changes.
    #[inline(always)]
    pub fn out_word_before_dots(&mut self, port: u16, v: u16) -> bool
        ensures done { result ≡ true → (n : ℕ)
            → (dots n self.new, Ok tt) ≡ out_word_cycle (dots n self.old) port v }
        ensures line { IsAtSameLine self.old self.new }
        ensures left { result ≡ false → self.new ≡ self.old }
    {
        hidden_writes_commute_with_dots();
        self.is_out_word_hidden_from_dots(port, v) && self.out_word_to_host(port, v)
    }

    /// Writes a byte to a port n dots on. It returns how many of these dots remain to be taken
    /// after the write. They do not see it.
    pub fn out_with_dots_owed(&mut self, n: u32, port: u16, v: u8) -> (u32, Result<(), Refusal>)
        ensures left { result.0 ≤ n }
        ensures out { (dots result.0 self.new, result.1) ≡ out_cycle (dots n self.old) port v }
    {
        dots_split();
        hidden_writes_commute_with_dots();
        if self.is_out_hidden_from_dots(port) {
            return (n, self.out(port, v));
        }
        self.take_dots(n);
        (0, self.out(port, v))
    }

    /// Writes a word to a port and the next port, n dots on. It returns how many of these dots
    /// remain to be taken after the write. They do not see it.
    pub fn out_word_with_dots_owed(
        &mut self,
        n: u32,
        port: u16,
        v: u16,
    ) -> (u32, Result<(), Refusal>)
        ensures left { result.0 ≤ n }
        ensures out { (dots result.0 self.new, result.1) ≡ out_word_cycle (dots n self.old) port v }
    {
        dots_split();
        hidden_writes_commute_with_dots();
        if self.is_out_word_hidden_from_dots(port, v) {
            return (n, self.out_word(port, v));
        }
        self.take_dots(n);
        (0, self.out_word(port, v))
    }
}
