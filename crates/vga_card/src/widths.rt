//! How many dots each line of a frame has, and how many lines have one.
ghost use Rattle.std.specs.Prelude.{◌≡◌, ◌+◌, ◌<◌, ◌≤◌, ◌^◌, ℕ, length, slice_index, slice_set};
ghost use Rattle.std.specs.Prelude.{nat_lt, if◌then◌else◌, IfOk, IsOkUnless};
ghost use Rattle.vga_bits.specs.Bytes.{zeros};
ghost use Rattle.vga_card.specs.Canvas.{nonzero_widths};
ghost use Rattle.vga_card.specs.Picture.{most_lines_of_a_frame};
ghost use Rattle.vga_card.specs.Saved.{widths_from_saved_bytes};

use crate::shape::count_rows;
use std::alloc::Global;
use std::marker::Model;
use vga_bits::{Fault, word_at};

/// How many lines of a frame can have a dot.
pub(crate) const MOST_LINES_WITH_DOTS: usize = 1_024;

/// The number of dots of each line. How many lines have a dot is kept beside it, so that a look at
/// the beam need not count them.
///
/// Contracts see the list of the widths.
#[derive(Drop)]
pub(crate) struct Widths {
    each: Vec<u32>,
    rows: u16,
}

impl Model for Widths {
    ghost use Rattle.std.specs.Prelude.{ℕ, List, ◌≡◌, length};
    ghost use Rattle.vga_card.specs.Canvas.{nonzero_widths};
    ghost use Rattle.vga_card.specs.Picture.{most_lines_of_a_frame};

    ghost Value = { List ℕ };

    ghost view = { λ w. w.each.items };

    ghost invariant = { λ w. (length w.each.items ≡ most_lines_of_a_frame)
        × (w.rows ≡ length (nonzero_widths w.each.items)) };
}

/// `len` widths, each 0. It fails only with `OutOfMemory`.
#[tactic(auto, unfolding(vga_bits::specs::Bytes::zeros))]
fn zero_widths(alloc: Global, len: usize) -> Result<Vec<u32>, Fault>
    ensures items { IfOk result (λ v. v.items ≡ zeros len) }
    ensures err { IsOkUnless result Fault.OutOfMemory }
{
    match vec![in alloc; 0; len] {
        Ok(widths) => Ok(widths),
        Err(_) => Err(Fault::OutOfMemory),
    }
}

/// How many rows begin where a line of this width gets so many more dots: one if they are its first.
fn rows_begun(width: u32, more: u32) -> u16
    ensures value { result ≡ (if nat_lt 0 width then 0 else if nat_lt 0 more then 1 else 0) }
    ensures few { result ≤ 1 }
{
    if width > 0 {
        0
    } else if more > 0 {
        1
    } else {
        0
    }
}

/// Sets all widths to 0. Those after `last` are 0 already.
fn clear_widths(widths: &mut [u32], last: usize)
    requires within { last < length widths.old }
    requires later { (j : ℕ) → last < j → slice_index widths.old j ≡ 0 }
    ensures { (j : ℕ) → slice_index widths.new j ≡ 0 }
{
    widths[last] = 0;
    for line in 0..last {
        widths[line] = 0;
    }
}

/// Sets the widths to those in some bytes.
fn restore_widths(widths: &mut [u32], bytes: &[u8])
    requires lines { length widths.old ≡ most_lines_of_a_frame }
    requires all { 2048 ≤ length bytes.now }
    ensures { widths.new ≡ widths_from_saved_bytes bytes.now }
{
    for line in 0..widths.len() {
        widths[line] = word_at(bytes, 2 * line) as u32;
    }
}

impl Widths {
    /// No line has a dot. It fails only with `OutOfMemory`.
    pub(crate) fn new(alloc: Global) -> Result<Widths, Fault>
        ensures ok { IfOk result (λ widths. widths ≡ zeros most_lines_of_a_frame) }
        ensures err { IsOkUnless result Fault.OutOfMemory }
    {
        let each = zero_widths(alloc, MOST_LINES_WITH_DOTS)?;
        Ok(Widths { each, rows: 0 })
    }

    /// The number of dots of each line.
    pub(crate) fn as_slice(&self) -> &[u32]
        ensures value { result.now ≡ self.now }
        ensures count { length result.now ≡ most_lines_of_a_frame }
    {
        self.each.as_slice()
    }

    /// How many lines have a dot.
    pub(crate) fn rows(&self) -> u16
        ensures { result ≡ length (nonzero_widths self.now) }
    {
        self.rows
    }

    /// Adds `dots` dots to a line.
    pub(crate) fn add(&mut self, line: usize, dots: u32)
        requires lines { line < most_lines_of_a_frame }
        requires few { slice_index self.old line + dots < 2 ^ 32 }
        ensures { self.new ≡ slice_set self.old line (slice_index self.old line + dots) }
    {
        let width = &mut self.each[line];
        let begun = rows_begun(*width, dots);
        *width += dots;
        self.rows += begun;
    }

    /// Sets all widths to 0. Those after `last` are 0 already.
    pub(crate) fn clear(&mut self, last: usize)
        requires within { last < most_lines_of_a_frame }
        requires later { (j : ℕ) → last < j → slice_index self.old j ≡ 0 }
        ensures zero { (j : ℕ) → slice_index self.new j ≡ 0 }
        ensures lines { length self.new ≡ most_lines_of_a_frame }
    {
        clear_widths(self.each.as_mut_slice(), last);
        self.rows = 0;
    }

    /// Sets the widths to those in some bytes.
    pub(crate) fn restore(&mut self, bytes: &[u8])
        requires { 2048 ≤ length bytes.now }
        ensures { self.new ≡ widths_from_saved_bytes bytes.now }
    {
        restore_widths(self.each.as_mut_slice(), bytes);
        self.rows = count_rows(self.each.as_slice());
    }
}
