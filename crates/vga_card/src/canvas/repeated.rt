//! Rows that are copied. This file serves speed alone: a row could be drawn again.
ghost use Rattle.std.specs.Prelude.{◌≡◌, ◌+◌, ◌-◌, ◌*◌, ◌<◌, ◌≤◌, ◌++◌, length, take, drop};
ghost use Rattle.std.specs.Prelude.{vec_capacity};
ghost use Rattle.vga_card.specs.Picture.{most_dots_of_a_line, most_lines_of_a_frame};
ghost use Rattle.vga_card.specs.Repeat.{last_dots_moved_to_line};

use super::{Canvas, lengthen_buffer};

/// Copies the last `len` of the first `used` bytes over the bytes after those.
fn copy_last_bytes(bytes: &mut [u8], used: usize, len: usize)
    requires few { len ≤ used }
    requires room { used + len ≤ length bytes.old }
    ensures len { length bytes.new ≡ length bytes.old }
    ensures copied { take (used + len) bytes.new ≡ take used bytes.old
        ++ drop (used - len) (take used bytes.old) }
{
    let (prefix, back) = bytes.split_at_mut(used);
    back[..len].copy_from_slice(&prefix[used - len..]);
}

/// Appends the last `len` of the first `used` bytes of a buffer to these `used` bytes once more.
/// The buffer has memory for that.
fn append_again(buffer: &mut Vec<u8>, used: usize, len: usize)
    requires used { used ≤ length buffer.old.items }
    requires few { len ≤ used }
    requires room { used + len ≤ vec_capacity buffer.old }
    ensures copied { take (used + len) buffer.new.items ≡ take used buffer.old.items
        ++ drop (used - len) (take used buffer.old.items) }
    ensures len { used + len ≤ length buffer.new.items }
    ensures capacity { vec_capacity buffer.old ≤ vec_capacity buffer.new }
{
    lengthen_buffer(buffer, used + len);
    copy_last_bytes(buffer.as_mut_slice(), used, len);
}

impl Canvas {
    /// Adds the last `count` dots once more, on `line`: the last line or one after it. A line is
    /// below 1,024 and has at most 2,304 dots.
    pub(crate) fn repeat(&mut self, line: u16, count: usize)
        requires all { count ≤ length self.old.dots }
        requires lines { line < most_lines_of_a_frame }
        requires after { self.old.line ≤ line }
        requires few { count ≤ most_dots_of_a_line }
        requires room { line ≡ self.old.line → self.old.width + count ≤ most_dots_of_a_line }
        ensures dots { self.new.dots ≡ self.old.dots ++ last_dots_moved_to_line line count self.old.dots }
        ensures line { self.new.line ≡ line }
    {
        append_again(&mut self.buffer, self.used, 3 * count);
        self.used += 3 * count;
        self.widths.add(line as usize, count as u32);
        self.line = line;
    }
}
