//! The line of a step.
ghost use Rattle.std.specs.Prelude.{◌≡◌, ◌+◌, ◌≤◌, ◌++◌, length, take, false, codes};
ghost use Rattle.vga_bits.specs.Tracked.{inner_of, has_failed, WritesWholeOrPrefix};
ghost use Rattle.vga_run.specs.Answer.{Short};
ghost use Rattle.vga_run.specs.Report.{answer_text, line, number_text};

use super::answer::Answer;
use std::io::Write;
use vga_bits::{Fault, TextBuffer, Tracked, hex_digit, write_whole};

/// Room for the longest text that is built here: a number of at most 20 digits, a blank, and four
/// registers of 31 bytes.
const LINE_LEN: usize = 52;

/// The line of a step, or its first part.
pub(crate) type Line = TextBuffer<LINE_LEN>;

/// Replaces what follows the first `prefix` bytes of a line by three bytes. In most cases it has
/// three bytes already, and they are overwritten in place.
#[tactic(auto, using(crate::proofs::NumberLemmas::three_put))]
#[inline(always)]
fn replace_by_three_bytes(line: &mut Line, prefix: usize, bytes: [u8; 3])
    requires within { prefix ≤ length line.old }
    requires short { prefix ≤ 21 }
    ensures { line.new ≡ take prefix line.old ++ bytes }
{
    if line.len() == prefix + 3 {
        line.set(prefix, bytes[0]);
        line.set(prefix + 1, bytes[1]);
        line.set(prefix + 2, bytes[2]);
    } else {
        line.replace_end(prefix, &bytes);
    }
}

/// Replaces what follows the first `prefix` bytes of a line by the text of an answer and a newline.
/// Most answers have two digits or letters, and are written in place.
#[tactic(auto, using(crate::proofs::ReportLemmas::name_is_short, vga_bits::proofs::HexLemmas::hex_of_byte))]
#[inline(always)]
pub(crate) fn put_answer(line: &mut Line, prefix: usize, answer: Answer)
    requires within { prefix ≤ length line.old }
    requires short { prefix ≤ 21 }
    ensures { line.new ≡ take prefix line.old ++ (answer_text answer ++ codes "\n") }
{
    match answer {
        Answer::Done => replace_by_three_bytes(line, prefix, *b"ok\n"),
        Answer::Byte(value) => replace_by_three_bytes(
            line,
            prefix,
            [hex_digit(value / 16), hex_digit(value % 16), b'\n'],
        ),
        Answer::Word(value) => {
            line.truncate(prefix);
            line.push_hex_word(value);
            line.push(b"\n");
        }
        Answer::Refused(refusal) => {
            line.replace_end(prefix, refusal.name().as_bytes());
            line.push(b"\n");
        }
    }
}

/// Replaces a line by the number of a step and a blank.
#[tactic(auto, unfolding(crate::specs::Report::number_text))]
pub(crate) fn replace_line_by_number(line: &mut Line, n: usize)
    ensures items { line.new ≡ number_text n }
    ensures len { length line.new ≤ 21 }
{
    line.truncate(0);
    line.push_decimal_size(n);
    line.push(b" ");
}

/// The line of a step's number and a blank.
pub(crate) fn line_of_number(n: usize) -> Line
    ensures items { result ≡ number_text n }
    ensures len { length result ≤ 21 }
{
    let mut line = Line::new();
    replace_line_by_number(&mut line, n);
    line
}

/// Writes a text of `LEN` bytes. The compiler knows `LEN`, so a writer copies the text without a
/// call.
#[inline(always)]
fn write_exact<const LEN: usize, W: Write>(out: &mut Tracked<W>, text: &[u8]) -> Result<(), Fault>
    requires writer { has_failed out.old ≡ false }
    requires len { length text.now ≡ LEN }
    ensures { WritesWholeOrPrefix (W.contents (inner_of out.old)) (W.contents (inner_of out.new))
        (has_failed out.new) result text.now }
{
    write_whole(out, text.split_at(LEN).0)
}

/// Writes a line. Short answers after numbers of six to eight digits are copied without a call.
#[inline(always)]
pub(crate) fn write_text<W: Write>(out: &mut Tracked<W>, text: &[u8]) -> Result<(), Fault>
    requires { has_failed out.old ≡ false }
    ensures { WritesWholeOrPrefix (W.contents (inner_of out.old)) (W.contents (inner_of out.new))
        (has_failed out.new) result text.now }
{
    match text.len() {
        10 => write_exact::<10, W>(out, text),
        11 => write_exact::<11, W>(out, text),
        12 => write_exact::<12, W>(out, text),
        _ => write_whole(out, text),
    }
}
