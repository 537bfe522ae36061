//! The beam as text.
ghost use Rattle.std.specs.Prelude.{◌≡◌, ◌+◌, ◌≤◌, ◌++◌, length, false};
ghost use Rattle.vga_bits.specs.Tracked.{inner_of, has_failed, WritesWholeOrPrefix};
ghost use Rattle.vga_show.specs.Lines.{longest_dump_len, words_after_blanks};
ghost use Rattle.vga_show.specs.Beam.{beam_position_words, beam_counter_words};
ghost use Rattle.vga_show.specs.Beam.{beam_text_with_row_count as beam_line_of};
ghost use Rattle.vga_show.specs.Beam.{beam_text};

use super::text::{DumpText, push_decimal_field, push_word_field};
use std::io::Write;
use vga_bits::{Fault, Tracked, write_whole};
use vga_card::Card;
use vga_crtc::Beam;

/// Appends the position of the beam.
#[tactic(auto, using(crate::proofs::TextLemmas::joins), unfolding(crate::specs::Beam::beam_position_words))]
fn push_beam_position(text: &mut DumpText, beam: &Beam)
    requires { length text.old + 64 ≤ longest_dump_len }
    ensures items { text.new ≡ text.old ++ words_after_blanks (beam_position_words beam.now) }
    ensures len { length text.new ≤ length text.old + 64 }
{
    push_decimal_field(text, b"frame", beam.frame as u32);
    push_decimal_field(text, b"line", beam.line as u32);
    push_decimal_field(text, b"char", beam.character as u32);
    push_decimal_field(text, b"dot", beam.dot as u32);
}

/// Appends the counters of the beam.
#[tactic(auto, using(crate::proofs::TextLemmas::joins), unfolding(crate::specs::Beam::beam_counter_words))]
fn push_beam_counters(text: &mut DumpText, beam: &Beam)
    requires { length text.old + 65 ≤ longest_dump_len }
    ensures items { text.new ≡ text.old ++ words_after_blanks (beam_counter_words beam.now) }
    ensures len { length text.new ≤ length text.old + 65 }
{
    push_word_field(text, b"base", beam.base);
    push_decimal_field(text, b"scan", beam.scan as u32);
    push_decimal_field(text, b"half", beam.half as u32);
    push_decimal_field(text, b"split", beam.split as u32);
}

/// The line of the beam, with this number of rows.
#[tactic(auto, using(crate::proofs::TextLemmas::joins))]
pub(crate) fn beam_text_with_row_count(beam: &Beam, count: u16) -> DumpText
    ensures { result ≡ beam_line_of beam.now count }
{
    let mut text = DumpText::new();
    text.push(b"beam");
    push_beam_position(&mut text, beam);
    push_beam_counters(&mut text, beam);
    push_decimal_field(&mut text, b"rows", count as u32);
    text.push(b"\n");
    text
}

/// Writes the beam, and how many rows are drawn of the frame under way: `beam frame 0 line 0 char 0
/// dot 0 base 0000 scan 0 half 0 split 0 rows 0` and a newline. The base is hexadecimal, all other
/// numbers are decimal. The writer must not have failed before.
///
/// The only error is `WriteFault`: the writer failed, and has a prefix of the text.
pub fn dump_beam<W: Write>(out: &mut Tracked<W>, card: &Card) -> Result<(), Fault>
    requires { has_failed out.old ≡ false }
    ensures { WritesWholeOrPrefix (W.contents (inner_of out.old)) (W.contents (inner_of out.new))
        (has_failed out.new) result (beam_text card.now) }
{
    let (beam, count) = card.beam();
    write_whole(out, beam_text_with_row_count(&beam, count).as_slice())
}
