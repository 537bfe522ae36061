//! The video BIOS's data as text.
ghost use Rattle.std.specs.Prelude.{◌≡◌, ◌+◌, ◌≤◌, ◌++◌, length, false};
ghost use Rattle.vga_bits.specs.Tracked.{inner_of, has_failed, WritesWholeOrPrefix};
ghost use Rattle.vga_show.specs.Lines.{longest_dump_len, words_after_blanks};
ghost use Rattle.vga_show.specs.Bda.{mode_columns_size_and_start_words, cursor_position_words, remaining_data_words};
ghost use Rattle.vga_show.specs.Bda.{bda_text as bda_text_of};

use super::text::{DumpText, push_byte_field, push_spaced_word, push_word_field};
use bios_modes::Bda;
use std::io::Write;
use vga_bits::{Fault, Tracked, write_whole};

/// Appends the mode, its columns, the size of a page, and the start of the active page.
#[tactic(auto, using(crate::proofs::TextLemmas::joins), unfolding(crate::specs::Bda::mode_columns_size_and_start_words))]
fn push_mode_columns_size_and_start(text: &mut DumpText, bda: &Bda)
    requires { length text.old + 39 ≤ longest_dump_len }
    ensures items { text.new ≡ text.old ++ words_after_blanks (mode_columns_size_and_start_words bda.now) }
    ensures len { length text.new ≡ length text.old + 39 }
{
    push_byte_field(text, b"mode", bda.mode());
    push_word_field(text, b"cols", bda.columns());
    push_word_field(text, b"size", bda.size());
    push_word_field(text, b"start", bda.start());
}

/// Appends the cursor positions on the eight pages.
#[tactic(auto, using(crate::proofs::TextLemmas::listing))]
fn push_cursor_positions(text: &mut DumpText, bda: &Bda)
    requires { length text.old + 43 ≤ longest_dump_len }
    ensures items { text.new ≡ text.old ++ words_after_blanks (cursor_position_words bda.now) }
    ensures len { length text.new ≡ length text.old + 43 }
{
    text.push(b" at");
    for i in 0..8 {
        push_spaced_word(text, bda.cursor_place(i));
    }
}

/// Appends the other data.
#[tactic(auto, using(crate::proofs::TextLemmas::joins), unfolding(crate::specs::Bda::remaining_data_words))]
fn push_remaining_data(text: &mut DumpText, bda: &Bda)
    requires { length text.old + 48 ≤ longest_dump_len }
    ensures items { text.new ≡ text.old ++ words_after_blanks (remaining_data_words bda.now) }
    ensures len { length text.new ≡ length text.old + 48 }
{
    push_word_field(text, b"type", bda.cursor_type());
    push_byte_field(text, b"page", bda.page());
    push_word_field(text, b"crtc", bda.crtc_address());
    push_byte_field(text, b"last", bda.last_row());
    push_word_field(text, b"height", bda.height());
}

/// The line of the data.
#[tactic(auto, using(crate::proofs::TextLemmas::joins))]
fn bda_text(bda: &Bda) -> DumpText
    ensures { result ≡ bda_text_of bda.now }
{
    let mut text = DumpText::new();
    text.push(b"bda");
    push_mode_columns_size_and_start(&mut text, bda);
    push_cursor_positions(&mut text, bda);
    push_remaining_data(&mut text, bda);
    text.push(b"\n");
    text
}

/// Writes the video BIOS's data in hexadecimal: `bda mode 03 cols 0050 size 1000 start 0000 at`,
/// the cursor positions on the eight pages, `type 0D0E page 00 crtc 03D4 last 18 height 0010` and a
/// newline. The writer must not have failed before.
///
/// The only error is `WriteFault`: the writer failed, and has a prefix of the text.
pub fn dump_bda<W: Write>(out: &mut Tracked<W>, bda: &Bda) -> Result<(), Fault>
    requires { has_failed out.old ≡ false }
    ensures { WritesWholeOrPrefix (W.contents (inner_of out.old)) (W.contents (inner_of out.new))
        (has_failed out.new) result (bda_text_of bda.now) }
{
    write_whole(out, bda_text(bda).as_slice())
}
