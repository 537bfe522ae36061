//! The latches as text.
ghost use Rattle.std.specs.Prelude.{◌≡◌, false};
ghost use Rattle.vga_bits.specs.Tracked.{inner_of, has_failed, WritesWholeOrPrefix};
ghost use Rattle.vga_show.specs.Latches.{latches_text as latches_text_of};

use super::text::{DumpText, push_spaced_byte};
use std::io::Write;
use vga_bits::{Fault, Tracked, write_whole};
use vga_card::Card;

/// The line of the latches.
#[tactic(auto, using(crate::proofs::TextLemmas::joins))]
fn latches_text(card: &Card) -> DumpText
    ensures { result ≡ latches_text_of card.now }
{
    let latches = card.latches();
    let mut text = DumpText::new();
    text.push(b"latches");
    push_spaced_byte(&mut text, latches.byte(0));
    push_spaced_byte(&mut text, latches.byte(1));
    push_spaced_byte(&mut text, latches.byte(2));
    push_spaced_byte(&mut text, latches.byte(3));
    text.push(b"\n");
    text
}

/// Writes the four latches in hexadecimal, from plane 0 on: `latches 00 00 00 00` and a newline.
/// The writer must not have failed before.
///
/// The only error is `WriteFault`: the writer failed, and has a prefix of the text.
pub fn dump_latches<W: Write>(out: &mut Tracked<W>, card: &Card) -> Result<(), Fault>
    requires { has_failed out.old ≡ false }
    ensures { WritesWholeOrPrefix (W.contents (inner_of out.old)) (W.contents (inner_of out.new))
        (has_failed out.new) result (latches_text_of card.now) }
{
    write_whole(out, latches_text(card).as_slice())
}
