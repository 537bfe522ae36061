//! An entry of the DAC as text.
ghost use Rattle.std.specs.Prelude.{◌≡◌, false};
ghost use Rattle.vga_bits.specs.Tracked.{inner_of, has_failed, WritesWholeOrPrefix};
ghost use Rattle.vga_show.specs.Dac.{entry_text as entry_text_of};

use super::text::{DumpText, push_spaced_byte};
use std::io::Write;
use vga_bits::{Fault, Tracked, write_whole};
use vga_card::Card;

/// The line of an entry.
#[tactic(auto, using(crate::proofs::TextLemmas::joins))]
fn entry_text(card: &Card, index: u8) -> DumpText
    ensures { result ≡ entry_text_of card.now index }
{
    let [red, green, blue] = card.regs().dac.entry(index);
    let mut text = DumpText::new();
    text.push(b"entry");
    push_spaced_byte(&mut text, index);
    text.push(b":");
    push_spaced_byte(&mut text, red);
    push_spaced_byte(&mut text, green);
    push_spaced_byte(&mut text, blue);
    text.push(b"\n");
    text
}

/// Writes an entry of the DAC in hexadecimal, its index and its red, green and blue: `entry 01: 00
/// 00 00` and a newline. The DAC's index and counter stay as they are. The writer must not have
/// failed before.
///
/// The only error is `WriteFault`: the writer failed, and has a prefix of the text.
pub fn dump_dac<W: Write>(out: &mut Tracked<W>, card: &Card, index: u8) -> Result<(), Fault>
    requires { has_failed out.old ≡ false }
    ensures { WritesWholeOrPrefix (W.contents (inner_of out.old)) (W.contents (inner_of out.new))
        (has_failed out.new) result (entry_text_of card.now index) }
{
    write_whole(out, entry_text(card, index).as_slice())
}
