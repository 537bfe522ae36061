//! Bytes of a plane as text.
ghost use Rattle.std.specs.Prelude.{◌≡◌, ◌+◌, ◌*◌, ◌<◌, ◌≤◌, ◌++◌, length, false};
ghost use Rattle.vga_bits.specs.Tracked.{inner_of, has_failed, WritesWholeOrPrefix};
ghost use Rattle.vga_planes.specs.Planes.{byte_at};
ghost use Rattle.vga_show.specs.Lines.{longest_dump_len, two_hex_digits_each, words_after_blanks};
ghost use Rattle.vga_show.specs.Plane.{plane_text as plane_text_of};

use super::text::{DumpText, push_spaced_byte, push_spaced_word};
use std::io::Write;
use vga_bits::{Fault, Tracked, write_whole};
use vga_card::Card;
use vga_planes::Planes;

/// Appends a blank and two digits for each byte of a plane, from an offset on.
#[tactic(auto, using(crate::proofs::TextLemmas::listing))]
fn push_plane_bytes(text: &mut DumpText, planes: &Planes, plane: usize, offset: u16, count: u16)
    requires plane { plane < 4 }
    requires end { offset + count ≤ 65536 }
    requires room { length text.old + 3 * count ≤ longest_dump_len }
    ensures items { text.new ≡ text.old ++ words_after_blanks
        (two_hex_digits_each (byte_at planes.now plane) offset count) }
    ensures len { length text.new ≡ length text.old + 3 * count }
{
    for i in 0..count {
        push_spaced_byte(text, planes.byte(plane, offset + i));
    }
}

/// The line of bytes of a plane.
fn plane_text(card: &Card, plane: u8, offset: u16, count: u16) -> DumpText
    requires plane { plane < 4 }
    requires count { count ≤ 256 }
    requires end { offset + count ≤ 65536 }
    ensures { result ≡ plane_text_of card.now plane offset count }
{
    let mut text = DumpText::new();
    text.push(b"plane ");
    text.push(&[b'0' + plane]);
    push_spaced_word(&mut text, offset);
    text.push(b":");
    push_plane_bytes(&mut text, card.planes(), plane as usize, offset, count);
    text.push(b"\n");
    text
}

/// Writes bytes of a plane in hexadecimal, from an offset on: `plane 2 B8A0: 00 41` and a newline.
/// The plane is 0 to 3. There are 1 to 256 bytes, none past the plane's end. The writer must not
/// have failed before.
///
/// The only error is `WriteFault`: the writer failed, and has a prefix of the text.
pub fn dump_plane<W: Write>(
    out: &mut Tracked<W>,
    card: &Card,
    plane: u8,
    offset: u16,
    count: u16,
) -> Result<(), Fault>
    requires writer { has_failed out.old ≡ false }
    requires plane { plane < 4 }
    requires some { 1 ≤ count }
    requires count { count ≤ 256 }
    requires end { offset + count ≤ 65536 }
    ensures { WritesWholeOrPrefix (W.contents (inner_of out.old)) (W.contents (inner_of out.new))
        (has_failed out.new) result (plane_text_of card.now plane offset count) }
{
    write_whole(out, plane_text(card, plane, offset, count).as_slice())
}
