//! A picture as a Netpbm PPM.
ghost use Rattle.std.specs.Prelude.{ℕ, List, ◌≡◌, ◌*◌, ◌≤◌, length, false};
ghost use Rattle.vga_bits.specs.Tracked.{inner_of, has_failed, WritesWholeOrPrefix};
ghost use Rattle.vga_card.specs.Picture.{most_dots_of_a_line, most_lines_of_a_frame};
ghost use Rattle.vga_show.specs.Ppm.{ppm_header, ppm};

use super::text::DumpText;
use std::io::Write;
use vga_bits::{Fault, Tracked, write_whole};

/// The header, which stands before the dots.
#[tactic(auto, unfolding(crate::specs::Ppm::ppm_header))]
fn header(width: u32, height: u32) -> DumpText
    ensures value { result ≡ ppm_header width height }
    ensures short { length result ≤ 28 }
{
    let mut text = DumpText::new();
    text.push(b"P6\n");
    text.push_decimal(width);
    text.push(b" ");
    text.push_decimal(height);
    text.push(b"\n63\n");
    text
}

/// Writes a picture of `width` by `height` dots as a Netpbm PPM. `bytes` are red, green and blue of
/// each dot, 0 to 63 each, row by row. The writer must not have failed before.
///
/// The only error is `WriteFault`: the writer failed, and has a prefix of the PPM.
#[tactic(auto, using(vga_bits::proofs::WritingLemmas::writes_after, vga_bits::proofs::WritingLemmas::prefix_of_more))]
pub fn write_ppm<W: Write>(
    out: &mut Tracked<W>,
    width: u32,
    height: u32,
    bytes: &[u8],
) -> Result<(), Fault>
    requires { has_failed out.old ≡ false }
    ensures { WritesWholeOrPrefix (W.contents (inner_of out.old)) (W.contents (inner_of out.new))
        (has_failed out.new) result (ppm width height bytes.now) }
{
    write_whole(out, header(width, height).as_slice())?;
    write_whole(out, bytes)
}

/// How many bytes the PPM of a picture has. The picture is at most 2,304 dots wide and 1,024 high.
pub fn ppm_length(width: u32, height: u32) -> u32
    requires width { width ≤ most_dots_of_a_line }
    requires height { height ≤ most_lines_of_a_frame }
    ensures { (bytes : List ℕ) → length bytes ≡ 3 * (width * height) →
        result ≡ length (ppm width height bytes) }
{
    header(width, height).len() as u32 + 3 * width * height
}
