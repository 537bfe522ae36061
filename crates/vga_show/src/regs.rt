//! All registers as text.
ghost use Rattle.std.specs.Prelude.{◌≡◌, ◌+◌, ◌*◌, ◌≤◌, [], ◌∷◌, ◌++◌, length, false};
ghost use Rattle.vga_bits.specs.Tracked.{inner_of, has_failed, WritesWholeOrPrefix};
ghost use Rattle.vga_show.specs.Lines.{longest_dump_len};
ghost use Rattle.vga_show.specs.Regs.{misc_line, group_line, attr_line};
ghost use Rattle.vga_show.specs.Regs.{component_letter as component_letter_of, dac_line};
ghost use Rattle.vga_show.specs.Regs.{regs_text as regs_text_of};

use super::text::{DumpText, push_spaced_byte, push_spaced_bytes};
use std::io::Write;
use vga_attr::Attr;
use vga_bits::{Fault, Tracked, write_whole};
use vga_card::{Card, Regs};
use vga_dac::{Component, Dac};

/// Appends the line of the miscellaneous output register.
#[tactic(auto, using(crate::proofs::TextLemmas::joins), unfolding(crate::specs::Regs::misc_line))]
fn push_misc(text: &mut DumpText, misc: u8)
    requires { length text.old + 8 ≤ longest_dump_len }
    ensures items { text.new ≡ text.old ++ misc_line misc }
    ensures len { length text.new ≡ length text.old + 8 }
{
    text.push(b"misc");
    push_spaced_byte(text, misc);
    text.push(b"\n");
}

/// Appends the line of a group: its name, its index, and its registers.
#[tactic(auto, using(crate::proofs::TextLemmas::joins))]
fn push_group(text: &mut DumpText, name: &[u8], index: u8, registers: &[u8])
    requires { length text.old + length name.now + 3 * length registers.now + 5 ≤ longest_dump_len }
    ensures items { text.new ≡ text.old
        ++ group_line name.now index (length registers.now) registers.now }
    ensures len { length text.new
        ≡ length text.old + length name.now + 3 * length registers.now + 5 }
{
    text.push(name);
    push_spaced_byte(text, index);
    text.push(b":");
    push_spaced_bytes(text, registers);
    text.push(b"\n");
}

/// Appends the line of the attribute controller.
#[tactic(auto, using(crate::proofs::TextLemmas::joins), unfolding(crate::specs::Regs::attr_line))]
fn push_attr(text: &mut DumpText, attr: &Attr)
    requires { length text.old + 74 ≤ longest_dump_len }
    ensures items { text.new ≡ text.old ++ attr_line attr.now }
    ensures len { length text.new ≡ length text.old + 74 }
{
    text.push(b"attr");
    push_spaced_byte(text, attr.read_index());
    text.push(if attr.is_data() { b" d:" } else { b" i:" });
    push_spaced_bytes(text, attr.regs());
    text.push(b"\n");
}

/// The first letter of a component.
fn component_letter(component: Component) -> u8
    ensures { component_letter_of component ≡ result ∷ [] }
{
    match component {
        Component::Red => b'r',
        Component::Green => b'g',
        Component::Blue => b'b',
    }
}

/// Appends the line of the DAC.
#[tactic(auto, using(crate::proofs::TextLemmas::joins), unfolding(crate::specs::Regs::dac_line))]
fn push_dac(text: &mut DumpText, dac: &Dac)
    requires { length text.old + 18 ≤ longest_dump_len }
    ensures items { text.new ≡ text.old ++ dac_line dac.now }
    ensures len { length text.new ≡ length text.old + 18 }
{
    let (red, green) = dac.waiting();
    text.push(b"dac");
    push_spaced_byte(text, dac.read_index());
    text.push(&[b' ', component_letter(dac.component())]);
    push_spaced_byte(text, dac.mask());
    push_spaced_byte(text, red);
    push_spaced_byte(text, green);
    text.push(b"\n");
}

/// The six lines of all registers.
#[tactic(auto, using(crate::proofs::TextLemmas::joins), unfolding(crate::specs::Regs::seq_line, crate::specs::Regs::crtc_line, crate::specs::Regs::gfx_line))]
fn regs_text(card: &Card) -> DumpText
    ensures { result ≡ regs_text_of card.now }
{
    let Regs {
        misc,
        host,
        crtc,
        attr,
        dac,
    } = card.regs();
    let mut text = DumpText::new();
    push_misc(&mut text, misc);
    push_group(&mut text, b"seq", host.seq_index(), host.seq());
    push_group(&mut text, b"crtc", crtc.index(), crtc.regs());
    push_group(&mut text, b"gfx", host.gfx_index(), host.gfx());
    push_attr(&mut text, attr);
    push_dac(&mut text, dac);
    text
}

/// Writes all registers in hexadecimal, in six lines that begin with `misc`, `seq`, `crtc`, `gfx`,
/// `attr` and `dac`. In the lines of groups the index follows the name, then a colon and the
/// registers from 0. The line of the attribute controller also has the kind of the next write
/// before its colon: `i` for an index or `d` for data. The line of the DAC has the index, the
/// component that comes next, `r`, `g` or `b`, the mask, and the red and green that wait. No
/// register is read through a port, so nothing changes, the flip-flop included. The writer must not
/// have failed before.
///
/// The only error is `WriteFault`: the writer failed, and has a prefix of the text.
pub fn dump_regs<W: Write>(out: &mut Tracked<W>, card: &Card) -> Result<(), Fault>
    requires { has_failed out.old ≡ false }
    ensures { WritesWholeOrPrefix (W.contents (inner_of out.old)) (W.contents (inner_of out.new))
        (has_failed out.new) result (regs_text_of card.now) }
{
    write_whole(out, regs_text(card).as_slice())
}
