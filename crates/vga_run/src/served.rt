//! Writing what a BIOS call answers.
ghost use Rattle.std.specs.Prelude.{◌≡◌, ◌+◌, ◌≤◌, ◌++◌, length, false, codes};
ghost use Rattle.std.specs.List.{flat_map};
ghost use Rattle.vga_bits.specs.Hex.{two_hex_digits};
ghost use Rattle.vga_bits.specs.Tracked.{inner_of, has_failed, WritesWholeOrPrefix};
ghost use Rattle.bios_services.specs.Tables.{table_bytes};
ghost use Rattle.vga_run.specs.Answer.{Served};
ghost use Rattle.vga_run.specs.Report.{line, number_text, registers_text, table_text};

use super::step_line::{Line, line_of_number};
use bios_services::{Regs, Reply};
use std::io::Write;
use vga_bits::{Fault, Tracked, write_whole};

/// Appends the text of four registers to a line.
#[tactic(auto, using(std::proofs::lemmas::List::append_assoc), unfolding(crate::specs::Report::registers_text))]
fn push_registers(line: &mut Line, regs: Regs)
    requires { length line.old ≤ 21 }
    ensures items { line.new ≡ line.old ++ registers_text regs }
    ensures len { length line.new ≡ length line.old + 31 }
{
    line.push(b"ax=");
    line.push_hex_word(regs.ax);
    line.push(b" bx=");
    line.push_hex_word(regs.bx);
    line.push(b" cx=");
    line.push_hex_word(regs.cx);
    line.push(b" dx=");
    line.push_hex_word(regs.dx);
}

/// Writes the two digits of each byte.
fn write_digits<W: Write>(out: &mut Tracked<W>, bytes: &[u8]) -> Result<(), Fault>
    requires { has_failed out.old ≡ false }
    ensures { WritesWholeOrPrefix (W.contents (inner_of out.old)) (W.contents (inner_of out.new))
        (has_failed out.new) result (flat_map two_hex_digits bytes.now) }
{
    for byte in bytes {
        let mut digits = Line::new();
        digits.push_hex_byte(*byte);
        write_whole(out, digits.as_slice())?;
    }
    Ok(())
}

/// Writes a table that is not empty.
#[tactic(auto, using(vga_bits::proofs::WritingLemmas::writes_after, vga_bits::proofs::WritingLemmas::prefix_of_more))]
fn write_block<W: Write>(out: &mut Tracked<W>, bytes: &[u8]) -> Result<(), Fault>
    requires { has_failed out.old ≡ false }
    ensures { WritesWholeOrPrefix (W.contents (inner_of out.old)) (W.contents (inner_of out.new))
        (has_failed out.new) result (codes " block " ++ flat_map two_hex_digits bytes.now) }
{
    write_whole(out, b" block ")?;
    write_digits(out, bytes)
}

/// Writes a table, unless it is empty.
fn write_table<W: Write>(out: &mut Tracked<W>, bytes: &[u8]) -> Result<(), Fault>
    requires { has_failed out.old ≡ false }
    ensures { WritesWholeOrPrefix (W.contents (inner_of out.old)) (W.contents (inner_of out.new))
        (has_failed out.new) result (table_text bytes.now) }
{
    if bytes.is_empty() {
        return Ok(());
    }
    write_block(out, bytes)
}

/// Writes a table, unless it is empty, and ends the line.
#[tactic(auto, using(vga_bits::proofs::WritingLemmas::writes_after, vga_bits::proofs::WritingLemmas::prefix_of_more))]
fn end_line<W: Write>(out: &mut Tracked<W>, bytes: &[u8]) -> Result<(), Fault>
    requires { has_failed out.old ≡ false }
    ensures { WritesWholeOrPrefix (W.contents (inner_of out.old)) (W.contents (inner_of out.new))
        (has_failed out.new) result (table_text bytes.now ++ codes "\n") }
{
    write_table(out, bytes)?;
    write_whole(out, b"\n")
}

/// The line of step n up to its table: the registers that a BIOS call answers.
fn registers_line(n: usize, regs: Regs) -> Line
    ensures { result ≡ number_text n ++ registers_text regs }
{
    let mut line = line_of_number(n);
    push_registers(&mut line, regs);
    line
}

/// Writes the line of step n: the registers that a BIOS call answers, and a table.
#[tactic(auto, unfolding(crate::specs::Report::line), using(vga_bits::proofs::WritingLemmas::writes_after, vga_bits::proofs::WritingLemmas::prefix_of_more))]
pub(crate) fn write_reply<W: Write>(
    out: &mut Tracked<W>,
    n: usize,
    reply: &Reply,
) -> Result<(), Fault>
    requires { has_failed out.old ≡ false }
    ensures { WritesWholeOrPrefix (W.contents (inner_of out.old)) (W.contents (inner_of out.new))
        (has_failed out.new) result (line n (Served reply.now.regs (table_bytes reply.now.table))) }
{
    write_whole(out, registers_line(n, reply.regs).as_slice())?;
    end_line(out, reply.table.as_slice())
}
