//! Printing a script as text.
ghost use Rattle.std.specs.Prelude.{◌≡◌, ◌+◌, ◌≤◌, ◌<◌, ◌++◌, ◌∷◌, [], codes, decimal, length};
ghost use Rattle.std.specs.Prelude.{IfOk, IsOkUnless, OnOk};
ghost use Rattle.std.specs.List.{flat_map};
ghost use Rattle.hex.specs.Hex.{encode_upper};
ghost use Rattle.vga_bits.specs.Hex.{hex};
ghost use Rattle.vga_script.specs.Beginning.{items_in, steps_in};
ghost use Rattle.vga_script.specs.Item.{expanded, step_limit};
ghost use Rattle.vga_script.specs.Printing.{line_of_words, printed_script, printed_item};
ghost use Rattle.vga_script.specs.Printing.{printed_line, printed_steps, version_line};
ghost use Rattle.vga_script.specs.Spelled.{HasSpelledRepeatBody, spelled_item};
ghost use Rattle.vga_script.specs.Spelling.{SpellsItems, SpellsSteps, script_limit};

use super::dump_range::Shown;
use super::items::item_at;
use super::opcode::HEADER_LEN;
use super::output::append;
use super::printed_line::{Line, named_line, with_address, with_port};
use super::script::Script;
use super::spelled_item::SpelledItem;
use super::step::Step;
use super::step_bytes::step_at;
use super::version::Version;
use std::alloc::Global;
use vga_bits::Fault;

/// Appends a line and a newline to a text. Its only error is `OutOfMemory`.
fn end_line(out: &mut Vec<u8>, mut line: Line) -> Result<(), Fault>
    requires { length line < 64 }
    ensures ok { OnOk result (out.new.items ≡ out.old.items ++ (line ++ 0x0A ∷ [])) }
    ensures err { IsOkUnless result Fault.OutOfMemory }
{
    line.push(b"\n");
    append(out, line.as_slice())
}

/// Appends a line to a text, with a value of `digits` hexadecimal digits and a newline at its end.
/// Its only error is `OutOfMemory`.
fn end_with_value(out: &mut Vec<u8>, mut line: Line, value: u16, digits: usize) -> Result<(), Fault>
    requires line { length line ≤ 25 }
    requires digits { digits ≤ 4 }
    ensures ok { OnOk result (out.new.items ≡ out.old.items
        ++ (line ++ (codes " " ++ (hex digits value ++ 0x0A ∷ [])))) }
    ensures err { IsOkUnless result Fault.OutOfMemory }
{
    line.push(b" ");
    line.push_hex(value as u32, digits);
    end_line(out, line)
}

/// Prints a step that draws a frame. Its only error is `OutOfMemory`.
#[tactic(auto, unfolding(crate::specs::Printing::line_of_words))]
fn print_frame(out: &mut Vec<u8>) -> Result<(), Fault>
    ensures ok { OnOk result (out.new.items ≡ out.old.items ++ line_of_words (codes "frame" ∷ [])) }
    ensures err { IsOkUnless result Fault.OutOfMemory }
{
    append(out, b"frame\n")
}

/// Prints an advance of the clock. Its only error is `OutOfMemory`.
#[tactic(auto, unfolding(crate::specs::Printing::line_of_words))]
fn print_advance(out: &mut Vec<u8>, dots: u32) -> Result<(), Fault>
    ensures ok { OnOk result (out.new.items ≡ out.old.items
        ++ line_of_words (codes "advance" ∷ decimal dots ∷ [])) }
    ensures err { IsOkUnless result Fault.OutOfMemory }
{
    let mut line = Line::new();
    line.push(b"advance ");
    line.push_decimal(dots);
    end_line(out, line)
}

/// Prints a dump of an entry of the DAC. Its only error is `OutOfMemory`.
#[tactic(auto, unfolding(crate::specs::Printing::line_of_words))]
fn print_dac(out: &mut Vec<u8>, index: u8) -> Result<(), Fault>
    ensures ok { OnOk result (out.new.items ≡ out.old.items
        ++ line_of_words (codes "show" ∷ codes "dac" ∷ hex 2 index ∷ [])) }
    ensures err { IsOkUnless result Fault.OutOfMemory }
{
    let mut line = Line::new();
    line.push(b"show dac ");
    line.push_hex(index as u32, 2);
    end_line(out, line)
}

/// Prints a dump of bytes of a plane. Its only error is `OutOfMemory`.
#[tactic(auto, unfolding(crate::specs::Printing::line_of_words, vga_bits::specs::Hex::hex))]
fn print_plane(out: &mut Vec<u8>, plane: u8, offset: u16, count: u16) -> Result<(), Fault>
    ensures ok { OnOk result (out.new.items ≡ out.old.items
        ++ line_of_words (codes "show" ∷ codes "plane" ∷ hex 1 plane ∷ hex 4 offset ∷ decimal count
        ∷ [])) }
    ensures err { IsOkUnless result Fault.OutOfMemory }
{
    let mut line = Line::new();
    line.push(b"show plane ");
    line.push_hex(plane as u32, 1);
    line.push(b" ");
    line.push_hex(offset as u32, 4);
    line.push(b" ");
    line.push_decimal(count as u32);
    end_line(out, line)
}

/// Prints a dump of the adapter. Its only error is `OutOfMemory`.
#[tactic(auto, unfolding(crate::specs::Printing::line_of_words))]
fn print_shown(out: &mut Vec<u8>, shown: Shown) -> Result<(), Fault>
    ensures ok { OnOk result (out.new.items ≡ out.old.items ++ printed_line (Step.Show shown)) }
    ensures err { IsOkUnless result Fault.OutOfMemory }
{
    match shown {
        Shown::Registers => append(out, b"show regs\n"),
        Shown::Dac { index } => print_dac(out, index),
        Shown::Beam => append(out, b"show beam\n"),
        Shown::Latches => append(out, b"show latches\n"),
        Shown::Plane {
            plane,
            offset,
            count,
        } => print_plane(out, plane, offset, count),
        Shown::BiosData => append(out, b"show bda\n"),
        Shown::Cells => append(out, b"show cells\n"),
    }
}

/// The line of a call of the BIOS, without its block.
fn call_line(ax: u16, bx: u16, cx: u16, dx: u16) -> Line
    ensures items { result ≡ codes "int ax=" ++ (hex 4 ax ++ (codes " bx=" ++ (hex 4 bx
        ++ (codes " cx=" ++ (hex 4 cx ++ (codes " dx=" ++ hex 4 dx)))))) }
    ensures len { length result ≡ 35 }
{
    let mut line = Line::new();
    line.push(b"int ax=");
    line.push_hex(ax as u32, 4);
    line.push(b" bx=");
    line.push_hex(bx as u32, 4);
    line.push(b" cx=");
    line.push_hex(cx as u32, 4);
    line.push(b" dx=");
    line.push_hex(dx as u32, 4);
    line
}

/// Appends a line to a text, then the word `block`, the digits of the block and a newline. Its only
/// error is `OutOfMemory`.
fn append_block(
    alloc: Global,
    out: &mut Vec<u8>,
    line: &mut Line,
    block: &[u8],
) -> Result<(), Fault>
    requires { length line.old ≤ 50 }
    ensures ok { OnOk result (out.new.items ≡ out.old.items ++ (line.old
        ++ (codes " block " ++ (encode_upper block.now ++ 0x0A ∷ [])))) }
    ensures err { IsOkUnless result Fault.OutOfMemory }
{
    line.push(b" block ");
    append(out, line.as_slice())?;
    match hex::encode_upper(alloc, block) {
        Ok(digits) => append(out, digits.as_bytes())?,
        Err(_) => return Err(Fault::OutOfMemory),
    }
    append(out, b"\n")
}

/// Prints a call of the BIOS. Its only error is `OutOfMemory`.
#[tactic(auto, using(crate::proofs::PrintLemmas::call_line, crate::proofs::PrintLemmas::block_line))]
fn print_call(
    alloc: Global,
    out: &mut Vec<u8>,
    ax: u16,
    bx: u16,
    cx: u16,
    dx: u16,
    block: &[u8],
) -> Result<(), Fault>
    ensures ok { OnOk result (out.new.items ≡ out.old.items
        ++ printed_line (Step.Int ax bx cx dx block.now)) }
    ensures err { IsOkUnless result Fault.OutOfMemory }
{
    let mut line = call_line(ax, bx, cx, dx);
    if block.is_empty() {
        end_line(out, line)?;
        Ok(())
    } else {
        append_block(alloc, out, &mut line, block)?;
        Ok(())
    }
}

/// Prints a step. Its only error is `OutOfMemory`.
#[tactic(auto, unfolding(crate::specs::Printing::line_of_words))]
fn print_step(alloc: Global, out: &mut Vec<u8>, step: &Step<'_>) -> Result<(), Fault>
    ensures ok { OnOk result (out.new.items ≡ out.old.items ++ printed_line step.now) }
    ensures err { IsOkUnless result Fault.OutOfMemory }
{
    match step {
        Step::Out { port, value } => {
            let line = with_port(named_line(b"out"), *port);
            end_with_value(out, line, *value as u16, 2)
        }
        Step::OutWord { port, value } => {
            let line = with_port(named_line(b"outw"), *port);
            end_with_value(out, line, *value, 4)
        }
        Step::In { port } => end_line(out, with_port(named_line(b"in"), *port)),
        Step::InWord { port } => end_line(out, with_port(named_line(b"inw"), *port)),
        Step::Put { address, value } => {
            let line = with_address(named_line(b"put"), *address);
            end_with_value(out, line, *value as u16, 2)
        }
        Step::PutWord { address, value } => {
            let line = with_address(named_line(b"putw"), *address);
            end_with_value(out, line, *value, 4)
        }
        Step::Get { address } => end_line(out, with_address(named_line(b"get"), *address)),
        Step::GetWord { address } => end_line(out, with_address(named_line(b"getw"), *address)),
        Step::Int {
            ax,
            bx,
            cx,
            dx,
            block,
        } => print_call(alloc, out, *ax, *bx, *cx, *dx, block.as_slice()),
        Step::Advance { dots } => print_advance(out, *dots),
        Step::Frame => print_frame(out),
        Step::Show { shown } => print_shown(out, *shown),
    }
}

/// Prints the steps that some bytes spell. Its only error is `OutOfMemory`.
#[tactic(auto, using(crate::proofs::BeginningLemmas::step_shorter, crate::proofs::WalkLemmas::steps_begin, crate::proofs::WalkLemmas::steps_go_on))]
fn print_steps(alloc: Global, out: &mut Vec<u8>, bytes: &[u8]) -> Result<(), Fault>
    requires { SpellsSteps bytes.now (steps_in bytes.now) }
    ensures ok { OnOk result (out.new.items ≡ out.old.items ++ printed_steps (steps_in bytes.now)) }
    ensures err { IsOkUnless result Fault.OutOfMemory }
{
    let mut rest = bytes;
    while !rest.is_empty() {
        match step_at(rest) {
            Ok((step, others)) => {
                print_step(alloc, out, &step)?;
                rest = others;
            }
            Err(_) => return Ok(()), // The bytes spell steps.
        }
    }
    Ok(())
}

/// Prints the beginning of a repeat. Its only error is `OutOfMemory`.
#[tactic(auto, unfolding(crate::specs::Printing::line_of_words))]
fn print_repeat_beginning(out: &mut Vec<u8>, count: u16) -> Result<(), Fault>
    ensures ok { OnOk result (out.new.items ≡ out.old.items
        ++ line_of_words (codes "repeat" ∷ decimal count ∷ [])) }
    ensures err { IsOkUnless result Fault.OutOfMemory }
{
    let mut line = Line::new();
    line.push(b"repeat ");
    line.push_decimal(count as u32);
    end_line(out, line)
}

/// Prints the end of a repeat. Its only error is `OutOfMemory`.
#[tactic(auto, unfolding(crate::specs::Printing::line_of_words))]
fn print_repeat_end(out: &mut Vec<u8>) -> Result<(), Fault>
    ensures ok { OnOk result (out.new.items ≡ out.old.items ++ line_of_words (codes "end" ∷ [])) }
    ensures err { IsOkUnless result Fault.OutOfMemory }
{
    append(out, b"end\n")
}

/// Prints an item. Its only error is `OutOfMemory`.
fn print_item(alloc: Global, out: &mut Vec<u8>, item: &SpelledItem<'_>) -> Result<(), Fault>
    requires { HasSpelledRepeatBody item.now }
    ensures ok { OnOk result (out.new.items ≡ out.old.items
        ++ printed_item (spelled_item item.now)) }
    ensures err { IsOkUnless result Fault.OutOfMemory }
{
    match item {
        SpelledItem::Step { step } => print_step(alloc, out, step),
        SpelledItem::Block { count, steps, .. } => {
            print_repeat_beginning(out, *count)?;
            print_steps(alloc, out, steps)?;
            print_repeat_end(out)
        }
    }
}

/// The line that gives the version, or nothing for version 1.
#[tactic(auto, unfolding(crate::specs::Printing::line_of_words))]
fn version_text(version: Version) -> &'static [u8]
    ensures { result.now ≡ version_line version }
{
    match version {
        Version::One => &[],
        Version::Two => b"version 2\n",
    }
}

/// Prints the items that bytes of a script of this version spell. Its only error is `OutOfMemory`.
#[tactic(auto, using(crate::proofs::BeginningLemmas::item_shorter, crate::proofs::WalkLemmas::items_begin, crate::proofs::WalkLemmas::items_go_on))]
fn print_items(
    alloc: Global,
    out: &mut Vec<u8>,
    version: Version,
    bytes: &[u8],
) -> Result<(), Fault>
    requires short { length bytes.now ≤ script_limit }
    requires spelled { SpellsItems version bytes.now (items_in bytes.now) }
    requires few { length (expanded (items_in bytes.now)) ≤ step_limit }
    ensures ok { OnOk result (out.new.items ≡ out.old.items
        ++ flat_map printed_item (items_in bytes.now)) }
    ensures err { IsOkUnless result Fault.OutOfMemory }
{
    let mut rest = bytes;
    while !rest.is_empty() {
        match item_at(rest, 0, version) {
            Ok((item, others)) => {
                print_item(alloc, out, &item)?;
                rest = others;
            }
            Err(_) => return Ok(()), // The bytes spell items.
        }
    }
    Ok(())
}

/// Prints a script as text. The text gives the version, if that is not 1, and has a line for each
/// step, with its name and all its values, and for the beginning and the end of each repeat. It
/// spells the script. The only error is `OutOfMemory`.
#[tactic(auto, using(crate::proofs::StepsLemmas::behind_header, crate::proofs::StepsLemmas::items_spelled))]
pub fn print(alloc: Global, script: &Script) -> Result<Vec<u8>, Fault>
    ensures ok { IfOk result (λ text. text.items ≡ printed_script script.now) }
    ensures err { IsOkUnless result Fault.OutOfMemory }
{
    let version = script.version();
    let (_, items) = script.as_bytes().split_at(HEADER_LEN);
    let mut out = Vec::new(alloc);
    append(&mut out, version_text(version))?;
    print_items(alloc, &mut out, version, items)?;
    Ok(out)
}
