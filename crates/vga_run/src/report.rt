//! The report of a run.
ghost use Rattle.std.specs.Prelude.{◌≡◌, ◌+◌, ◌*◌, ◌<◌, ◌≤◌, ◌++◌, length, false, OnOk, ◌^◌};
ghost use Rattle.std.specs.Prelude.{codes, Ok, Some, IfOk, IfSome};
ghost use Rattle.std.specs.Prelude.{decimal};
ghost use Rattle.vga_bits.specs.Refusal.{refusal_name};
ghost use Rattle.vga_bits.specs.Tracked.{inner_of, has_failed, WritesWholeOrPrefix};
ghost use Rattle.vga_card.specs.Frames.{IsPictureInBounds};
ghost use Rattle.vga_card.specs.Picture.{most_dots_of_a_line, most_lines_of_a_frame};
ghost use Rattle.vga_run.specs.Answer.{Picture, Ragged, of_drawn, of_dump};
ghost use Rattle.vga_run.specs.Step.{after_step, after_steps, dump_refusal, dump_text};
ghost use Rattle.vga_run.specs.Run.{IsTakenOrNot, WritesStep, WritesReport};
ghost use Rattle.vga_script.specs.Step.{IsInRange, AreInRange};
ghost use Rattle.vga_script.specs.declared.step.Step.TheVariants.{Int};
ghost use Rattle.vga_script.specs.DumpRange.{IsShownInRange};
ghost use Rattle.vga_run.specs.Report.{line as line_of};
ghost use Rattle.vga_run.specs.Report.{line_before_picture as picture_line_of, closing_dumps};
ghost use Rattle.vga_show.specs.Ppm.{ppm};
ghost use Rattle.bios_modes.specs.Valid.{IsValid};

use super::answer::Answer;
use super::machine::Machine;
use super::numbered_line::NumberedLine;
use super::served::write_reply;
use super::step_line::{Line, line_of_number, put_answer};
use bios_services::{Regs, ServiceError, int10};
use std::alloc::Global;
use std::io::Write;
use vga_bits::{Fault, Refusal, Tracked, write_whole};
use vga_card::Drawn;
use vga_script::{Shown, Step};
use vga_show::{
    dump_bda, dump_beam, dump_cells, dump_dac, dump_latches, dump_plane, dump_regs, ppm_length,
    write_ppm,
};

/// The line of step n before a picture of `length` bytes.
#[tactic(auto, unfolding(crate::specs::Report::line_before_picture, crate::specs::Report::number_text))]
fn line_before_picture(n: usize, length: u32) -> Line
    ensures { result ≡ picture_line_of n length }
{
    let mut line = line_of_number(n);
    line.push(b"picture ");
    line.push_decimal(length);
    line.push(b"\n");
    line
}

/// Writes a picture of `width` by `height` dots, and a newline.
#[tactic(auto, using(vga_bits::proofs::WritingLemmas::writes_after, vga_bits::proofs::WritingLemmas::prefix_of_more))]
fn write_ppm_and_newline<W: Write>(
    out: &mut Tracked<W>,
    width: u32,
    height: u32,
    bytes: &[u8],
) -> Result<(), Fault>
    requires { has_failed out.old ≡ false }
    ensures { WritesWholeOrPrefix (W.contents (inner_of out.old)) (W.contents (inner_of out.new))
        (has_failed out.new) result (ppm width height bytes.now ++ codes "\n") }
{
    write_ppm(out, width, height, bytes)?;
    write_whole(out, b"\n")
}

/// Writes the line of step n and its picture, of `width` by `height` dots.
fn write_picture<W: Write>(
    out: &mut Tracked<W>,
    n: usize,
    width: u32,
    height: u32,
    bytes: &[u8],
) -> Result<(), Fault>
    requires writer { has_failed out.old ≡ false }
    requires width { width ≤ most_dots_of_a_line }
    requires height { height ≤ most_lines_of_a_frame }
    requires whole { length bytes.now ≡ 3 * (width * height) }
    ensures { WritesWholeOrPrefix (W.contents (inner_of out.old)) (W.contents (inner_of out.new))
        (has_failed out.new) result (line_of n (Picture width height bytes.now)) }
{
    let line = line_before_picture(n, ppm_length(width, height));
    write_whole(out, line.as_slice())?;
    write_ppm_and_newline(out, width, height, bytes)
}

/// Writes the line of step n for a ragged frame.
#[tactic(auto, unfolding(crate::specs::Report::line, crate::specs::Report::number_text), using(std::proofs::lemmas::List::append_assoc))]
fn write_ragged<W: Write>(out: &mut Tracked<W>, n: usize) -> Result<(), Fault>
    requires { has_failed out.old ≡ false }
    ensures { WritesWholeOrPrefix (W.contents (inner_of out.old)) (W.contents (inner_of out.new))
        (has_failed out.new) result (line_of n Ragged) }
{
    let mut line = line_of_number(n);
    line.push(b"ragged\n");
    write_whole(out, line.as_slice())
}

/// Writes what a frame answers as step n.
#[inline(never)]
fn write_drawn<W: Write>(out: &mut Tracked<W>, n: usize, drawn: Drawn<'_>) -> Result<(), Fault>
    requires writer { has_failed out.old ≡ false }
    requires few { IsPictureInBounds drawn }
    ensures { WritesWholeOrPrefix (W.contents (inner_of out.old)) (W.contents (inner_of out.new))
        (has_failed out.new) result (line_of n (of_drawn drawn.entry)) }
{
    match drawn {
        Drawn::Picture(width, height, bytes) => write_picture(out, n, width, height, bytes),
        Drawn::Ragged => write_ragged(out, n),
    }
}

/// Writes the dump of what a step shows. If the dump is refused, it returns the reason and writes
/// nothing.
#[tactic(auto, unfolding(crate::specs::Step::dump_text, crate::specs::Step::dump_refusal))]
pub fn write_dump<W: Write>(
    out: &mut Tracked<W>,
    machine: &Machine,
    shown: Shown,
) -> Result<Option<Refusal>, Fault>
    requires writer { has_failed out.old ≡ false }
    requires range { IsShownInRange shown }
    requires valid { IsValid machine.now.bda }
    ensures text { WritesWholeOrPrefix (W.contents (inner_of out.old)) (W.contents (inner_of out.new))
        (has_failed out.new) result (dump_text machine.now shown) }
    ensures answer { IfOk result (λ refusal. refusal ≡ dump_refusal machine.now shown) }
    ensures refused { IfSome (dump_refusal machine.now shown) (λ why. (result ≡ Ok (Some why))
        × (out.new ≡ out.old)) }
{
    match shown {
        Shown::Registers => dump_regs(out, &machine.card)?,
        Shown::Dac { index } => dump_dac(out, &machine.card, index)?,
        Shown::Beam => dump_beam(out, &machine.card)?,
        Shown::Latches => dump_latches(out, &machine.card)?,
        Shown::Plane {
            plane,
            offset,
            count,
        } => dump_plane(out, &machine.card, plane, offset, count)?,
        Shown::BiosData => dump_bda(out, &machine.bda)?,
        Shown::Cells => return Ok(dump_cells(out, &machine.card, &machine.bda)?.err()),
    }
    Ok(None)
}

/// Writes the end of a line that has its number already: why the step is refused.
fn write_refusal<W: Write>(out: &mut Tracked<W>, why: Refusal) -> Result<(), Fault>
    requires { has_failed out.old ≡ false }
    ensures { WritesWholeOrPrefix (W.contents (inner_of out.old)) (W.contents (inner_of out.new))
        (has_failed out.new) result (refusal_name why ++ codes "\n") }
{
    let mut text = Line::new();
    put_answer(&mut text, 0, Answer::Refused(why));
    write_whole(out, text.as_slice())
}

/// Writes the number of step n, and then the dump of what it shows, or why the dump is refused.
#[tactic(auto, using(crate::proofs::ReportLemmas::dump_line, vga_bits::proofs::WritingLemmas::writes_after, vga_bits::proofs::WritingLemmas::prefix_of_more))]
#[inline(never)]
fn write_shown<W: Write>(
    out: &mut Tracked<W>,
    n: usize,
    machine: &Machine,
    shown: Shown,
) -> Result<(), Fault>
    requires writer { has_failed out.old ≡ false }
    requires range { IsShownInRange shown }
    requires valid { IsValid machine.now.bda }
    ensures { WritesWholeOrPrefix (W.contents (inner_of out.old)) (W.contents (inner_of out.new))
        (has_failed out.new) result
        (line_of n (of_dump (dump_refusal machine.now shown) (dump_text machine.now shown))) }
{
    write_whole(out, line_of_number(n).as_slice())?;
    match write_dump(out, machine, shown)? {
        None => Ok(()),
        Some(why) => write_refusal(out, why),
    }
}

/// Calls the video BIOS, and writes what the call answers as the line of step n.
#[tactic(auto, unfolding(crate::specs::Step::after_int10, crate::specs::Step::answer_to, crate::specs::Step::after_step))]
#[inline(never)]
fn call_bios_and_write_answer<W: Write>(
    alloc: Global,
    out: &mut Tracked<W>,
    line: &mut NumberedLine,
    machine: &mut Machine,
    regs: Regs,
    block: &[u8],
) -> Result<(), Fault>
    requires writer { has_failed out.old ≡ false }
    requires valid { IsValid machine.old.bda }
    ensures text { WritesStep (W.contents (inner_of out.old)) (W.contents (inner_of out.new))
        (has_failed out.new) result machine.old line.old
        (Int regs.ax regs.bx regs.cx regs.dx block.now) }
    ensures number { line.new ≡ line.old }
    ensures after { OnOk result (machine.new ≡ after_step machine.old
        (Int regs.ax regs.bx regs.cx regs.dx block.now)) }
    ensures either { IsTakenOrNot machine.old
        (Int regs.ax regs.bx regs.cx regs.dx block.now) machine.new }
    ensures valid { IsValid machine.new.bda }
{
    let outcome = int10(
        alloc,
        &mut machine.card,
        &mut machine.bda,
        &machine.fonts,
        regs,
        block,
    );
    match outcome {
        Ok(reply) => write_reply(out, line.number(), &reply),
        Err(ServiceError::Refused(refusal)) => line.write(out, Answer::Refused(refusal)),
        Err(ServiceError::OutOfMemory) => Err(Fault::OutOfMemory),
    }
}

/// Takes a step, and writes what it answers as the line with its number.
#[tactic(auto, using(crate::proofs::ReportLemmas::step_is_written), unfolding(crate::specs::Step::answer_to, crate::specs::Step::after_step))]
#[inline(always)]
pub(crate) fn take_and_write_step<W: Write>(
    alloc: Global,
    out: &mut Tracked<W>,
    line: &mut NumberedLine,
    machine: &mut Machine,
    step: &Step<'_>,
) -> Result<(), Fault>
    requires writer { has_failed out.old ≡ false }
    requires range { IsInRange step.now }
    requires valid { IsValid machine.old.bda }
    ensures text { WritesStep (W.contents (inner_of out.old)) (W.contents (inner_of out.new))
        (has_failed out.new) result machine.old line.old step.now }
    ensures number { line.new ≡ line.old }
    ensures after { OnOk result (machine.new ≡ after_step machine.old step.now) }
    ensures either { IsTakenOrNot machine.old step.now machine.new }
    ensures valid { IsValid machine.new.bda }
{
    let answer = match step {
        Step::Out { port, value } => Answer::of_write(machine.card.out(*port, *value)),
        Step::OutWord { port, value } => Answer::of_write(machine.card.out_word(*port, *value)),
        Step::In { port } => Answer::of_byte(machine.card.inp(*port)),
        Step::InWord { port } => Answer::of_word(machine.card.inp_word(*port)),
        Step::Put { address, value } => Answer::of_write(machine.card.put(*address, *value)),
        Step::PutWord { address, value } => Answer::of_write(
            machine.card.put_word(*address, *value),
        ),
        Step::Get { address } => Answer::of_byte(machine.card.get(*address)),
        Step::GetWord { address } => Answer::of_word(machine.card.get_word(*address)),
        Step::Int {
            ax,
            bx,
            cx,
            dx,
            block,
        } => {
            let regs = Regs {
                ax: *ax,
                bx: *bx,
                cx: *cx,
                dx: *dx,
            };
            return call_bios_and_write_answer(alloc, out, line, machine, regs, block.as_slice());
        }
        Step::Advance { dots } => Answer::of_write(machine.card.advance(*dots)),
        Step::Frame => return write_drawn(out, line.number(), machine.card.frame()),
        Step::Show { shown } => return write_shown(out, line.number(), machine, *shown),
    };
    line.write(out, answer)
}

/// Takes the steps on this machine, and writes a line for each. The first has the number n.
#[tactic(auto, using(crate::proofs::ReportLemmas::reported_none, crate::proofs::ReportLemmas::reported_all))]
fn take_and_write_steps<W: Write>(
    alloc: Global,
    out: &mut Tracked<W>,
    machine: &mut Machine,
    first: usize,
    steps: &[Step<'_>],
) -> Result<(), Fault>
    requires writer { has_failed out.old ≡ false }
    requires numbers { first + length steps.now < 2 ^ 64 }
    requires range { AreInRange steps.now }
    requires valid { IsValid machine.old.bda }
    ensures text { WritesReport (W.contents (inner_of out.old)) (W.contents (inner_of out.new))
        (has_failed out.new) result machine.old first steps.now }
    ensures after { OnOk result (machine.new ≡ after_steps machine.old steps.now) }
    ensures valid { IsValid machine.new.bda }
{
    let mut line = NumberedLine::of_step(first);
    for step in steps {
        take_and_write_step(alloc, out, &mut line, machine, step)?;
        line.count_up();
    }
    Ok(())
}

/// Takes the closing dumps of the machine. The first of them has the number `first`.
pub(crate) fn write_closing_dumps<W: Write>(
    alloc: Global,
    out: &mut Tracked<W>,
    machine: &mut Machine,
    first: usize,
) -> Result<(), Fault>
    requires writer { has_failed out.old ≡ false }
    requires numbers { first + length closing_dumps < 2 ^ 64 }
    requires valid { IsValid machine.old.bda }
    ensures text { WritesReport (W.contents (inner_of out.old)) (W.contents (inner_of out.new))
        (has_failed out.new) result machine.old first closing_dumps }
    ensures after { OnOk result (machine.new ≡ after_steps machine.old closing_dumps) }
    ensures valid { IsValid machine.new.bda }
{
    let last_dumps = [
        Step::Show {
            shown: Shown::Registers,
        },
        Step::Show { shown: Shown::Beam },
        Step::Show {
            shown: Shown::Latches,
        },
        Step::Show {
            shown: Shown::BiosData,
        },
    ];
    take_and_write_steps(alloc, out, machine, first, &last_dumps)
}
