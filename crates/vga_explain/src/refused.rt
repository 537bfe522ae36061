//! Why a step is refused.
ghost use Rattle.std.specs.Prelude.{◌≡◌, IfSome, Some, false};
ghost use Rattle.std.specs.Option.{IsSomeAnd};
ghost use Rattle.bios_modes.specs.Valid.{IsValid};
ghost use Rattle.vga_script.specs.declared.step.Step.TheVariants.{Int, Show};
ghost use Rattle.vga_run.specs.Step.{answer_to};
ghost use Rattle.vga_show.specs.Cells.{cells_refusal};
ghost use Rattle.vga_explain.specs.CycleReasons.{refusal_of_reason as refusal_of_cycle_reason};
ghost use Rattle.vga_explain.specs.Words.{refusal_of_word_reason};
ghost use Rattle.vga_explain.specs.Reasons.{refusal_of_reason};
ghost use Rattle.vga_explain.specs.Refused.{refusal_in_answer, AreNoCells, Explains};
ghost use Rattle.vga_explain.specs.declared.reason.Reason.TheVariants.{Cycle};

use crate::accesses::why_access;
use crate::cycle_reason::CycleReason;
use crate::ports::{why_inp, why_out};
use crate::reason::Reason;
use crate::words::{WordReason, why_access_word, why_inp_word, why_out_word};
use bios_modes::{Bda, is_text};
use bios_services::{Regs, why_call};
use vga_run::machine::Machine;
use vga_script::{Shown, Step};

/// The most dots that a step may advance by.
const MOST_DOTS: u32 = 16_777_216;

/// A cycle of a byte as a step: its reason, if there is one.
fn of_byte(reason: Option<CycleReason>) -> Option<Reason>
    ensures refusal { refusal_of_reason result ≡ refusal_of_cycle_reason reason }
    ensures reason { IfSome result (λ told. IsSomeAnd reason (λ reason.
        told ≡ Cycle false reason)) }
{
    match reason {
        Some(reason) => Some(Reason::Cycle {
            is_high: false,
            reason,
        }),
        None => None,
    }
}

/// A cycle of a word as a step: its reason, if there is one.
fn of_word(word: Option<WordReason>) -> Option<Reason>
    ensures refusal { refusal_of_reason result ≡ refusal_of_word_reason word }
    ensures reason { IfSome result (λ told. IsSomeAnd word (λ word.
        told ≡ Cycle word.is_high word.reason)) }
{
    match word {
        Some(WordReason { is_high, reason }) => Some(Reason::Cycle { is_high, reason }),
        None => None,
    }
}

/// Why a call of the video BIOS is refused, if it is.
#[tactic(auto, using(crate::proofs::AnswerLemmas::int_answer))]
fn why_int10(machine: &Machine, regs: Regs, block: &[u8]) -> Option<Reason>
    requires { IsValid machine.now.bda }
    ensures refusal { refusal_of_reason result ≡ refusal_in_answer (answer_to machine.now
        (Int regs.ax regs.bx regs.cx regs.dx block.now)) }
    ensures reason { IfSome result (Explains machine.now
        (Int regs.ax regs.bx regs.cx regs.dx block.now)) }
{
    match why_call(&machine.bda, regs, block.len()) {
        Some(reason) => Some(Reason::Call { reason }),
        None => None,
    }
}

/// Why there are no cells to show, if there are none.
fn why_no_cells(bda: &Bda) -> Option<Reason>
    ensures refusal { refusal_of_reason result ≡ cells_refusal bda.now.mode }
    ensures reason { IfSome result (AreNoCells bda.now.mode) }
{
    let mode = bda.mode();
    if mode == 0 {
        Some(Reason::NoCellsYet)
    } else if is_text(mode) {
        None
    } else {
        Some(Reason::NoCells { mode })
    }
}

/// Why a dump is refused, if it is.
#[tactic(auto, unfolding(vga_run::specs::Step::answer_to, vga_run::specs::Step::dump_refusal))]
fn why_shown(machine: &Machine, shown: Shown) -> Option<Reason>
    ensures refusal { refusal_of_reason result
        ≡ refusal_in_answer (answer_to machine.now (Show shown)) }
    ensures reason { IfSome result (Explains machine.now (Show shown)) }
{
    match shown {
        Shown::Cells => why_no_cells(&machine.bda),
        Shown::Registers => None,
        Shown::Dac { .. } => None,
        Shown::Beam => None,
        Shown::Latches => None,
        Shown::Plane { .. } => None,
        Shown::BiosData => None,
    }
}

/// Why a step would be refused on a machine as it is; `None` if it would be done. The machine stays
/// as it is. The reason may be asked for after the refusal, too: a refused step changes nothing.
#[tactic(auto, using(crate::proofs::AnswerLemmas::out_word_answer, crate::proofs::AnswerLemmas::put_word_answer), unfolding(vga_run::specs::Step::answer_to))]
pub fn why(machine: &Machine, step: &Step<'_>) -> Option<Reason>
    requires { IsValid machine.now.bda }
    ensures refusal { refusal_of_reason result
        ≡ refusal_in_answer (answer_to machine.now step.now) }
    ensures reason { IfSome result (Explains machine.now step.now) }
{
    let card = &machine.card;
    match step {
        Step::Out { port, value } => of_byte(why_out(card, *port, *value)),
        Step::OutWord { port, value } => of_word(why_out_word(card, *port, *value)),
        Step::In { port } => of_byte(why_inp(card, *port)),
        Step::InWord { port } => of_word(why_inp_word(card, *port)),
        Step::Put { address, .. } => of_byte(why_access(card, *address)),
        Step::PutWord { address, .. } => of_word(why_access_word(card, *address)),
        Step::Get { address } => of_byte(why_access(card, *address)),
        Step::GetWord { address } => of_word(why_access_word(card, *address)),
        Step::Int {
            ax,
            bx,
            cx,
            dx,
            block,
        } => {
            let regs = Regs {
                ax: *ax,
                bx: *bx,
                cx: *cx,
                dx: *dx,
            };
            why_int10(machine, regs, block.as_slice())
        }
        Step::Advance { dots } if *dots > MOST_DOTS => Some(Reason::TooManyDots {
            dots: *dots,
            most: MOST_DOTS,
        }),
        Step::Advance { .. } => None,
        Step::Frame => None,
        Step::Show { shown } => why_shown(machine, *shown),
    }
}
