//! When the frame ends and input status 1 changes next, and how fast dots come.
ghost use Rattle.std.specs.Prelude.{◌≡◌, ◌≤◌, IfSome, MatchOption};
ghost use Rattle.vga_card.specs.Card.{CardState};
ghost use Rattle.vga_card.specs.Clock.{IsRasterTiming};
ghost use Rattle.vga_card.specs.Dots.{most_dots_of_an_advance};
ghost use Rattle.vga_run.specs.Step.{after_step};
ghost use Rattle.vga_script.specs.declared.step.Step.TheVariants.{Advance};
ghost use Rattle.vga_c.specs.Cards.{OpenCardKeepsMachine, ClosedCardStaysUnchanged, ClosedCardLeavesOutput};
ghost use Rattle.vga_c.specs.Timing.{never_instead_of_dots, IsTiming, AnswersTiming};

use crate::handle::{Handle, on_owing_card};
use crate::status::DONE;
use std::alloc::Global;
use vga_card::RasterTiming;
use vga_run::machine::Machine;

/// In place of a number of dots: the bit never changes.
const NEVER: u32 = 0xFFFF_FFFF;

/// How many dots it takes to the end of the frame under way and to the next changes of input status
/// 1; the sizes of lines and frames; and how fast dots come.
#[repr(C)]
#[derive(Clone, Copy)]
pub struct Timing {
    pub to_frame: u32,
    pub to_display: u32,
    pub to_retrace: u32,
    pub line_dots: u32,
    pub frame_dots: u32,
    pub lines: u32,
    pub rate: u32,
    pub rate_divisor: u32,
}

/// A number of dots, or `NEVER`.
fn dots_or_never(dots: Option<u32>) -> u32
    requires { IfSome dots (λ n. n ≤ 4800000) }
    ensures { MatchOption dots (result ≡ never_instead_of_dots) (λ n. result ≡ n) }
{
    match dots {
        Some(dots) => dots,
        None => NEVER,
    }
}

/// The timing, for the caller.
fn timing_of(clock: RasterTiming) -> Timing
    requires display { IfSome clock.to_display (λ n. n ≤ 4800000) }
    requires retrace { IfSome clock.to_retrace (λ n. n ≤ 4800000) }
    ensures { (card : CardState) → IsRasterTiming card clock → IsTiming card result }
{
    Timing {
        to_frame: clock.to_frame,
        to_display: dots_or_never(clock.to_display),
        to_retrace: dots_or_never(clock.to_retrace),
        line_dots: clock.line_dots,
        frame_dots: clock.frame_dots,
        lines: clock.lines as u32,
        rate: clock.rate,
        rate_divisor: if clock.is_halved { 2 } else { 1 },
    }
}

/// The timing of a machine after the dots that are owed. It gives how many are owed from then on.
#[tactic(auto, unfolding(vga_run::specs::Step::after_step))]
fn clock(machine: &mut Machine, owed: u32, timing: &mut Timing) -> (u32, u32)
    requires { owed ≤ most_dots_of_an_advance }
    ensures after { after_step machine.new (Advance result.0)
        ≡ after_step machine.old (Advance owed) }
    ensures timing { IsTiming (after_step machine.old (Advance owed)).card timing.new }
    ensures status { result.1 ≡ 0 }
{
    let (left, clock) = machine.card.clock_with_dots_owed(owed);
    *timing = timing_of(clock);
    (left, DONE)
}

/// Answers when the frame ends and input status 1 changes next, if no register is written until
/// then.
#[unsafe(no_mangle)]
pub extern "C" fn zak_clock(alloc: Global, card: &mut Handle, timing: &mut Timing) -> u32
    ensures card { OpenCardKeepsMachine card.old card.new }
    ensures timing { AnswersTiming card.old timing.new result }
    ensures closed { ClosedCardStaysUnchanged card.old card.new result }
    ensures spared { ClosedCardLeavesOutput card.old timing.old timing.new }
{
    on_owing_card!(alloc, card, machine, owed => clock(machine, owed, timing))
}
