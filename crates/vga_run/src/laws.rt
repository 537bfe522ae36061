//! Laws of steps. Each is a contract of a function that does nothing.
ghost use Rattle.std.specs.Prelude.{◌≡◌, ℕ, List};
ghost use Rattle.vga_bits.specs.declared.refusal.Refusal.{Refusal};
ghost use Rattle.vga_run.specs.declared.machine.Machine.{Machine};
ghost use Rattle.vga_run.specs.Answer.{Short};
ghost use Rattle.vga_run.specs.Step.{answer_to, after_step, after_steps, after_int10};
ghost use Rattle.vga_run.specs.CycleList.{cycles_of_call, bytes_read_by_steps};
ghost use Rattle.vga_run.specs.CycleList.{plan_answer_from_bytes};
ghost use Rattle.vga_run.specs.Report.{report_from};
ghost use Rattle.vga_run.specs.Saved.{machine_without_unseen_dots};
ghost use Rattle.bios_services.specs.declared.regs.Regs.{Regs};
ghost use Rattle.bios_services.specs.Service.{service};
ghost use Rattle.vga_script.specs.declared.step.Step.{Step};

use super::answer::Answer;
use bios_services::laws::refused_services_do_nothing;
use vga_card::Card;
use vga_card::laws::refused_cycles_change_nothing;

/// A refused step changes nothing, neither adapter nor BIOS data, whether it is a cycle, an advance
/// or a call of the video BIOS.
pub fn refused_steps_change_nothing()
    ensures { (machine : Machine) (step : Step) (refusal : Refusal) →
        answer_to machine step ≡ Short (Answer.Refused refusal) →
        after_step machine step ≡ machine }
{
    refused_cycles_change_nothing();
    refused_services_do_nothing::<Card>();
}

/// No step tells a machine that was saved and restored from the original. Each step answers the
/// same on both, and leaves the same, except for what is not saved. So any steps have the same
/// report.
#[tactic(auto, using(crate::proofs::FreshCanvasLemmas::answer_same, crate::proofs::FreshCanvasLemmas::after_same, crate::proofs::FreshCanvasLemmas::report_same))]
pub fn restored_machines_report_the_same()
    ensures answer { (machine : Machine) (step : Step) →
        answer_to (machine_without_unseen_dots machine) step ≡ answer_to machine step }
    ensures after { (machine : Machine) (step : Step) →
        machine_without_unseen_dots (after_step (machine_without_unseen_dots machine) step)
        ≡ machine_without_unseen_dots (after_step machine step) }
    ensures report { (machine : Machine) (n : ℕ) (steps : List Step) →
        report_from (machine_without_unseen_dots machine) n steps ≡ report_from machine n steps }
{}

/// The cycles that are listed of a call are the call. Taken as steps, one after another, they leave
/// the adapter as the call does, and the bytes that they read give the call's answer.
pub fn listed_cycles_are_the_call()
    ensures state { (machine : Machine) (regs : Regs) (block : List ℕ) →
        after_steps machine (cycles_of_call machine regs block) ≡ record machine {
          card = (after_int10 machine regs.ax regs.bx regs.cx regs.dx block).0;
        } }
    ensures answer { (machine : Machine) (regs : Regs) (block : List ℕ) →
        plan_answer_from_bytes (service machine.fonts machine.bda regs block)
        (bytes_read_by_steps machine (cycles_of_call machine regs block))
        ≡ (after_int10 machine regs.ax regs.bx regs.cx regs.dx block).1 }
{}
