//! What likeness means for the steps that follow.
ghost use Rattle.std.specs.Prelude.{◌≡◌, ℕ, List};
ghost use Rattle.vga_run.specs.Report.{report_from};
ghost use Rattle.vga_run.specs.declared.machine.Machine.{Machine};
ghost use Rattle.vga_script.specs.declared.step.Step.{Step};
ghost use Rattle.vga_rebuild.specs.Rebuilt.{AreAlike};
ghost use Rattle.vga_rebuild.specs.declared.rebuilt.Likeness.TheVariants.{Same};

/// Whatever steps follow, two machines that are the same have the same report of them.
#[tactic(auto, using(crate::proofs::ReportLemmas::same_report))]
pub fn machines_that_are_alike_report_the_same()
    ensures { (one other : Machine) (n : ℕ) (steps : List Step) → AreAlike Same one other →
        report_from one n steps ≡ report_from other n steps }
{}
