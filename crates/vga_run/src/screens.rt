//! What runs of BIOS calls and frames answer, in terms of the plain screen. Nothing runs here.
ghost use Rattle.std.specs.Prelude.{◌≡◌, List};
ghost use Rattle.bios_modes.specs.Bounds.{AreBytes, AreFonts};
ghost use Rattle.bios_modes.specs.Fonts.{FontSet};
ghost use Rattle.vga_script.specs.Step.{AreInRange};
ghost use Rattle.vga_script.specs.declared.step.Step.{Step};
ghost use Rattle.vga_run.specs.Report.{report_of};
ghost use Rattle.vga_run.specs.DotReport.{AreDotReportSteps, dot_report};
ghost use Rattle.vga_run.specs.ScreenReport.{AreScreenReportSteps, screen_report};

use bios_screen::any_dot::{calls_follow_screens, dots_follow_screens, frames_are_dots};
use bios_screen::frames::frame_draws_screen;
use bios_screen::laws::{calls_lead_to_screens, mode_set_shows_fresh_screen};
use bios_services::laws::calls_keep_bounds;
use vga_card::laws::cycles_and_dots_keep_bounds;

/// The steps are BIOS calls and whole frames, and the first is a mode set that clears the memory.
/// Their report is the plain screen's.
pub fn run_writes_screen_report()
    ensures { (fonts : FontSet) (steps : List Step) → AreFonts fonts → AreInRange steps →
        AreScreenReportSteps steps →
        report_of fonts steps ≡ screen_report fonts steps }
{
    cycles_and_dots_keep_bounds();
    calls_keep_bounds();
    calls_lead_to_screens();
    mode_set_shows_fresh_screen();
    frame_draws_screen();
}

/// The steps are BIOS calls, dots and frames, and the first is a mode set that clears the memory.
/// Their report is the plain screen's, dot by dot. Each later mode set clears the memory too and
/// stands at dot 0 of a frame, and so does a load of glyphs. Those that are refused may stand
/// anywhere.
pub fn run_writes_dot_report()
    ensures { (fonts : FontSet) (steps : List Step) → AreFonts fonts → AreInRange steps →
        AreDotReportSteps fonts steps →
        report_of fonts steps ≡ dot_report fonts steps }
{
    cycles_and_dots_keep_bounds();
    calls_keep_bounds();
    calls_lead_to_screens();
    mode_set_shows_fresh_screen();
    frame_draws_screen();
    calls_follow_screens();
    dots_follow_screens();
}

/// BIOS calls and whole frames are such steps, and their two reports are the same.
pub fn screen_report_is_dot_report()
    ensures steps { (fonts : FontSet) (steps : List Step) → AreScreenReportSteps steps →
        AreDotReportSteps fonts steps }
    ensures reports { (fonts : FontSet) (steps : List Step) → AreFonts fonts → AreInRange steps →
        AreScreenReportSteps steps →
        screen_report fonts steps ≡ dot_report fonts steps }
{
    frames_are_dots();
    run_writes_screen_report();
    run_writes_dot_report();
}

/// The bytes of a file are below 256.
pub(crate) fn bytes_are_below_256(file: &[u8])
    ensures { AreBytes file.now }
{
    let _ = file;
}
