//! Compares the adapter and its BIOS with a slow model of the plain screen, on pseudo-random calls,
//! and on frames that are whole or cut at any dot. Prints the result of each comparison. The exit
//! status is 1 if anything differs.
#![tactic(auto)]

mod beginning;
mod call_counts;
mod cut_frames;
mod difference;
mod frame_scripts;
mod pair;
mod plain_cells;
mod plain_drawing;
mod plain_glyphs;
mod plain_loads;
mod plain_modes;
mod plain_pictures;
mod plain_pixels;
mod plain_refusals;
mod plain_screen;
mod plain_services;
mod plain_typing;
mod random_calls;
mod random_font;
mod random_numbers;
mod screens_outcome;
mod whole_frames;

use anyhow::Result;
use cut_frames::compare_cut_frames;
use screens_outcome::ScreensOutcome;
use std::process::ExitCode;
use vga_bits::ComparisonTally;
use whole_frames::compare_whole_frames;

/// Prints the result of a comparison, and counts it.
fn print_outcome<R: Print>(
    rt: &R,
    tally: &mut ComparisonTally,
    name: &str,
    outcome: ScreensOutcome,
) -> Result<()> {
    println!(rt; "{name}: {outcome}")?;
    tally.count(outcome.is_alike());
    Ok(())
}

fn main(rt: HostRuntime) -> Result<ExitCode> {
    let alloc = rt.alloc();
    let mut tally = ComparisonTally::new();
    print_outcome(
        &rt,
        &mut tally,
        "plain screens",
        compare_whole_frames(alloc)?,
    )?;
    print_outcome(
        &rt,
        &mut tally,
        "plain screens, dot by dot",
        compare_cut_frames(alloc)?,
    )?;
    println!(rt; "{tally}")?;
    Ok(ExitCode::from(tally.status()))
}
