//! Compares the adapter with slow models of the register table, on pseudo-random registers, memory
//! and colours. Checks scripts, dumps, pictures and runs where no script of the suite can, for
//! example on writers that fail. Prints how each comparison and each group of checks ended. The
//! exit status is 1 if any model differs or any check fails.
//!
//! `host N` or `dots N` on the command line compares only cycles or only dots, on N settings. With
//! few settings that takes less than a minute, so that you can try a change.
//!
//! `memory N` on the command line does none of this: it makes N allocations, and then prints how
//! each call that allocates ends. If you make an allocation fail by its number, N chooses the call
//! that meets it.
#![tactic(auto)]

mod cell_dumps;
mod checks;
mod counted_card;
mod cycle_counts;
mod dot_model;
mod dots;
mod dumps;
mod host_model;
mod host_path;
mod memory;
mod names;
mod pictures;
mod random_registers;
mod registers;
mod runs;
mod screens;
mod script_bytes;
mod script_texts;
mod scripted;
mod sink;
mod source;
mod tracking;

use anyhow::Result;
use cell_dumps::check_cells;
use checks::Checks;
use cycle_counts::check_cycle_counts;
use dots::compare_dots;
use dumps::check_dumps;
use host_path::compare_host_path;
use memory::{CALLS, check_allocating_calls};
use names::check_names;
use pictures::check_pictures;
use random_registers::DotSource;
use registers::check_registers_bytes_and_texts;
use runs::check_runs;
use screens::check_screens;
use script_bytes::check_script_bytes;
use script_texts::check_script_texts;
use std::alloc::Global;
use std::env;
use std::process::ExitCode;
use std::rt::Env;
use tracking::check_tracking;
use vga_bits::ComparisonTally;

/// The kinds of dots that are compared, each with its own stream of pseudo-random numbers.
const KINDS: [(&str, DotSource, u64); 3] = [
    ("text", DotSource::Text, 1),
    ("16 colours", DotSource::SixteenColours, 2),
    ("256 colours", DotSource::Colours256, 3),
];

/// Prints the result of a group of checks, and counts the group.
fn print_checks<R: Print>(
    rt: &R,
    tally: &mut ComparisonTally,
    group: &str,
    checks: Checks,
) -> Result<()> {
    println!(rt; "{group}: {checks}")?;
    tally.count(checks.have_passed());
    Ok(())
}

/// Compares memory cycles with the model, and prints the result.
fn compare_host<R: Print + AllocGlobal>(
    rt: &R,
    tally: &mut ComparisonTally,
    settings: u32,
) -> Result<()> {
    let path = compare_host_path(rt.alloc(), settings)?;
    println!(rt; "host path: {path}")?;
    tally.count(path.is_alike());
    Ok(())
}

/// Compares dots of each kind with the model, and prints the result.
fn compare_dots_of_each_kind<R: Print + AllocGlobal>(
    rt: &R,
    tally: &mut ComparisonTally,
    settings: u32,
) -> Result<()> {
    for (name, source, stream) in KINDS {
        let dots = compare_dots(rt.alloc(), source, stream, settings)?;
        println!(rt; "{name}: {dots}")?;
        tally.count(dots.is_alike());
    }
    Ok(())
}

/// Checks what the other crates build on, and prints the result of each group.
fn check_what_crates_build_on<R: Print + AllocGlobal>(
    rt: &R,
    tally: &mut ComparisonTally,
) -> Result<()> {
    let alloc = rt.alloc();
    print_checks(
        rt,
        tally,
        "registers, bytes and text",
        check_registers_bytes_and_texts(alloc)?,
    )?;
    print_checks(rt, tally, "names", check_names(alloc)?)?;
    print_checks(rt, tally, "readers and writers", check_tracking(alloc)?)?;
    print_checks(rt, tally, "texts of scripts", check_script_texts(alloc)?)?;
    print_checks(rt, tally, "bytes of scripts", check_script_bytes(alloc)?)
}

/// Checks what is written, and prints the result of each group.
fn check_dumps_pictures_and_runs<R: Print + AllocGlobal>(
    rt: &R,
    tally: &mut ComparisonTally,
) -> Result<()> {
    let alloc = rt.alloc();
    print_checks(rt, tally, "dumps", check_dumps(alloc)?)?;
    print_checks(rt, tally, "cells", check_cells(alloc)?)?;
    print_checks(rt, tally, "pictures", check_pictures(alloc))?;
    print_checks(rt, tally, "runs", check_runs(alloc)?)
}

/// Checks the crates, a group for each part, and prints the result of each.
fn check_crates<R: Print + AllocGlobal>(rt: &R, tally: &mut ComparisonTally) -> Result<()> {
    let alloc = rt.alloc();
    check_what_crates_build_on(rt, tally)?;
    check_dumps_pictures_and_runs(rt, tally)?;
    print_checks(rt, tally, "screens", check_screens(alloc)?)?;
    print_checks(rt, tally, "cycles of services", check_cycle_counts(alloc)?)?;
    print_checks(rt, tally, "memory", check_allocating_calls(alloc))
}

/// Makes `count` allocations, one after another.
fn allocate(alloc: Global, count: u32) -> Result<()> {
    for _ in 0..count {
        let _ = Box::new(alloc, 0u8)?;
    }
    Ok(())
}

/// Prints how each call that allocates ends, after `allocations` allocations.
fn print_endings<R: Print + AllocGlobal>(rt: &R, allocations: u32) -> Result<()> {
    let alloc = rt.alloc();
    allocate(alloc, allocations)?;
    for call in CALLS {
        println!(rt; "{call}: {}", call.ending(alloc))?;
    }
    Ok(())
}

/// What the command line asks for.
enum Job {
    /// All comparisons and checks.
    Everything,
    /// Cycles on this many settings.
    Host(u32),
    /// Frames on this many settings of each kind.
    Dots(u32),
    /// The calls that allocate, after this many allocations.
    Memory(u32),
}

/// Reads what the command line asks for.
fn wanted_job<R: Env + AllocGlobal>(rt: &R) -> Result<Job> {
    let words: Vec<String> = env::args(rt)?.collect(rt.alloc())?;
    match words.as_slice() {
        [_, word, count] if word.as_str() == "host" => Ok(Job::Host(count.parse()?)),
        [_, word, count] if word.as_str() == "dots" => Ok(Job::Dots(count.parse()?)),
        [_, word, count] if word.as_str() == "memory" => Ok(Job::Memory(count.parse()?)),
        _ => Ok(Job::Everything),
    }
}

/// Makes all comparisons and checks.
fn check_everything<R: Print + AllocGlobal>(rt: &R, tally: &mut ComparisonTally) -> Result<()> {
    compare_host(rt, tally, host_path::SETTINGS)?;
    compare_dots_of_each_kind(rt, tally, dots::SETTINGS)?;
    check_crates(rt, tally)
}

fn main(rt: HostRuntime) -> Result<ExitCode> {
    let mut tally = ComparisonTally::new();
    match wanted_job(&rt)? {
        Job::Everything => check_everything(&rt, &mut tally)?,
        Job::Host(settings) => compare_host(&rt, &mut tally, settings)?,
        Job::Dots(settings) => compare_dots_of_each_kind(&rt, &mut tally, settings)?,
        Job::Memory(allocations) => {
            print_endings(&rt, allocations)?;
            return Ok(ExitCode::from(0));
        }
    }
    println!(rt; "{tally}")?;
    Ok(ExitCode::from(tally.status()))
}
