//! The adapter and its video BIOS as a library for C programs.
//!
//! A card lives in the caller's struct, from `zak_open` to `zak_close`. Cycles, advances, frames
//! and interrupt 10 are steps of a script: the call does to the card what the step does, and
//! returns 0 or the number of the refusal. `zak_run_on` takes any steps of a script. Other calls
//! read the state, or explain it, and leave it as it is; or they save and restore it. A call on a card that is not open
//! changes nothing and returns a status that says so.
#![tactic(auto)]

mod alike;
mod blocks;
mod box_parts;
mod buffer;
mod call_cycles;
mod checksum;
mod cycles;
mod dot_sources;
mod dumps;
mod fixed;
mod forms;
mod frames;
mod handle;
mod indexed;
mod lane_sums;
mod mistakes;
mod opening;
mod outcome;
mod palette;
mod reason_numbers;
mod rebuilding;
mod runs;
mod saved;
mod scan_lines;
mod screens;
mod sealed;
mod sentence;
mod services;
mod stages;
mod state;
mod status;
mod status_text;
mod step_reasons;
mod steps;
mod texts;
mod timing;
mod transfers;
mod updates;
mod version;
