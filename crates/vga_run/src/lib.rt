//! Runs of scripts: a script in, its report out.
#![tactic(auto)]

mod answer;
mod cycle_list;
mod laws;
pub mod machine;
mod numbered_line;
mod report;
mod runs;
mod screens;
mod served;
mod step_line;

pub use answer::Answer;
pub use cycle_list::{Unlisted, list_cycles};
pub use laws::{
    listed_cycles_are_the_call, refused_steps_change_nothing, restored_machines_report_the_same,
};
pub use report::write_dump;
pub use runs::{run, run_bytes, run_script};
pub use screens::{run_writes_dot_report, run_writes_screen_report, screen_report_is_dot_report};
