//! Scripts that rebuild the state of a machine from power-on.
#![tactic(auto)]

mod attempt;
mod beam_drive;
mod colours;
mod controller;
mod laws;
mod likeness;
mod memory;
mod opening;
mod ports;
mod rebuilding;
mod rebuilt;
mod registers;
mod running;
mod step_list;
mod usual_bytes;

pub use laws::machines_that_are_alike_report_the_same;
pub use rebuilding::rebuilding_script;
pub use rebuilt::{Likeness, NotRebuilt, Rebuilt};
