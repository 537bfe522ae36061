//! The state of the adapter as text, and pictures as PPM files.
#![tactic(auto)]

mod bda;
mod beam;
mod cells;
mod dac;
mod latches;
mod plane;
mod ppm;
mod regs;
mod text;

pub use bda::dump_bda;
pub use beam::dump_beam;
pub use cells::{cells_refusal, dump_cells};
pub use dac::dump_dac;
pub use latches::dump_latches;
pub use plane::dump_plane;
pub use ppm::{ppm_length, write_ppm};
pub use regs::dump_regs;
