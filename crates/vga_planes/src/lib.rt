//! The display memory: four planes of 65,536 bytes, and the latches that hold one byte of each.
#![tactic(auto)]

pub mod latch;
pub mod plane_words;
pub mod planes;

pub use latch::Latch;
pub use planes::{PlaneSet, Planes};
