//! The plain screen that the adapter shows: how to read it, and the laws by which services lead
//! from one screen to the next.
#![tactic(auto)]

pub mod any_dot;
pub mod frames;
pub mod laws;
mod palette;
pub mod screen;
mod screen_reading;
mod shown;

pub use screen::Screen;
