//! The digital-to-analogue converter: 256 colours, and the sequence of bytes that writes and reads
//! them.
#![tactic(auto)]

pub mod component;
pub mod dac;

pub use component::Component;
pub use dac::Dac;
