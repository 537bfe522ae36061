//! The display memory as the processor reaches it.
//!
//! A single cycle needs four files. `address.rt` decides which addresses are decoded, `access.rt`
//! keeps what the registers say of a cycle, and `read.rt` and `write.rt` perform it. The other
//! files serve speed alone: they perform many cycles at once.

mod access;
mod address;
mod fills;
mod read;
mod runs;
mod stages;
mod transfers;
mod word_moves;
mod write;

pub(crate) use self::access::MemoryAccess;
pub use self::stages::{ReadStages, WriteStages};
