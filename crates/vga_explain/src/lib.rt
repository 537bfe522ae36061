//! Why a step is refused, and where a dot comes from: what the adapter says of itself. Nothing here
//! changes a machine.
#![tactic(auto)]

mod accesses;
mod cycle_reason;
mod data;
mod digits;
mod dots;
mod group;
mod laws;
mod left_out;
mod ports;
mod reason;
mod refused;
mod sentences;
mod words;

pub use cycle_reason::CycleReason;
pub use dots::source_of_dot;
pub use group::Group;
pub use laws::reasons_imply_their_refusals;
pub use left_out::LeftOut;
pub use reason::Reason;
pub use refused::why;
