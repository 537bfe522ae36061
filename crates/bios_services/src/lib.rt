//! The services of interrupt 10 (hexadecimal), as cycles over a bus.
#![tactic(auto)]

mod band;
mod block_span;
mod call;
mod call_reason;
mod cell_run;
mod cells;
mod character_reading;
mod colouring;
mod colours;
mod cursor;
mod cycles;
mod dac;
mod direction;
mod dot_cell;
mod drawing;
mod filling;
mod glyph_load;
mod glyphs;
mod interrupt;
mod kind;
pub mod laws;
mod mode_set;
mod page;
mod palette;
mod pixels;
mod reasons;
mod refusals;
mod regs;
mod reply;
mod scroll;
mod shift;
mod strings;
mod tables;
mod teletype;
mod video_registers;
mod why;

pub use block_span::BlockSpan;
pub use call_reason::CallReason;
pub use interrupt::int10;
pub use regs::Regs;
pub use reply::{Reply, ServiceError, Table};
pub use why::why_call;
