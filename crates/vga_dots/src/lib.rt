//! Dots: from the registers, the planes and the beam to the colour of a dot.
#![tactic(auto)]

mod addressing;
mod alike;
mod character;
pub mod colour;
pub mod display;
mod dot_trace;
mod eight_dots;
mod graphics;
pub mod laws;
pub mod line;
mod palette_trace;
mod row;
mod source_dot;
mod text;
mod text_colours;
mod text_line;
mod text_trace;
mod worked_examples;

pub use addressing::offsets_fetched_on_line;
pub use colour::dot_colour;
pub use display::Display;
pub use dot_trace::{DotTrace, trace_dot};
pub use line::{MOST_DOTS_OF_PART, draw_line, draw_next_dots_of_line, shown_characters};
pub use palette_trace::PaletteTrace;
pub use source_dot::SourceDot;
pub use text::Cell;
pub use text_trace::TextTrace;
