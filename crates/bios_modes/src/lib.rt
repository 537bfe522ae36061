//! What the video BIOS knows of its modes: the registers and palette of each, the fonts, and the
//! BIOS data.
#![tactic(auto)]

pub mod bda;
mod bounds;
pub mod font;
pub mod fonts;
pub mod heights;
pub mod kind;
pub mod modes;
pub mod palette;

pub use bda::Bda;
pub use font::Font;
pub use fonts::Fonts;
pub use heights::{TextRow, mode_row_at_height, text_row};
pub use kind::{Kind, is_mode_of_256_colours, is_text, kind_of};
pub use modes::{ModeRow, mode_row};
pub use palette::{Palette, dac_entry, default_palette_of_mode, is_monochrome};
