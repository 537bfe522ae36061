//! The four ports of the host path.

/// The sequencer's index, which selects one of its registers.
pub const SEQUENCER_INDEX: u16 = 0x3C4;

/// The sequencer's register that its index selects.
pub const SEQUENCER_DATA: u16 = 0x3C5;

/// The graphics controller's index, which selects one of its registers.
pub const GRAPHICS_INDEX: u16 = 0x3CE;

/// The graphics controller's register that its index selects.
pub const GRAPHICS_DATA: u16 = 0x3CF;
