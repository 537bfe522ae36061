//! The ports and registers that the steps name, and the values that they write there.

/// The attribute controller's port for indexes and for writes.
pub(crate) const ATTRIBUTE: u16 = 0x3C0;

/// The port at which the miscellaneous output register is written.
pub(crate) const MISCELLANEOUS_OUTPUT: u16 = 0x3C2;

/// Miscellaneous output: the CRT controller is at 3D4, and else at 3B4.
pub(crate) const COLOUR_PORTS: u8 = 0x01;

/// Miscellaneous output: display memory is decoded.
pub(crate) const ENABLE_RAM: u8 = 0x02;

/// The port of the DAC's mask.
pub(crate) const DAC_MASK: u16 = 0x3C6;

/// The port of the DAC's index for writes.
pub(crate) const DAC_WRITE_INDEX: u16 = 0x3C8;

/// The port of the DAC's data.
pub(crate) const DAC_DATA: u16 = 0x3C9;

/// The sequencer's clocking mode register. With 0 a character has nine dots.
pub(crate) const CLOCKING_MODE: u8 = 0x01;

/// The sequencer's register that selects the planes to be written.
pub(crate) const MAP_MASK: u8 = 0x02;

/// The sequencer's register that says which planes an address reaches.
pub(crate) const MEMORY_MODE: u8 = 0x04;

/// Memory mode: each address reaches all planes.
pub(crate) const ALL_ADDRESSES: u8 = 0x06;

/// Memory mode: even addresses reach planes 0 and 2, odd ones planes 1 and 3.
pub(crate) const ODD_AND_EVEN_ADDRESSES: u8 = 0x02;

/// The graphics controller's register of the write mode and the read mode.
pub(crate) const GRAPHICS_MODE: u8 = 0x05;

/// Graphics mode: write mode 0, and even and odd addresses are read from different planes.
pub(crate) const ODD_AND_EVEN_PLANES: u8 = 0x10;

/// The graphics controller's register that selects the memory's window.
pub(crate) const MISCELLANEOUS: u8 = 0x06;

/// Miscellaneous: 64 KiB at A0000, where each address is an offset in a plane.
pub(crate) const WINDOW_AT_A0000: u8 = 0x04;

/// Miscellaneous: 64 KiB at A0000, where an even address and the next are the same offset.
pub(crate) const ODD_AND_EVEN_WINDOW: u8 = 0x06;

/// The graphics controller's register that selects the bits to be written.
pub(crate) const BIT_MASK: u8 = 0x08;

/// Bit mask: all eight bits.
pub(crate) const ALL_BITS: u8 = 0xFF;

/// The port of the CRT controller's index; its data are at the next port. The miscellaneous output
/// register says which of two it is.
pub(crate) fn controller_port(misc: u8) -> u16 {
    if misc & COLOUR_PORTS == COLOUR_PORTS {
        0x3D4
    } else {
        0x3B4
    }
}

/// The port of input status 1.
pub(crate) fn status_port(misc: u8) -> u16 {
    if misc & COLOUR_PORTS == COLOUR_PORTS {
        0x3DA
    } else {
        0x3BA
    }
}
