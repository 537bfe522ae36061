//! The ports and registers that services use by name, and the values that they write there.

/// The attribute controller's port for indexes and for writes.
pub(crate) const ATTRIBUTE: u16 = 0x3C0;

/// The attribute controller's port for reads.
pub(crate) const ATTRIBUTE_DATA: u16 = 0x3C1;

/// The port at which the miscellaneous output register is written.
pub(crate) const MISCELLANEOUS_OUTPUT: u16 = 0x3C2;

/// The port of the sequencer's index; its data are at the next port.
pub(crate) const SEQUENCER: u16 = 0x3C4;

/// The port of the graphics controller's index; its data are at the next port.
pub(crate) const GRAPHICS: u16 = 0x3CE;

/// The port of the DAC's mask.
pub(crate) const DAC_MASK: u16 = 0x3C6;

/// The port of the DAC's index for reads.
pub(crate) const DAC_READ_INDEX: u16 = 0x3C7;

/// The port of the DAC's index for writes.
pub(crate) const DAC_WRITE_INDEX: u16 = 0x3C8;

/// The port of the DAC's data.
pub(crate) const DAC_DATA: u16 = 0x3C9;

/// The sequencer's register that selects the planes to be written.
pub(crate) const MAP_MASK: u8 = 0x02;

/// Map mask: all four planes.
pub(crate) const ALL_PLANES: u8 = 0x0F;

/// Map mask: planes 0 and 1, with the characters and attributes of text.
pub(crate) const TEXT_PLANES: u8 = 0x03;

/// Map mask: plane 2, with the glyphs of text.
pub(crate) const GLYPH_PLANE: u8 = 0x04;

/// The sequencer's register that says which planes an address reaches.
pub(crate) const MEMORY_MODE: u8 = 0x04;

/// Memory mode: each address reaches all planes.
pub(crate) const ALL_ADDRESSES: u8 = 0x06;

/// Memory mode: even addresses reach planes 0 and 2, odd ones planes 1 and 3.
pub(crate) const ODD_AND_EVEN_ADDRESSES: u8 = 0x02;

/// The graphics controller's register of the function that combines written data with the latches.
pub(crate) const DATA_ROTATE: u8 = 0x03;

/// Data rotate: data replace what was there.
pub(crate) const REPLACE: u8 = 0x00;

/// Data rotate: data are combined with the latches by XOR.
pub(crate) const XOR: u8 = 0x18;

/// The graphics controller's register of the plane that is read.
pub(crate) const READ_MAP_SELECT: u8 = 0x04;

/// The graphics controller's register of the write mode and the read mode.
pub(crate) const GRAPHICS_MODE: u8 = 0x05;

/// Graphics mode: write mode 0 and read mode 0, with which bytes go to planes and come from one.
pub(crate) const BYTE_ACCESS: u8 = 0x00;

/// Graphics mode: write mode 0 and read mode 0, and even and odd addresses are read from different
/// planes.
pub(crate) const BYTE_ACCESS_ODD_AND_EVEN: u8 = 0x10;

/// Graphics mode: write mode 1, which copies the latches.
pub(crate) const COPY_LATCHES: u8 = 0x01;

/// Graphics mode: write mode 2, which gives each plane its bit of a colour.
pub(crate) const WRITE_COLOUR: u8 = 0x02;

/// Graphics mode: read mode 1, which compares planes with a colour.
pub(crate) const COMPARE_COLOURS: u8 = 0x08;

/// The graphics controller's register that selects the memory's window.
pub(crate) const MISCELLANEOUS: u8 = 0x06;

/// Miscellaneous: 64 KiB at A0000, where each address is an offset in a plane.
pub(crate) const WINDOW_AT_A0000: u8 = 0x04;

/// The graphics controller's register that selects the bits to be written.
pub(crate) const BIT_MASK: u8 = 0x08;

/// Bit mask: all eight bits.
pub(crate) const ALL_BITS: u8 = 0xFF;

/// The CRT controller's register of the height of characters.
pub(crate) const MAXIMUM_SCAN_LINE: u8 = 0x09;

/// The CRT controller's register of the cursor's first scan line.
pub(crate) const CURSOR_START: u8 = 0x0A;

/// The CRT controller's register of the cursor's last scan line.
pub(crate) const CURSOR_END: u8 = 0x0B;

/// The CRT controller's register of the start address's high byte; the low byte's is the next.
pub(crate) const START_ADDRESS: u8 = 0x0C;

/// The CRT controller's register of the cursor address's high byte; the low byte's is the next.
pub(crate) const CURSOR_ADDRESS: u8 = 0x0E;

/// The CRT controller's register of the vertical retrace's end, whose bit 7 protects registers.
pub(crate) const VERTICAL_RETRACE_END: u8 = 0x11;

/// The CRT controller's register of the last line of the display.
pub(crate) const VERTICAL_DISPLAY_END: u8 = 0x12;

/// The CRT controller's register of the scan line of underlines.
pub(crate) const UNDERLINE_LOCATION: u8 = 0x14;

/// The attribute controller's overscan register.
pub(crate) const OVERSCAN: u8 = 0x11;

/// The bit beside an index of the attribute controller with which the palette is shown.
pub(crate) const PALETTE_SHOWN: u8 = 0x20;

/// The attribute controller's mode control register.
pub(crate) const MODE_CONTROL: u8 = 0x10;

/// Mode control: every bit except bit 3, which makes attributes blink.
pub(crate) const NOT_BLINKING: u8 = 0xF7;
