//! The bytes that a script begins with, and the opcodes of its steps.

/// The magic that a script begins with.
pub(crate) const MAGIC: [u8; 4] = *b"VGAS";

/// The opcode of a write of a byte to a port.
pub(crate) const OUT: u8 = 0x01;

/// The opcode of a write of a word to a port.
pub(crate) const OUT_WORD: u8 = 0x02;

/// The opcode of a read of a byte from a port.
pub(crate) const IN: u8 = 0x03;

/// The opcode of a read of a word from a port.
pub(crate) const IN_WORD: u8 = 0x04;

/// The opcode of a write of a byte to an address.
pub(crate) const PUT: u8 = 0x05;

/// The opcode of a write of a word to an address.
pub(crate) const PUT_WORD: u8 = 0x06;

/// The opcode of a read of a byte from an address.
pub(crate) const GET: u8 = 0x07;

/// The opcode of a read of a word from an address.
pub(crate) const GET_WORD: u8 = 0x08;

/// The opcode of a call of the video BIOS.
pub(crate) const INT: u8 = 0x09;

/// The opcode of an advance of the clock.
pub(crate) const ADVANCE: u8 = 0x0A;

/// The opcode of a frame that is drawn.
pub(crate) const FRAME: u8 = 0x0B;

/// The opcode of a dump of the adapter.
pub(crate) const SHOW: u8 = 0x0C;

/// The opcode that begins a repeat.
pub(crate) const REPEAT: u8 = 0x0D;

/// The opcode that ends a repeat.
pub(crate) const END: u8 = 0x0E;

/// The kind of a dump that shows the registers.
pub(crate) const SHOW_REGISTERS: u8 = 0x00;

/// The kind of a dump that shows an entry of the DAC.
pub(crate) const SHOW_DAC: u8 = 0x01;

/// The kind of a dump that shows the beam.
pub(crate) const SHOW_BEAM: u8 = 0x02;

/// The kind of a dump that shows the latches.
pub(crate) const SHOW_LATCHES: u8 = 0x03;

/// The kind of a dump that shows bytes of a plane.
pub(crate) const SHOW_PLANE: u8 = 0x04;

/// The kind of a dump that shows the data of the BIOS.
pub(crate) const SHOW_BIOS_DATA: u8 = 0x05;

/// The kind of a dump that shows the cells of the active page.
pub(crate) const SHOW_CELLS: u8 = 0x06;

/// How many bytes the header has, the magic and the version.
pub(crate) const HEADER_LEN: usize = 5;
