//! One step of a script.

use super::block::Block;
use super::dump_range::Shown;

/// One step of a script: a cycle of the processor, a call of the video BIOS, some dots of the
/// clock, or a dump of the adapter. The block of a call is borrowed.
#[derive(Drop)]
pub enum Step<'a> {
    /// A byte is written to a port.
    Out {
        /// The port.
        port: u16,
        /// The byte.
        value: u8,
    },
    /// A word is written to a port and the next port.
    OutWord {
        /// The port of the low byte.
        port: u16,
        /// The word. Its low byte is written first.
        value: u16,
    },
    /// A byte is read from a port.
    In {
        /// The port.
        port: u16,
    },
    /// A word is read from a port and the next port.
    InWord {
        /// The port of the low byte.
        port: u16,
    },
    /// A byte is written to memory.
    Put {
        /// The address.
        address: u32,
        /// The byte.
        value: u8,
    },
    /// A word is written to an address and the next address.
    PutWord {
        /// The address of the low byte.
        address: u32,
        /// The word. Its low byte is written first.
        value: u16,
    },
    /// A byte is read from memory.
    Get {
        /// The address.
        address: u32,
    },
    /// A word is read from an address and the next address.
    GetWord {
        /// The address of the low byte.
        address: u32,
    },
    /// The video BIOS is called by interrupt 10.
    Int {
        /// The register AX: the function in AH, its argument in AL.
        ax: u16,
        /// The register BX.
        bx: u16,
        /// The register CX.
        cx: u16,
        /// The register DX.
        dx: u16,
        /// The bytes that the function reads from memory, at most 65,535.
        block: Block<'a>,
    },
    /// The clock runs for some dots.
    Advance {
        /// How many.
        dots: u32,
    },
    /// The clock runs to the end of the frame, and the frame's picture is shown.
    Frame,
    /// A part of the adapter is shown, and stays as it is.
    Show {
        /// Which part.
        shown: Shown,
    },
}
