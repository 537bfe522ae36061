//! The bytes of a script, built step by step.

use std::alloc::Global;
use vga_bits::Fault;
use vga_script::{Block, SCRIPT_LIMIT, ScriptBytes, Step, append_step};

/// Where the window of display memory begins.
const WINDOW: u32 = 0xA0000;

/// The bytes of a script that is built step by step. Each step may fail with `OutOfMemory`, or with
/// `TooLong` if the script already has more bytes than a script may have.
#[derive(Drop)]
pub(crate) struct StepList {
    bytes: Vec<u8>,
}

impl StepList {
    ghost use Rattle.vga_script.specs.Step.{IsInRange};

    /// A script without steps.
    pub(crate) fn new(alloc: Global) -> Result<StepList, Fault> {
        let header = ScriptBytes::new(alloc, 5)?;
        let mut bytes = Vec::new(alloc);
        match bytes.extend_from_slice(header.as_slice()) {
            Ok(()) => Ok(StepList { bytes }),
            Err(_) => Err(Fault::OutOfMemory),
        }
    }

    /// The bytes.
    pub(crate) fn into_bytes(self) -> Vec<u8> {
        self.bytes
    }

    /// Appends a step.
    fn push(&mut self, step: &Step<'_>) -> Result<(), Fault>
        requires { IsInRange step.now }
    {
        if self.bytes.len() > SCRIPT_LIMIT {
            return Err(Fault::TooLong);
        }
        append_step(&mut self.bytes, step)
    }

    /// Appends a write of a byte to a port.
    pub(crate) fn out(&mut self, port: u16, value: u8) -> Result<(), Fault> {
        self.push(&Step::Out { port, value })
    }

    /// Appends a write of a register: its index to a port, and a byte to the next port.
    pub(crate) fn register(&mut self, port: u16, index: u8, value: u8) -> Result<(), Fault> {
        let value = 256 * value as u16 + index as u16;
        self.push(&Step::OutWord { port, value })
    }

    /// Appends a read of a port.
    pub(crate) fn input(&mut self, port: u16) -> Result<(), Fault> {
        self.push(&Step::In { port })
    }

    /// Appends a write of a byte to an offset in the window.
    pub(crate) fn put(&mut self, offset: u16, value: u8) -> Result<(), Fault> {
        let address = WINDOW + offset as u32;
        self.push(&Step::Put { address, value })
    }

    /// Appends a write of a word to an offset in the window.
    pub(crate) fn put_word(&mut self, offset: u16, value: u16) -> Result<(), Fault> {
        let address = WINDOW + offset as u32;
        self.push(&Step::PutWord { address, value })
    }

    /// Appends a read of a byte at an offset in the window.
    pub(crate) fn get(&mut self, offset: u16) -> Result<(), Fault> {
        let address = WINDOW + offset as u32;
        self.push(&Step::Get { address })
    }

    /// Appends a call of the video BIOS.
    pub(crate) fn call(&mut self, ax: u16, bx: u16, cx: u16, dx: u16) -> Result<(), Fault> {
        let block = Block::of_slice(&[]);
        self.push(&Step::Int {
            ax,
            bx,
            cx,
            dx,
            block,
        })
    }

    /// Appends an advance by some dots, unless they are none.
    pub(crate) fn advance(&mut self, dots: u32) -> Result<(), Fault> {
        if dots == 0 {
            return Ok(());
        }
        self.push(&Step::Advance { dots })
    }
}
