//! Building the bytes of a script step by step.
ghost use Rattle.std.specs.Prelude.{◌≡◌, ◌≤◌, nat_lt, length, IfOk, IsOkUnless};
ghost use Rattle.vga_script.specs.Spelling.{script_limit, spelling};
ghost use Rattle.vga_script.specs.declared.step.Step.TheVariants.{Out, In, Put, Get};

use super::opcode;
use super::script::SCRIPT_LIMIT;
use super::version::Version;
use std::alloc::Global;
use std::marker::Model;
use vga_bits::Fault;

/// The bytes of a script of version 1, built step by step. All memory is allocated at the start:
/// bytes that have no room are counted but not kept.
///
/// Contracts see the bytes that are kept, how many there are in all, and how much room there is.
#[derive(Drop)]
pub struct ScriptBytes {
    bytes: Vec<u8>,
    len: usize,
    room: usize,
}

impl Model for ScriptBytes {
    ghost use Rattle.std.specs.Prelude.{◌≤◌, ◌+◌, length, vec_capacity};
    ghost use Rattle.vga_script.specs.ScriptBytes.{BytesWritten};
    ghost use Rattle.vga_script.specs.Spelling.{script_limit};

    ghost Value = { BytesWritten };

    ghost view = { λ s. record { bytes = s.bytes.items; len = s.len; room = s.room } };

    ghost invariant = { λ s. (length s.bytes.items ≤ s.len) × (s.len ≤ script_limit + 8)
        × (s.room ≤ vec_capacity s.bytes) };
}

impl ScriptBytes {
    ghost use Rattle.vga_script.specs.ScriptBytes.{script_without_steps, with_bytes_appended};

    /// A script without steps, and room for `room` bytes in all, its header included. The only
    /// error is `OutOfMemory`.
    pub fn new(alloc: Global, room: usize) -> Result<ScriptBytes, Fault>
        ensures ok { IfOk result (λ script. script ≡ script_without_steps room) }
        ensures err { IsOkUnless result Fault.OutOfMemory }
    {
        let Ok(bytes) = Vec::with_capacity(alloc, room) else {
            return Err(Fault::OutOfMemory);
        };
        let mut script = ScriptBytes {
            bytes,
            len: 0,
            room,
        };
        let [v, g, a, s] = opcode::MAGIC;
        script.push(&[v, g, a, s, Version::One.byte()]);
        Ok(script)
    }

    /// Appends bytes.
    fn push(&mut self, more: &[u8])
        requires { length more.now ≤ 8 }
        ensures { self.new ≡ with_bytes_appended self.old more.now }
    {
        if self.len > SCRIPT_LIMIT {
            return;
        }
        self.len += more.len();
        if self.len <= self.room && self.bytes.extend_from_slice(more).is_err() {
            unreachable!();
        }
    }

    /// Appends a write of a byte to a port.
    pub fn push_out(&mut self, port: u16, value: u8)
        ensures { self.new ≡ with_bytes_appended self.old (spelling (Out port value)) }
    {
        let [low, high] = port.to_le_bytes();
        self.push(&[opcode::OUT, low, high, value]);
    }

    /// Appends a read of a byte from a port.
    pub fn push_in(&mut self, port: u16)
        ensures { self.new ≡ with_bytes_appended self.old (spelling (In port)) }
    {
        let [low, high] = port.to_le_bytes();
        self.push(&[opcode::IN, low, high]);
    }

    /// Appends a write of a byte to an address.
    pub fn push_put(&mut self, address: u32, value: u8)
        ensures { self.new ≡ with_bytes_appended self.old (spelling (Put address value)) }
    {
        let [a, b, c, d] = address.to_le_bytes();
        self.push(&[opcode::PUT, a, b, c, d, value]);
    }

    /// Appends a read of a byte from an address.
    pub fn push_get(&mut self, address: u32)
        ensures { self.new ≡ with_bytes_appended self.old (spelling (Get address)) }
    {
        let [a, b, c, d] = address.to_le_bytes();
        self.push(&[opcode::GET, a, b, c, d]);
    }

    /// Whether there are more bytes than a script may have.
    pub fn is_too_long(&self) -> bool
        ensures { result ≡ nat_lt script_limit self.now.len }
    {
        self.len > SCRIPT_LIMIT
    }

    /// How many bytes there are in all, or more than a script may have.
    pub fn len(&self) -> usize
        ensures { result ≡ self.now.len }
    {
        self.len
    }

    /// The bytes that are kept: all of them, if there was room.
    pub fn as_slice(&self) -> &[u8]
        ensures { result.now ≡ self.now.bytes }
    {
        self.bytes.as_slice()
    }
}
