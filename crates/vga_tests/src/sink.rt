//! A writer that takes one byte a call, and refuses more once it is full.
ghost use Rattle.std.specs.Prelude.{◌≡◌, false, IfOk};
ghost use Rattle.vga_bits.specs.Tracked.{has_failed};

use std::alloc::Global;
use std::io;
use std::io::Write;
use vga_bits::Tracked;

/// How a full writer refuses bytes.
#[derive(Clone, Copy)]
pub enum Full {
    /// It takes none of them.
    TakesNone,
    /// It answers an error.
    Fails,
}

/// Each way of refusing.
pub const FULL: [Full; 2] = [Full::TakesNone, Full::Fails];

/// A writer that takes one byte a call until it is full, and then refuses. It can be flushed until
/// it is full.
#[derive(Drop)]
pub struct Sink {
    room: usize,
    full: Full,
    bytes: Vec<u8>,
    calls: usize,
    flushes: usize,
}

impl Sink {
    /// A writer with room for `room` bytes that then refuses in this way.
    pub fn new(alloc: Global, room: usize, full: Full) -> Tracked<Sink>
        ensures { has_failed result ≡ false }
    {
        Tracked::new(Sink {
            room,
            full,
            bytes: Vec::new(alloc),
            calls: 0,
            flushes: 0,
        })
    }

    /// What it has taken.
    pub fn bytes(&self) -> &[u8] {
        self.bytes.as_slice()
    }

    /// How many times it was asked to take bytes.
    pub fn calls(&self) -> usize {
        self.calls
    }

    /// How many times it was flushed.
    pub fn flushes(&self) -> usize {
        self.flushes
    }

    /// What it answers once it is full.
    fn refuse(&self) -> io::Result<usize>
        ensures { IfOk result (λ n. n ≡ 0) }
    {
        match self.full {
            Full::TakesNone => Ok(0),
            Full::Fails => Err(io::Error::from(io::ErrorKind::StorageFull)),
        }
    }
}

impl Write for Sink {
    fn write(&mut self, buf: &[u8]) -> io::Result<usize> {
        self.calls = self.calls.saturating_add(1);
        let Some(first) = buf.first() else {
            return Ok(0);
        };
        if self.room == 0 {
            return self.refuse();
        }
        self.room -= 1;
        self.bytes.push(*first)?;
        Ok(1)
    }

    fn flush(&mut self) -> io::Result<()> {
        self.flushes = self.flushes.saturating_add(1);
        if self.room == 0 {
            return Err(io::Error::from(io::ErrorKind::Other));
        }
        Ok(())
    }
}
