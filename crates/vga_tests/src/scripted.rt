//! A reader and writer with given answers.
ghost use Rattle.std.specs.Prelude.{◌≡◌, ◌≤◌, false, IfOk};
ghost use Rattle.vga_bits.specs.Tracked.{has_failed};

use std::alloc::Global;
use std::io;
use std::io::{Read, Write};
use vga_bits::Tracked;

/// What one call answers: at most this many bytes, or an error.
#[derive(Clone, Copy)]
pub enum Answer {
    Bytes(usize),
    Error(io::ErrorKind),
}

/// A reader and writer that answers its calls one after another, and keeps what it was given.
#[derive(Drop)]
pub struct Scripted<'a> {
    answers: &'a [Answer],
    given: Vec<u8>,
}

impl<'a> Scripted<'a> {
    /// One with these answers.
    pub fn of(alloc: Global, answers: &'a [Answer]) -> Tracked<Scripted<'a>>
        ensures { has_failed result ≡ false }
    {
        let given = Vec::new(alloc);
        Tracked::new(Scripted { answers, given })
    }

    /// Whether it was called once for each answer, and was given these bytes.
    pub fn has_taken(&self, bytes: &[u8]) -> bool {
        self.answers.is_empty() && self.given.as_slice() == bytes
    }

    /// The next answer, of at most `most` bytes.
    fn answer(&mut self, most: usize) -> io::Result<usize>
        ensures { IfOk result (λ n. n ≤ most) }
    {
        let [first, rest @ ..] = self.answers else {
            return Ok(0);
        };
        self.answers = rest;
        match first {
            Answer::Bytes(n) => Ok((*n).min(most)),
            Answer::Error(kind) => Err(io::Error::from(*kind)),
        }
    }
}

impl Read for Scripted<'_> {
    fn read(&mut self, buf: &mut [u8]) -> io::Result<usize> {
        let n = self.answer(buf.len())?;
        buf[..n].fill(b'*');
        Ok(n)
    }
}

impl Write for Scripted<'_> {
    fn write(&mut self, buf: &[u8]) -> io::Result<usize> {
        let n = self.answer(buf.len())?;
        self.given.extend_from_slice(&buf[..n])?;
        Ok(n)
    }

    fn flush(&mut self) -> io::Result<()> {
        self.answer(0)?;
        Ok(())
    }
}
