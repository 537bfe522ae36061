//! Readers that fail, and readers that never end.

use std::io;
use std::io::Read;

/// A reader that gives these bytes, `piece` a call, and then fails with an error of this kind.
#[derive(Drop)]
pub struct Source<'a> {
    bytes: &'a [u8],
    piece: usize,
    kind: io::ErrorKind,
    calls: usize,
}

impl Source<'_> {
    /// A reader of these bytes, `piece` a call, and of this kind of error.
    pub fn of(bytes: &[u8], piece: usize, kind: io::ErrorKind) -> Source<'_> {
        Source {
            bytes,
            piece,
            kind,
            calls: 0,
        }
    }

    /// How many times it was asked for bytes.
    pub fn calls(&self) -> usize {
        self.calls
    }
}

impl Read for Source<'_> {
    fn read(&mut self, buf: &mut [u8]) -> io::Result<usize> {
        self.calls = self.calls.saturating_add(1);
        if self.bytes.is_empty() {
            return Err(io::Error::from(self.kind));
        }
        let n = self.piece.min(self.bytes.len()).min(buf.len());
        let (prefix, rest) = self.bytes.split_at(n);
        buf[..n].copy_from_slice(prefix);
        self.bytes = rest;
        Ok(n)
    }
}

/// A reader that never ends.
#[derive(Drop)]
pub struct Endless {
    given: usize,
}

impl Endless {
    /// A reader that has given nothing yet.
    pub fn new() -> Endless {
        Endless { given: 0 }
    }

    /// How many bytes it has given.
    pub fn given(&self) -> usize {
        self.given
    }
}

impl Read for Endless {
    fn read(&mut self, buf: &mut [u8]) -> io::Result<usize> {
        self.given = self.given.saturating_add(buf.len());
        Ok(buf.len())
    }
}
