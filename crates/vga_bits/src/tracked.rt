//! A reader or a writer that remembers whether a call failed, and how much was read.
ghost use Rattle.std.specs.Prelude.{◌≡◌, ◌||◌, [], is_err, false};
ghost use Rattle.std.specs.Io.{ReadsAtMost, WritesAtMost};
ghost use Rattle.std.specs.Io.KnownBytes.{ReadConsumes, WriteAppends, Keeps};
ghost use Rattle.vga_bits.specs.Tracked.{inner_of, has_failed, read_count_after, read_count_of};
ghost use Rattle.vga_bits.specs.Tracked.{write_fails, WritesWholeOrPrefix};

use super::fault::Fault;
use std::io;
use std::io::{Read, Write};
use std::marker::Model;

/// A reader or a writer that remembers whether one of its calls has failed, and how many bytes were
/// read from it.
///
/// Contracts see three things of it: the reader or writer itself, whether a call has failed, and
/// how many bytes its reads have returned.
#[derive(Drop)]
pub struct Tracked<T> {
    inner: T,
    has_failed: bool,
    read_count: u64,
}

impl<T> Model for Tracked<T> {
    ghost use Rattle.vga_bits.specs.Tracked.{TrackedState};

    ghost Value = { TrackedState T };

    ghost view = { λ t. record {
      inner = t.inner;
      failed = t.has_failed;
      read_count = t.read_count;
    } };
}

impl<T> Tracked<T> {
    /// Tracks a reader or writer. No call of it has failed yet, and no bytes are counted.
    pub fn new(inner: T) -> Tracked<T>
        ensures inner { inner_of result ≡ inner }
        ensures failed { has_failed result ≡ false }
        ensures counted { read_count_of result ≡ 0 }
    {
        Tracked {
            inner,
            has_failed: false,
            read_count: 0,
        }
    }

    /// The reader or writer itself.
    pub fn into_inner(self) -> T
        ensures { result ≡ inner_of self }
    {
        let Tracked {
            inner,
            has_failed: _,
            read_count: _,
        } = self;
        inner
    }

    /// Whether a call has returned an error, or a write of at least one byte has taken none.
    pub fn failed(&self) -> bool
        ensures { result ≡ has_failed self.now }
    {
        let Tracked { has_failed, .. } = self;
        *has_failed
    }

    /// How many bytes its reads have returned. The count stops at 18,446,744,073,709,551,615.
    pub fn read_count(&self) -> u64
        ensures { result ≡ read_count_of self.now }
    {
        self.read_count
    }
}

impl<T: Read> Read for Tracked<T> {
    ghost remaining = { λ t. T.remaining (inner_of t) };

    fn read(&mut self, buf: &mut [u8]) -> io::Result<usize>
        ensures bound { ReadsAtMost result buf.new }
        ensures bytes { ReadConsumes (T.remaining (inner_of self.old))
            (T.remaining (inner_of self.new)) result buf.new }
        ensures failed { has_failed self.new ≡ (has_failed self.old || is_err result) }
        ensures counted { read_count_of self.new
            ≡ read_count_after (read_count_of self.old) result }
    {
        let answer = self.inner.read(buf);
        match &answer {
            Ok(n) => self.read_count = self.read_count.saturating_add(*n as u64),
            Err(_) => self.has_failed = true,
        }
        answer
    }
}

impl<T: Write> Write for Tracked<T> {
    ghost contents = { λ t. T.contents (inner_of t) };

    fn write(&mut self, buf: &[u8]) -> io::Result<usize>
        ensures bound { WritesAtMost result buf.now }
        ensures bytes { WriteAppends (T.contents (inner_of self.old))
            (T.contents (inner_of self.new)) result buf.now }
        ensures failed { has_failed self.new ≡ (has_failed self.old || write_fails result buf.now) }
    {
        let answer = self.inner.write(buf);
        match &answer {
            Ok(0) if !buf.is_empty() => self.has_failed = true,
            Err(_) => self.has_failed = true,
            Ok(_) => {}
        }
        answer
    }

    fn flush(&mut self) -> io::Result<()>
        ensures bytes { Keeps (T.contents (inner_of self.old)) (T.contents (inner_of self.new)) }
        ensures failed { has_failed self.new ≡ (has_failed self.old || is_err result) }
    {
        let answer = self.inner.flush();
        if answer.is_err() {
            self.has_failed = true;
        }
        answer
    }
}

/// Writes the bytes that a first call has left, by as many calls as the writer needs. It fails in
/// the same cases as `write_whole`.
#[tactic(auto, using(crate::proofs::WritingLemmas::written_none, crate::proofs::WritingLemmas::written_more, crate::proofs::WritingLemmas::written_all, crate::proofs::WritingLemmas::written_prefix, crate::proofs::WritingLemmas::written_prefix_nothing))]
#[cold]
#[inline(never)]
fn write_rest<W: Write>(out: &mut Tracked<W>, bytes: &[u8]) -> Result<(), Fault>
    requires { has_failed out.old ≡ false }
    ensures { WritesWholeOrPrefix (W.contents (inner_of out.old)) (W.contents (inner_of out.new))
        (has_failed out.new) result bytes.now }
{
    let mut rest = bytes;
    while !rest.is_empty() {
        match out.write(rest) {
            Ok(0) => return Err(Fault::WriteFault),
            Ok(n) => rest = rest.split_at(n).1,
            Err(_) => return Err(Fault::WriteFault),
        }
    }
    Ok(())
}

/// Writes all the bytes, by as many calls as the writer needs. It fails with `WriteFault`, and only
/// if the writer fails. The writer then has a prefix of the bytes.
#[tactic(auto, using(crate::proofs::WritingLemmas::prefix_is_none, crate::proofs::WritingLemmas::prefix_is_nothing))]
#[inline(always)]
pub fn write_whole<W: Write>(out: &mut Tracked<W>, bytes: &[u8]) -> Result<(), Fault>
    requires { has_failed out.old ≡ false }
    ensures { WritesWholeOrPrefix (W.contents (inner_of out.old)) (W.contents (inner_of out.new))
        (has_failed out.new) result bytes.now }
{
    if bytes.is_empty() {
        return Ok(());
    }
    match out.write(bytes) {
        Ok(0) => Err(Fault::WriteFault),
        Ok(n) if n < bytes.len() => write_rest(out, bytes.split_at(n).1),
        Ok(_) => Ok(()), // Most writers take all at once.
        Err(_) => Err(Fault::WriteFault),
    }
}

/// Flushes the writer. It fails with `WriteFault`, and only if the writer fails.
#[tactic(auto, using(crate::proofs::WritingLemmas::kept_is_nothing))]
pub fn flush<W: Write>(out: &mut Tracked<W>) -> Result<(), Fault>
    requires { has_failed out.old ≡ false }
    ensures { WritesWholeOrPrefix (W.contents (inner_of out.old)) (W.contents (inner_of out.new))
        (has_failed out.new) result [] }
{
    match out.flush() {
        Ok(()) => Ok(()),
        Err(_) => Err(Fault::WriteFault),
    }
}
