//! Files and output.
ghost use Rattle.std.specs.Prelude.{◌≡◌, false, [], IfOk, IsOkUnless};
ghost use Rattle.std.specs.Io.Buffered.{writer_buffer, writer_capacity, writer_inner};
ghost use Rattle.vga_bits.specs.Tracked.{inner_of, has_failed, WritesWholeOrPrefix};

use std::alloc::Global;
use std::fs;
use std::io::{BufWriter, Write};
use std::rt::Files;
use vga_bits::{Fault, Tracked, flush, write_whole};

/// The length of the buffer before a writer, 256 KiB.
const BUFFER_LEN: usize = 262_144;

/// Creates the file at a path for writing, or empties it if it exists. None of its calls has failed
/// so far.
///
/// # Errors
///
/// `WriteFault` if it cannot be created.
pub fn create<F: Files>(files: &F, path: &str) -> Result<Tracked<F::File>, Fault>
    ensures sound { IfOk result (λ file. has_failed file ≡ false) }
    ensures fault { IsOkUnless result Fault.WriteFault }
{
    match fs::create(files, path) {
        Ok(file) => Ok(Tracked::new(file)),
        Err(_) => Err(Fault::WriteFault),
    }
}

/// Puts a buffer of 262,144 bytes before a writer, so that a long report takes few system calls.
/// Nothing is written yet. The last bytes are written when the writer is flushed or dropped.
///
/// # Errors
///
/// `OutOfMemory` if an allocation fails. The writer is then dropped.
pub fn buffered<W: Write + Drop>(alloc: Global, writer: W) -> Result<Tracked<BufWriter<W>>, Fault>
    ensures inner { IfOk result (λ out. writer_inner (inner_of out) ≡ writer) }
    ensures empty { IfOk result (λ out. writer_buffer (inner_of out) ≡ []) }
    ensures capacity { IfOk result (λ out. writer_capacity (inner_of out) ≡ 262144) }
    ensures sound { IfOk result (λ out. has_failed out ≡ false) }
    ensures fault { IsOkUnless result Fault.OutOfMemory }
{
    match BufWriter::with_capacity(alloc, BUFFER_LEN, writer) {
        Ok(buffered) => Ok(Tracked::new(buffered)),
        Err(_) => Err(Fault::OutOfMemory),
    }
}

/// Writes all the bytes, and flushes the writer. The only error is `WriteFault`: the writer failed,
/// and has a prefix of the bytes.
#[tactic(auto, using(vga_bits::proofs::WritingLemmas::writes_more))]
pub fn write_all<W: Write>(out: &mut Tracked<W>, bytes: &[u8]) -> Result<(), Fault>
    requires { has_failed out.old ≡ false }
    ensures { WritesWholeOrPrefix (W.contents (inner_of out.old)) (W.contents (inner_of out.new))
        (has_failed out.new) result bytes.now }
{
    write_whole(out, bytes)?;
    flush(out)
}
