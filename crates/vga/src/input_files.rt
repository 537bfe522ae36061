//! Opening and reading files.
ghost use Rattle.std.specs.Prelude.{◌≡◌, ◌≤◌, ◌+◌, false, IfOk, IsOkUnless};
ghost use Rattle.vga_bits.specs.Tracked.{inner_of, has_failed, read_count_of};
ghost use Rattle.vga_bits.specs.LimitedReading.{ReadsPrefix};

use std::alloc::Global;
use std::fs;
use std::io::Read;
use std::rt::Files;
use vga_bits::{Fault, Tracked, read_prefix};

/// One byte more than a font file has, to tell a longer file from a font file.
const FONTS_ROOM: usize = 9_729;

/// Opens the file at a path for reading. None of its calls has failed so far.
///
/// # Errors
///
/// `ReadFault` if it cannot be opened.
pub fn open<F: Files>(files: &F, path: &str) -> Result<Tracked<F::File>, Fault>
    ensures sound { IfOk result (λ file. has_failed file ≡ false) }
    ensures fault { IsOkUnless result Fault.ReadFault }
{
    match fs::open(files, path) {
        Ok(file) => Ok(Tracked::new(file)),
        Err(_) => Err(Fault::ReadFault),
    }
}

/// Reads a font file: at most 9,729 bytes, which is one more than a font file has.
///
/// # Errors
///
/// `ReadFault` if the file fails in this call, and `OutOfMemory`.
pub fn read_fonts<R: Read>(alloc: Global, file: &mut Tracked<R>) -> Result<Vec<u8>, Fault>
    requires { has_failed file.old ≡ false }
    ensures prefix { ReadsPrefix 9729 (R.remaining (inner_of file.old))
        (R.remaining (inner_of file.new)) (has_failed file.new) result }
    ensures counted { read_count_of file.new ≤ read_count_of file.old + 9729 }
{
    read_prefix(alloc, file, FONTS_ROOM)
}
