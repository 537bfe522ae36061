//! Appending to a list of bytes.
ghost use Rattle.std.specs.Prelude.{◌≡◌, ◌++◌, IsOkUnless, OnOk};
ghost use Rattle.byteorder.specs.Endian.{little_bytes};

use byteorder::{ByteOrder, LittleEndian};
use vga_bits::Fault;

/// Appends bytes. Its only error is `OutOfMemory`.
pub(crate) fn append(out: &mut Vec<u8>, bytes: &[u8]) -> Result<(), Fault>
    ensures ok { OnOk result (out.new.items ≡ out.old.items ++ bytes.now) }
    ensures err { IsOkUnless result Fault.OutOfMemory }
{
    match out.extend_from_slice(bytes) {
        Ok(()) => Ok(()),
        Err(_) => Err(Fault::OutOfMemory),
    }
}

/// Appends a number as two bytes, low byte first. Its only error is `OutOfMemory`.
pub(crate) fn append_u16(out: &mut Vec<u8>, number: u16) -> Result<(), Fault>
    ensures ok { OnOk result (out.new.items ≡ out.old.items ++ little_bytes 2 number) }
    ensures err { IsOkUnless result Fault.OutOfMemory }
{
    let mut field = [0; 2];
    LittleEndian::write_u16(&mut field, number);
    append(out, &field)
}

/// Appends a number as four bytes, low byte first. Its only error is `OutOfMemory`.
pub(crate) fn append_u32(out: &mut Vec<u8>, number: u32) -> Result<(), Fault>
    ensures ok { OnOk result (out.new.items ≡ out.old.items ++ little_bytes 4 number) }
    ensures err { IsOkUnless result Fault.OutOfMemory }
{
    let mut field = [0; 4];
    LittleEndian::write_u32(&mut field, number);
    append(out, &field)
}
