//! Each call that allocates, with an example. If an allocation fails, the call that asked for it
//! says so, and every other call answers as in its example.

use crate::checks::Checks;
use crate::screens::{FONTS_LEN, blank_fonts, is_scrolled, screen_after_calls};
use std::alloc::Global;
use std::fmt;
use vga_bits::{Bytes, Fault, Tracked};
use vga_card::Card;
use vga_planes::Planes;
use vga_run::run;
use vga_script::{Script, Step, assemble, decode, encode, print};

/// A text of two steps.
const TEXT: &[u8] = b"out 3c4 2 ; map mask\nINT ax=13";

/// Its bytes.
const BYTES: [u8; 20] = *b"VGAS\x01\x01\xC4\x03\x02\x09\x13\x00\x00\x00\x00\x00\x00\x00\x00\x00";

/// Its printed text.
const PRINTED: &[u8] = b"out 3C4 02\nint ax=0013 bx=0000 cx=0000 dx=0000\n";

/// A text whose step 7 asks for entries of the DAC as a block, which allocates.
const TABLE_TEXT: &[u8] =
    b"int ax=0003\nint ax=1000 bx=3F07\nint ax=1007 bx=0007\nint ax=1012 bx=00FF cx=0002\n\
    int ax=1012 cx=0001 block 010203\nint ax=1015\nint ax=1017 cx=0001\nint ax=1002 block 00\n";

/// Its report.
const TABLE_REPORT: [u8; 250] = *b"1 ax=0003 bx=0000 cx=0000 dx=0000\n\
    2 ax=1000 bx=3F07 cx=0000 dx=0000\n\
    3 ax=1007 bx=3F07 cx=0000 dx=0000\n\
    4 E10 BadRegister\n\
    5 ax=1012 bx=0000 cx=0001 dx=0000\n\
    6 ax=1015 bx=0000 cx=0203 dx=0100\n\
    7 ax=1017 bx=0000 cx=0001 dx=0000 block 010203\n\
    8 E11 BadBlock\n";

/// How many bytes the lines before step 7 have.
const LINES_BEFORE_TABLE: usize = 188;

/// A call that allocates.
#[derive(Clone, Copy)]
pub enum Call {
    BytesCopy,
    BytesZeros,
    PlanesNew,
    CardNew,
    FontsFromBytes,
    ScreenRead,
    Decode,
    Encode,
    Assemble,
    Print,
    Run,
}

/// Each call.
pub const CALLS: [Call; 11] = [
    Call::BytesCopy,
    Call::BytesZeros,
    Call::PlanesNew,
    Call::CardNew,
    Call::FontsFromBytes,
    Call::ScreenRead,
    Call::Decode,
    Call::Encode,
    Call::Assemble,
    Call::Print,
    Call::Run,
];

/// How a call ended.
#[derive(Clone, Copy)]
pub enum Ending {
    /// It answered as its example says.
    AsInExample,
    /// It answered OutOfMemory, and nothing is written.
    OutOfMemory,
    /// It answered OutOfMemory in a step that allocates. The answers of the steps before it are
    /// written, each whole.
    OutOfMemoryInStep,
    /// It answered something else.
    Otherwise,
}

impl fmt::Display for Call {
    fn fmt<W: fmt::Write>(&self, f: &mut fmt::Formatter<W>) -> fmt::Result {
        f.write_str(match self {
            Call::BytesCopy => "Bytes::copy",
            Call::BytesZeros => "Bytes::zeros",
            Call::PlanesNew => "Planes::new",
            Call::CardNew => "Card::new",
            Call::FontsFromBytes => "Fonts::from_bytes",
            Call::ScreenRead => "Screen::read",
            Call::Decode => "decode",
            Call::Encode => "encode",
            Call::Assemble => "assemble",
            Call::Print => "print",
            Call::Run => "run",
        })
    }
}

impl fmt::Display for Ending {
    fn fmt<W: fmt::Write>(&self, f: &mut fmt::Formatter<W>) -> fmt::Result {
        f.write_str(match self {
            Ending::AsInExample => "as in its example",
            Ending::OutOfMemory => "out of memory",
            Ending::OutOfMemoryInStep => "out of memory in a step",
            Ending::Otherwise => "otherwise",
        })
    }
}

/// Whether a font file of zero bytes has glyphs without a dot.
fn are_glyphs_of_zeros_blank(alloc: Global) -> Result<bool, Fault> {
    let fonts = blank_fonts(alloc)?;
    Ok(fonts.f16().byte(255, 15) == 0)
}

/// Whether the steps of a script are those of the first text.
fn are_its_steps(script: &Script) -> bool {
    let mut steps = script.steps();
    let first = steps.next();
    let second = steps.next();
    let is_out = matches!(
        &first,
        Some(Step::Out {
            port: 0x3C4,
            value: 0x02,
        })
    );
    let is_call = matches!(&second, Some(Step::Int { ax: 0x0013, .. }));
    is_out && is_call && steps.next().is_none()
}

/// Whether the bytes of a script are those that were decoded.
fn are_bytes_encoded(alloc: Global) -> Result<bool, Fault> {
    let script = decode(alloc, &BYTES)?;
    Ok(encode(alloc, &script)?.as_slice() == BYTES.as_slice())
}

/// Whether a script is printed.
fn is_script_printed(alloc: Global) -> Result<bool, Fault> {
    let script = decode(alloc, &BYTES)?;
    Ok(print(alloc, &script)?.as_slice() == PRINTED)
}

/// The bytes of the script whose step 7 allocates.
fn table_script(alloc: Global) -> Result<Vec<u8>, Fault> {
    let script = assemble(alloc, TABLE_TEXT)?;
    encode(alloc, &script)
}

/// How a run of that script ended, by its answer and its report.
fn ending_with(answer: Result<(), Fault>, report: &[u8]) -> Ending {
    match answer {
        Ok(()) if report == TABLE_REPORT.as_slice() => Ending::AsInExample,
        Err(Fault::OutOfMemory) if report.is_empty() => Ending::OutOfMemory,
        Err(Fault::OutOfMemory) if report == &TABLE_REPORT[..LINES_BEFORE_TABLE] => {
            Ending::OutOfMemoryInStep
        }
        _ => Ending::Otherwise,
    }
}

/// How a run of these bytes ends, into a writer over this memory.
fn ending_in(alloc: Global, script: &[u8], fonts: &[u8], room: Vec<u8>) -> Ending {
    let mut reader = Tracked::new(script);
    let mut out = Tracked::new(room);
    let answer = run(alloc, &mut reader, fonts, &mut out, None);
    let report = out.into_inner();
    ending_with(answer, report.as_slice())
}

/// How a run of that script ends, into a writer with room for its report.
fn ending_of_run(alloc: Global) -> Result<Ending, Fault> {
    let script = table_script(alloc)?;
    let fonts = Bytes::zeros(alloc, FONTS_LEN)?;
    match Vec::with_capacity(alloc, TABLE_REPORT.len()) {
        Ok(room) => Ok(ending_in(alloc, script.as_slice(), fonts.as_slice(), room)),
        Err(_) => Err(Fault::OutOfMemory),
    }
}

/// Whether the screen of the example is read.
fn is_screen_read(alloc: Global) -> Result<bool, Fault> {
    Ok(match &screen_after_calls(alloc)? {
        Some(screen) => is_scrolled(screen),
        None => false,
    })
}

impl Call {
    /// How the call ends, or its fault.
    fn answer(self, alloc: Global) -> Result<Ending, Fault> {
        let is_right = match self {
            Call::BytesCopy => Bytes::copy(alloc, &BYTES)?.as_slice() == BYTES.as_slice(),
            Call::BytesZeros => Bytes::zeros(alloc, 3)?.as_slice() == [0; 3].as_slice(),
            Call::PlanesNew => Planes::new(alloc)?.byte(3, 0xFFFF) == 0,
            Call::CardNew => Card::new(alloc)?.latches().byte(3) == 0,
            Call::FontsFromBytes => are_glyphs_of_zeros_blank(alloc)?,
            Call::ScreenRead => is_screen_read(alloc)?,
            Call::Decode => are_its_steps(&decode(alloc, &BYTES)?),
            Call::Encode => are_bytes_encoded(alloc)?,
            Call::Assemble => are_its_steps(&assemble(alloc, TEXT)?),
            Call::Print => is_script_printed(alloc)?,
            Call::Run => return ending_of_run(alloc),
        };
        Ok(if is_right {
            Ending::AsInExample
        } else {
            Ending::Otherwise
        })
    }

    /// How the call ends.
    pub fn ending(self, alloc: Global) -> Ending {
        match self.answer(alloc) {
            Ok(ending) => ending,
            Err(Fault::OutOfMemory) => Ending::OutOfMemory,
            Err(_) => Ending::Otherwise,
        }
    }
}

/// Checks that each call answers as its example says, if no allocation fails.
pub fn check_allocating_calls(alloc: Global) -> Checks {
    let mut checks = Checks::new();
    for call in CALLS {
        let is_right = matches!(call.ending(alloc), Ending::AsInExample);
        checks.note("a call that is_prefix_taken memory", is_right);
    }
    checks
}
