//! What is wrong in a text that is no script.
ghost use Rattle.std.specs.Prelude.{◌≡◌};
ghost use Rattle.vga_c.specs.Mistakes.{mistake_output, GivesMistakeOfText, IsMistakeTold};
ghost use Rattle.vga_c.specs.Mistakes.{mistake_kind_number, no_mistake as no_mistake_told, told_mistake};

use crate::buffer::write_bytes_if_room_and_their_count;
use crate::sentence::Sentence;
use crate::status::OUT_OF_MEMORY;
use std::alloc::Global;
use std::fmt::Write;
use vga_mistakes::{MistakeKind, TextMistake, mistake_in_text};

/// The first mistake in a text: its line, the part of it, and what kind of mistake it is. All are 0
/// if there is none.
#[repr(C)]
#[derive(Clone, Copy)]
pub struct LineMistake {
    pub line: usize,
    pub start: usize,
    pub length: usize,
    pub kind: u32,
}

/// What is told of a text with no mistake.
fn no_mistake() -> LineMistake
    ensures { result ≡ no_mistake_told }
{
    LineMistake {
        line: 0,
        start: 0,
        length: 0,
        kind: 0,
    }
}

/// The number of a kind of mistakes.
fn kind_number(kind: MistakeKind<'_>) -> u32
    ensures { result ≡ mistake_kind_number kind.entry }
{
    match kind {
        MistakeKind::Character(_) => 1,
        MistakeKind::Comment => 2,
        MistakeKind::Step(_) => 3,
        MistakeKind::Form(_) => 4,
        MistakeKind::Number(_) => 5,
        MistakeKind::Show(_) => 6,
        MistakeKind::Call(_) => 7,
        MistakeKind::Block(_) => 8,
        MistakeKind::Order(_) => 9,
        MistakeKind::Unknown => 10,
    }
}

/// What is told of a mistake.
fn mistake_told(mistake: TextMistake<'_>) -> LineMistake
    ensures { result ≡ told_mistake mistake.entry }
{
    match mistake {
        TextMistake::LongText => LineMistake {
            line: 0,
            start: 0,
            length: 0,
            kind: 11,
        },
        TextMistake::LongScript => LineMistake {
            line: 0,
            start: 0,
            length: 0,
            kind: 12,
        },
        TextMistake::InLine { number, mistake } => LineMistake {
            line: number,
            start: mistake.start,
            length: mistake.length,
            kind: kind_number(mistake.kind),
        },
    }
}

/// Tells a mistake, with its sentence.
fn tell_mistake(
    found: TextMistake<'_>,
    mistake: &mut LineMistake,
    text: &mut [u8],
    len: &mut usize,
) -> u32
    ensures { IsMistakeTold found.entry (mistake_output mistake.old text.old len.old)
        (mistake_output mistake.new text.new len.new) result }
{
    let mut sentence = Sentence::new();
    let _ = sentence.write(found);
    *mistake = mistake_told(found);
    write_bytes_if_room_and_their_count(text, len, sentence.as_bytes())
}

/// Tells the first mistake in a text, with its sentence; nothing if the text spells a script.
#[unsafe(no_mangle)]
pub extern "C" fn zak_explain_text(
    alloc: Global,
    text: &[u8],
    mistake: &mut LineMistake,
    sentence: &mut [u8],
    len: &mut usize,
) -> u32
    ensures { GivesMistakeOfText text.now (mistake_output mistake.old sentence.old len.old)
        (mistake_output mistake.new sentence.new len.new) result }
{
    match mistake_in_text(alloc, text) {
        Ok(Some(found)) => tell_mistake(found, mistake, sentence, len),
        Ok(None) => {
            *mistake = no_mistake();
            write_bytes_if_room_and_their_count(sentence, len, &[])
        }
        Err(_) => OUT_OF_MEMORY,
    }
}
