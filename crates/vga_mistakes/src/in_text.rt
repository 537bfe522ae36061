//! The first mistake in a text.
ghost use Rattle.std.specs.Prelude.{◌≡◌, ◌≤◌, ◌-◌, length, IfNone, IfOk, IfSome, IsOkUnless};
ghost use Rattle.std.specs.Prelude.{slice_get};
ghost use Rattle.vga_mistakes.specs.Text.{IsMistakeOfText, LiesInLine, LiesInText};
ghost use Rattle.vga_script.specs.Item.{ScriptItems};
ghost use Rattle.vga_script.specs.Script.{IsScript};
ghost use Rattle.vga_script.specs.Spelling.{script_limit};
ghost use Rattle.vga_script.specs.Text.{SpellsText};
ghost use Rattle.vga_script.specs.Tokens.{lines};

use super::in_line::mistake_in;
use super::mistake::Mistake;
use super::mistake_kind::MistakeKind;
use super::order_mistake::OrderMistake;
use super::text_mistake::TextMistake;
use std::alloc::Global;
use vga_bits::Fault;
use vga_script::{
    SCRIPT_LIMIT, Version, assemble, first_line, is_repeat_end_line, repeat_count_in_version,
    version_and_first_line_of_items,
};

/// The line of this number, from 1. A text without such a line has an empty one.
#[tactic(auto, using(crate::proofs::TextLemmas::next_line))]
fn line_of_text(text: &[u8], number: usize) -> &[u8]
    ensures { IfSome (slice_get (lines text.now) (number - 1)) (λ line. result.now ≡ line) }
{
    let mut left = Some(text);
    let mut before = number.saturating_sub(1);
    while before > 0 {
        let Some(rest) = left else {
            return &[];
        };
        left = first_line(rest).1;
        before -= 1;
    }
    match left {
        Some(rest) => first_line(rest).0,
        None => &[],
    }
}

/// Whether a line begins a repeat.
fn begins_repeat(line: &[u8]) -> bool {
    repeat_count_in_version(line, Version::Two).is_some()
}

/// The number of the line, from 1, of the repeat that is open before this line.
fn open_repeat(text: &[u8], number: usize) -> Option<usize> {
    let mut open = None;
    let lines = text.split(|&byte| byte == b'\n');
    for (before, line) in lines.take(number.saturating_sub(1)).enumerate() {
        if begins_repeat(line) {
            open = Some(before + 1);
        }
        if is_repeat_end_line(line) {
            open = None;
        }
    }
    open
}

/// Whether a repeat ends after this line.
fn ends_after(text: &[u8], number: usize) -> bool {
    let lines = text.split(|&byte| byte == b'\n');
    lines.skip(number).any(|line| is_repeat_end_line(line))
}

/// What is wrong with the place of a line that is good elsewhere.
fn order_mistake(text: &[u8], number: usize, line: &[u8]) -> OrderMistake {
    if is_repeat_end_line(line) {
        return OrderMistake::NoRepeat;
    }
    if !begins_repeat(line) {
        return OrderMistake::TooManySteps;
    }
    match open_repeat(text, number) {
        Some(line) => OrderMistake::RepeatInRepeat { line },
        None if ends_after(text, number) => OrderMistake::TooManyStepsByRepeat,
        None => OrderMistake::NoEnd,
    }
}

/// The mistake in the first bad line of a text, which has this number. The only error is
/// `OutOfMemory`.
fn mistake_in_bad_line(alloc: Global, text: &[u8], number: usize) -> Result<Mistake<'_>, Fault>
    requires { length text.now ≤ script_limit }
    ensures place { IfOk result (λ mistake. LiesInLine text.now number mistake) }
    ensures err { IsOkUnless result Fault.OutOfMemory }
{
    let line = line_of_text(text, number);
    let (version, _, _) = version_and_first_line_of_items(text);
    if let Some(mistake) = mistake_in(alloc, line, version)? {
        return Ok(mistake);
    }
    let kind = MistakeKind::Order(order_mistake(text, number, line));
    Ok(Mistake::of_line(line, kind))
}

/// The mistake that makes a text no script; none if it spells a script. It is that of the fault
/// that [`assemble`](vga_script::assemble) gives: of the same line, or of a text or a script that
/// is too long.
///
/// The only error is `OutOfMemory`.
pub fn mistake_in_text(alloc: Global, text: &[u8]) -> Result<Option<TextMistake<'_>>, Fault>
    ensures found { IfOk result (λ found. IfSome found (λ mistake.
        IsMistakeOfText text.now mistake)) }
    ensures place { IfOk result (λ found. IfSome found (λ mistake. LiesInText text.now mistake)) }
    ensures none { IfOk result (λ found. IfNone found ((script : ScriptItems)
        × SpellsText text.now script × IsScript script)) }
    ensures err { IsOkUnless result Fault.OutOfMemory }
{
    if text.len() > SCRIPT_LIMIT {
        return Ok(Some(TextMistake::LongText));
    }
    match assemble(alloc, text) {
        Ok(_) => Ok(None),
        Err(Fault::BadLine(number)) => {
            let mistake = mistake_in_bad_line(alloc, text, number)?;
            Ok(Some(TextMistake::InLine { number, mistake }))
        }
        Err(Fault::TooLong) => Ok(Some(TextMistake::LongScript)),
        Err(_) => Err(Fault::OutOfMemory),
    }
}
