//! The mistake in a line.
ghost use Rattle.std.specs.Prelude.{◌≤◌, ◌+◌, length, IfNone, IfOk, IfSome, IsOkUnless, IsTrue};
ghost use Rattle.std.specs.Prelude.{IsFalse};
ghost use Rattle.vga_mistakes.specs.Line.{IsLine, IsLineOfRepeat};

use super::call::check_call;
use super::first_word::form_of;
use super::form::Form;
use super::mistake::Mistake;
use super::mistake_kind::MistakeKind;
use super::numbers::check_numbers;
use super::odd_character::check_characters;
use super::order_mistake::OrderMistake;
use super::show::check_shown;
use super::step_mistake::StepMistake;
use super::words::{Word, Words};
use std::alloc::Global;
use vga_bits::Fault;
use vga_script::{
    Keyword, Unread, Version, is_repeat_end_line, repeat_count_in_version, says_version_two,
    step_of_line,
};

/// The last of some words, which follow this one.
fn last_word<'a>(first: Word<'a>, words: Words<'a>) -> Word<'a> {
    let mut last = first;
    let mut left = words;
    while let Some((word, others)) = left.split_first() {
        last = word;
        left = others;
    }
    last
}

/// The mistake of a line that begins with the word `version`, which is given too.
fn version_mistake<'a>(line: &'a [u8], name: Word<'a>, words: Words<'a>) -> Mistake<'a> {
    if says_version_two(line) {
        return Mistake::of_line(line, MistakeKind::Order(OrderMistake::VersionTwice));
    }
    let kind = MistakeKind::Step(StepMistake::Version);
    Mistake::at_word(last_word(name, words), kind)
}

/// Checks a line that begins or ends a repeat, in a script of version 1.
fn check_repeat<'a>(line: &'a [u8], form: Form, words: Words<'a>) -> Result<(), Mistake<'a>> {
    check_numbers(form, words)?;
    let kind = MistakeKind::Order(OrderMistake::RepeatInVersionOne);
    Err(Mistake::of_line(line, kind))
}

/// Checks the words of a line that is no line of a script.
fn check_words(line: &[u8]) -> Result<(), Mistake<'_>> {
    check_characters(line)?;
    let Some((name, words)) = Words::of_line(line).split_first() else {
        return Ok(());
    };
    let form = form_of(name)?;
    match form {
        Form::Step(Keyword::Int) => check_call(words),
        Form::Step(Keyword::Show) => check_shown(words),
        Form::Version => Err(version_mistake(line, name, words)),
        Form::Repeat | Form::End => check_repeat(line, form, words),
        _ => check_numbers(form, words),
    }
}

/// The mistake in a line that is no line of a script.
fn mistake_in_bad_line(line: &[u8]) -> Mistake<'_>
    ensures { result.start + result.length ≤ length line.now }
{
    match check_words(line) {
        Err(mistake) => mistake.within_line(line),
        Ok(()) => Mistake::of_line(line, MistakeKind::Unknown),
    }
}

/// Whether a line begins or ends a repeat in a script of this version.
fn is_line_of_repeat(line: &[u8], version: Version) -> bool
    ensures yes { IsTrue result → IsLineOfRepeat version line.now }
    ensures no { IsFalse result → IsLineOfRepeat version line.now → ⊥ }
{
    match (version, repeat_count_in_version(line, version)) {
        (Version::One, _) => false,
        (Version::Two, Some(_)) => true,
        (Version::Two, None) => is_repeat_end_line(line),
    }
}

/// Whether a line is one of a script of this version. The only error is `OutOfMemory`.
fn is_line(alloc: Global, line: &[u8], version: Version) -> Result<bool, Fault>
    ensures yes { IfOk result (λ found. IsTrue found → IsLine version line.now) }
    ensures no { IfOk result (λ found. IsFalse found → IsLine version line.now → ⊥) }
    ensures err { IsOkUnless result Fault.OutOfMemory }
{
    let mut block = Vec::new(alloc);
    match step_of_line(alloc, &mut block, line) {
        Ok(_) => Ok(true),
        Err(Unread::Bad) => Ok(is_line_of_repeat(line, version)),
        Err(Unread::OutOfMemory) => Err(Fault::OutOfMemory),
    }
}

/// The mistake in a line of a script of this version; none if it is such a line. The line has no
/// newline.
///
/// A line of a script spells a step, or has no word; in version 2 it may also begin or end a
/// repeat. The line that says the version is none of these, since it stands before them. Whether a
/// good line may stand where it does, [`mistake_in_text`](super::mistake_in_text) says.
///
/// The only error is `OutOfMemory`.
pub fn mistake_in<'a>(
    alloc: Global,
    line: &'a [u8],
    version: Version,
) -> Result<Option<Mistake<'a>>, Fault>
    ensures found { IfOk result (λ found. IfSome found (λ mistake. IsLine version line.now → ⊥)) }
    ensures none { IfOk result (λ found. IfNone found (IsLine version line.now)) }
    ensures place { IfOk result (λ found. IfSome found (λ mistake.
        mistake.start + mistake.length ≤ length line.now)) }
    ensures err { IsOkUnless result Fault.OutOfMemory }
{
    if is_line(alloc, line, version)? {
        return Ok(None);
    }
    Ok(Some(mistake_in_bad_line(line)))
}
