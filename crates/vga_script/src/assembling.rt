//! Assembling the text of a script into bytes.
ghost use Rattle.std.specs.Prelude.{◌≡◌, ◌⊎◌, ◌<◌, ◌≤◌, ◌+◌, List, length, ℕ};
ghost use Rattle.std.specs.Prelude.{IfOk, IfErr, IsOkUnless, Err};
ghost use Rattle.std.specs.Option.{option_copied};
ghost use Rattle.vga_script.specs.Assembling.{AppendsRepeatBody, AppendsGroup, AppendsStepsOfLine};
ghost use Rattle.vga_script.specs.Assembling.{AppendsRepeat};
ghost use Rattle.vga_script.specs.Assembling.{IsRepeatBodyFault, IsFirstGroupFault};
ghost use Rattle.vga_script.specs.Item.{ScriptItems};
ghost use Rattle.vga_script.specs.Script.{IsScript, IsTextFault};
ghost use Rattle.vga_script.specs.Spelling.{script_limit, encoding};
ghost use Rattle.vga_script.specs.Text.{SaysVersionTwo, SpellsLine, SpellsText, ItemsBeginAtLine};
ghost use Rattle.vga_script.specs.Text.{IsFaultOfFirstBadLine};
ghost use Rattle.vga_script.specs.Tokens.{rest_len_with_one_for_its_end, lines, lines_of_rest, words};
ghost use Rattle.vga_script.specs.declared.step.Step.{Step};

use super::opcode;
use super::output::{append, append_u16};
use super::repeat_lines::{
    has_word, is_repeat_end_line, repeat_count_in_version, says_version_two,
};
use super::script::{SCRIPT_LIMIT, STEP_LIMIT, Script};
use super::step_bytes::append_step;
use super::step_reading::{Unread, step_of_line};
use super::tokens::first_line;
use super::version::Version;
use std::alloc::Global;
use vga_bits::Fault;

/// Appends the bytes of the step that a line spells, if the line has a word, and returns how many
/// steps that is: 0 or 1.
#[tactic(auto, using(crate::proofs::ScriptLemmas::line_in_range))]
fn append_line(alloc: Global, out: &mut Vec<u8>, line: &[u8]) -> Result<usize, Unread>
    ensures found { IfOk result (λ len. AppendsStepsOfLine line.now out.old.items out.new.items len) }
    ensures bad { result ≡ Err Unread.Bad → (steps : List Step) →
        SpellsLine (words line.now) steps → ⊥ }
{
    let mut block = Vec::new(alloc);
    let Some(step) = step_of_line(alloc, &mut block, line)? else {
        return Ok(0);
    };
    match append_step(out, &step) {
        Ok(()) => Ok(1),
        Err(_) => Err(Unread::OutOfMemory),
    }
}

/// Appends the bytes of the steps of a repeat, whose first line has the number `first`. It returns
/// the number of steps, what follows the line of its end, and the number of the line after that.
#[tactic(auto, using(crate::proofs::AssembleLemmas::body_begins, crate::proofs::AssembleLemmas::body_more, crate::proofs::AssembleLemmas::body_ends, crate::proofs::AssembleLemmas::body_bad, crate::proofs::AssembleLemmas::body_open))]
fn append_repeat_body<'a>(
    alloc: Global,
    out: &mut Vec<u8>,
    left: Option<&'a [u8]>,
    first: usize,
) -> Result<(usize, Option<&'a [u8]>, usize), Fault>
    requires { first + rest_len_with_one_for_its_end (option_copied left) ≤ script_limit + 2 }
    ensures found { IfOk result (λ x. AppendsRepeatBody (first + 1) (option_copied left.entry)
        out.old.items
        out.new.items x.0 x.2 (option_copied x.1)) }
    ensures fault { IfErr result (λ e. (e ≡ Fault.OutOfMemory)
        ⊎ IsRepeatBodyFault first (option_copied left.entry) e) }
{
    let mut len = 0;
    let mut left = left;
    let mut number = first + 1;
    while let Some(rest) = left {
        let (line, others) = first_line(rest);
        if is_repeat_end_line(line) {
            return Ok((len, others, number + 1));
        }
        match append_line(alloc, out, line) {
            Ok(more) => len += more,
            Err(Unread::Bad) => return Err(Fault::BadLine(number)),
            Err(Unread::OutOfMemory) => return Err(Fault::OutOfMemory),
        }
        left = others;
        number += 1;
    }
    Err(Fault::BadLine(first))
}

/// Appends the bytes of a repeat whose first line has the number `first` and says `count`. It
/// returns how many steps the repeat means, what follows its last line, and the number of the line
/// after that.
fn append_repeat<'a>(
    alloc: Global,
    out: &mut Vec<u8>,
    count: u16,
    left: Option<&'a [u8]>,
    number: usize,
) -> Result<(usize, Option<&'a [u8]>, usize), Fault>
    requires { number + rest_len_with_one_for_its_end (option_copied left) ≤ script_limit + 2 }
    ensures found { IfOk result (λ x. AppendsRepeat (number + 1) (option_copied left.entry) count
        out.old.items
        out.new.items x.0 x.2 (option_copied x.1)) }
    ensures fault { IfErr result (λ e. (e ≡ Fault.OutOfMemory)
        ⊎ IsRepeatBodyFault number (option_copied left.entry) e) }
{
    append(out, &[opcode::REPEAT])?;
    append_u16(out, count)?;
    let (len, left, next) = append_repeat_body(alloc, out, left, number)?;
    append(out, &[opcode::END])?;
    Ok((count as usize * len, left, next))
}

/// Appends the bytes of the item that a line outside repeats spells or begins, if the line has a
/// word. It returns how many steps the item means, what follows its last line, and the number of
/// the line after that. The line has the number `first`, and `rest` follows it.
#[tactic(auto, using(crate::proofs::AssembleLemmas::group_of_repeat, crate::proofs::AssembleLemmas::group_bad))]
fn append_group<'a>(
    alloc: Global,
    out: &mut Vec<u8>,
    version: Version,
    text: &'a [u8],
    number: usize,
) -> Result<(usize, Option<&'a [u8]>, usize), Fault>
    requires { number + length text.now ≤ script_limit + 1 }
    ensures found { IfOk result (λ x. AppendsGroup version number (lines text.now) out.old.items
        out.new.items x.0 x.2
        (option_copied x.1)) }
    ensures shorter { IfOk result (λ x. x.2 + rest_len_with_one_for_its_end (option_copied x.1) ≤ number
        + (length text.now + 1)) }
    ensures later { IfOk result (λ x. number < x.2) }
    ensures fault { IfErr result (λ e. (e ≡ Fault.OutOfMemory)
        ⊎ IsFirstGroupFault version number (lines text.now) e) }
{
    let (line, others) = first_line(text);
    if let Some(count) = repeat_count_in_version(line, version) {
        return append_repeat(alloc, out, count, others, number);
    }
    match append_line(alloc, out, line) {
        Ok(len) => Ok((len, others, number + 1)),
        Err(Unread::Bad) => Err(Fault::BadLine(number)),
        Err(Unread::OutOfMemory) => Err(Fault::OutOfMemory),
    }
}

/// Finds the version of the script that a text may spell, the lines of its items, and the number of
/// the first of those lines.
#[tactic(auto, using(crate::proofs::AssembleLemmas::blank_none, crate::proofs::AssembleLemmas::two_found))]
pub fn version_and_first_line_of_items(text: &[u8]) -> (Version, Option<&[u8]>, usize)
    requires { length text.now ≤ script_limit }
    ensures from { ItemsBeginAtLine result.0 (lines text.now) result.2
        (lines_of_rest (option_copied result.1)) }
    ensures one { result.0 ≡ Version.One → (n : ℕ) (others : List (List ℕ)) →
        SaysVersionTwo (lines text.now) n others → ⊥ }
    ensures short { result.2 + rest_len_with_one_for_its_end (option_copied result.1) ≤ length text.now + 2 }
{
    let mut left = Some(text);
    let mut number = 1usize;
    while let Some(rest) = left {
        let (line, others) = first_line(rest);
        number += 1;
        if says_version_two(line) {
            return (Version::Two, others, number);
        }
        if has_word(line) {
            return (Version::One, Some(text), 1);
        }
        left = others;
    }
    (Version::One, Some(text), 1)
}

/// Assembles the lines of a text that stand after the line of its version, or finds the first bad
/// one. It returns the bytes of the items.
#[tactic(auto, using(crate::proofs::AssembleLemmas::read_none, crate::proofs::AssembleLemmas::read_more, crate::proofs::AssembleLemmas::read_all))]
fn assemble_items(alloc: Global, text: &[u8]) -> Result<Vec<u8>, Fault>
    requires { length text.now ≤ script_limit }
    ensures found { IfOk result (λ bytes. (script : ScriptItems) × SpellsText text.now script
        × (bytes.items ≡ encoding script)) }
    ensures fault { IfErr result (λ e. (e ≡ Fault.OutOfMemory) ⊎ IsFaultOfFirstBadLine text.now e) }
{
    let (version, mut left, mut number) = version_and_first_line_of_items(text);
    let mut out = Vec::new(alloc);
    append(&mut out, &opcode::MAGIC)?;
    append(&mut out, &[version.byte()])?;
    let mut so_far = 0;
    while let Some(rest) = left {
        let (step_count_meant, behind, next) = append_group(
            alloc, &mut out, version, rest, number,
        )?;
        if step_count_meant > STEP_LIMIT - so_far {
            return Err(Fault::BadLine(number));
        }
        so_far += step_count_meant;
        left = behind;
        number = next;
    }
    Ok(out)
}

/// Assembles a text of allowed length, or finds its first fault.
#[tactic(auto, using(crate::proofs::ScriptLemmas::too_long))]
fn assemble_script(alloc: Global, text: &[u8]) -> Result<Script, Fault>
    ensures found { IfOk result (λ script. (length text.now ≤ script_limit)
        × SpellsText text.now script) }
    ensures script { IfOk result (λ script. IsScript script) }
    ensures fault { IfErr result (λ e. (e ≡ Fault.OutOfMemory) ⊎ IsTextFault text.now e) }
{
    if text.len() > SCRIPT_LIMIT {
        return Err(Fault::TooLong);
    }
    let bytes = assemble_items(alloc, text)?;
    if bytes.len() > SCRIPT_LIMIT {
        return Err(Fault::TooLong);
    }
    Ok(Script::of_bytes(bytes))
}

/// Assembles a text: it returns the script that the text spells.
///
/// A text that spells no script has a fault. If it has several, the first in this order is
/// returned:
///
/// - `TooLong`: the text has more than 16,777,216 bytes.
/// - `BadLine`: the first bad line has this number, counted from 1.
/// - `TooLong`: the script has more than 16,777,216 bytes.
///
/// The first line with a word may be `version 2`; otherwise the script is of version 1. A line with
/// words must be a step; in version 2 it may also be `repeat` with a count of 1 to 65,535, outside
/// repeats, or `end` in a repeat. Any other line with words is bad.
///
/// A line with `repeat` is bad as well if its repeat has no end, which is found after all bad lines
/// in the repeat, or if the repeat makes the script mean more than 16,777,216 steps. So is the line
/// of a step that does.
///
/// `OutOfMemory`: an allocation failed.
pub fn assemble(alloc: Global, text: &[u8]) -> Result<Script, Fault>
    ensures found { IfOk result (λ script. (length text.now ≤ script_limit)
        × SpellsText text.now script) }
    ensures script { IfOk result (λ script. IsScript script) }
    ensures fault { IfErr result (λ e. (e ≡ Fault.OutOfMemory) ⊎ IsTextFault text.now e) }
    ensures runs { (script : ScriptItems) → length text.now ≤ script_limit →
        SpellsText text.now script →
        length (encoding script) ≤ script_limit → IsOkUnless result Fault.OutOfMemory }
{
    assemble_script(alloc, text)
}
