//! Reading the step that a line spells.
ghost use Rattle.std.specs.Prelude.{◌≡◌, ◌≢◌, ◌≤◌, IfOk, Some, take, drop, option_to_list, List, Err};
ghost use Rattle.vga_script.specs.StepReading.{GivesWhatIsRead, hex_number_of, next_hex_number};
ghost use Rattle.vga_script.specs.StepReading.{no_word_left, only_hex_number};
ghost use Rattle.vga_script.specs.StepReading.{next_decimal_number, only_decimal_number};
ghost use Rattle.vga_script.specs.StepReading.{next_register, block_bytes_of_word};
ghost use Rattle.vga_script.specs.StepReading.{only_block_digits, block_at};
ghost use Rattle.vga_script.specs.StepReading.{read_bios_call};
ghost use Rattle.vga_script.specs.StepReading.{shown_if_no_word_left, read_dac, read_plane};
ghost use Rattle.vga_script.specs.StepReading.{read_shown, step_of_keyword};
ghost use Rattle.vga_script.specs.Text.{SpellsLine};
ghost use Rattle.vga_script.specs.Tokens.{in_lower_case, words, words_between_blanks};
ghost use Rattle.vga_script.specs.declared.step.Step.{Step};

use super::block::Block;
use super::dump_range::{MOST_SHOWN, Shown};
use super::keyword::{Keyword, is_name};
use super::numbers::number_of_word;
use super::numeric_steps::numeric_steps;
use super::step::Step;
use super::tokens::{before_comment, next_word};
use hex::FromHexError;
use std::alloc::Global;

/// How many digits the longest block of a call has.
pub const MOST_BLOCK_DIGITS: usize = 131_070;

/// Why words were not read.
#[derive(Clone, Copy, PartialEq, Eq, Debug)]
pub enum Unread {
    /// They spell nothing that may stand there.
    Bad,
    /// An allocation failed.
    OutOfMemory,
}

/// Reads the hexadecimal number that a word spells, of at most `digits` digits and at most `most`.
#[tactic(auto, unfolding(crate::specs::StepReading::hex_number_of))]
fn hex_number_of(word: &[u8], digits: usize, most: u32) -> Result<u32, Unread>
    ensures read { GivesWhatIsRead (λ n. n) result (hex_number_of digits most word.now) }
    ensures bound { IfOk result (λ n. n ≤ most) }
{
    if word.len() > digits {
        return Err(Unread::Bad);
    }
    match number_of_word(word, 16, most) {
        Some(n) => Ok(n),
        None => Err(Unread::Bad),
    }
}

/// Reads the hexadecimal number that the first word spells, of at most `digits` digits and at most
/// `most`, and returns it with what follows the word.
#[tactic(auto, unfolding(crate::specs::StepReading::next_hex_number))]
fn next_hex_number(fields: &[u8], digits: usize, most: u32) -> Result<(u32, &[u8]), Unread>
    ensures read { GivesWhatIsRead (λ x. (x.0, words_between_blanks x.1.now)) result
        (next_hex_number digits most (words_between_blanks fields.now)) }
    ensures bound { IfOk result (λ x. x.0 ≤ most) }
{
    let Some((word, rest)) = next_word(fields) else {
        return Err(Unread::Bad);
    };
    let n = hex_number_of(word, digits, most)?;
    Ok((n, rest))
}

/// Checks that no word follows.
#[tactic(auto, unfolding(crate::specs::StepReading::no_word_left))]
fn no_word_left(rest: &[u8]) -> Result<(), Unread>
    ensures { GivesWhatIsRead (λ u. tt) result (no_word_left (words_between_blanks rest.now)) }
{
    match next_word(rest) {
        None => Ok(()),
        Some(_) => Err(Unread::Bad),
    }
}

/// Reads one hexadecimal number, and checks that no other word follows.
#[tactic(auto, unfolding(crate::specs::StepReading::only_hex_number))]
fn only_hex_number(fields: &[u8], digits: usize, most: u32) -> Result<u32, Unread>
    ensures read { GivesWhatIsRead (λ n. n) result (only_hex_number digits most (words_between_blanks
        fields.now)) }
    ensures bound { IfOk result (λ n. n ≤ most) }
{
    let (n, rest) = next_hex_number(fields, digits, most)?;
    no_word_left(rest)?;
    Ok(n)
}

/// Reads the decimal number that the first word spells, at most `most`, and returns it with what
/// follows.
fn next_decimal_number(fields: &[u8], most: u32) -> Result<(u32, &[u8]), Unread>
    ensures read { GivesWhatIsRead (λ x. (x.0, words_between_blanks x.1.now)) result
        (next_decimal_number most (words_between_blanks fields.now)) }
    ensures bound { IfOk result (λ x. x.0 ≤ most) }
{
    let Some((word, rest)) = next_word(fields) else {
        return Err(Unread::Bad);
    };
    match number_of_word(word, 10, most) {
        Some(n) => Ok((n, rest)),
        None => Err(Unread::Bad),
    }
}

/// Reads one decimal number, at most `most`, and checks that no other word follows.
#[tactic(auto, unfolding(crate::specs::StepReading::only_decimal_number))]
fn only_decimal_number(fields: &[u8], most: u32) -> Result<u32, Unread>
    ensures read { GivesWhatIsRead (λ n. n) result (only_decimal_number most (words_between_blanks
        fields.now)) }
    ensures bound { IfOk result (λ n. n ≤ most) }
{
    let (n, rest) = next_decimal_number(fields, most)?;
    no_word_left(rest)?;
    Ok(n)
}

/// The first three bytes of a word, and the others.
#[tactic(auto, using(std::proofs::lemmas::List::take_min, std::proofs::lemmas::List::drop_min))]
fn three_bytes_and_rest(word: &[u8]) -> (&[u8], &[u8])
    ensures prefix { result.0.now ≡ take 3 word.now }
    ensures rest { result.1.now ≡ drop 3 word.now }
{
    word.split_at(word.len().min(3))
}

/// Reads the register `name`, which includes the equals sign, if the first word is that register;
/// otherwise the value is 0. It returns the value with what follows.
#[tactic(auto, unfolding(crate::specs::StepReading::next_register))]
fn next_register<'a>(fields: &'a [u8], name: &[u8]) -> Result<(u16, &'a [u8]), Unread>
    requires { in_lower_case name.now ≡ name.now }
    ensures { GivesWhatIsRead (λ x. (x.0, words_between_blanks x.1.now)) result
        (next_register name.now (words_between_blanks fields.now)) }
{
    let Some((word, rest)) = next_word(fields) else {
        return Ok((0, fields));
    };
    let (prefix, digits) = three_bytes_and_rest(word);
    if !is_name(prefix, name) {
        return Ok((0, fields));
    }
    let n = hex_number_of(digits, 4, 0xFFFF)?;
    let n = n as u16;
    Ok((n, rest))
}

/// Decodes the digits of a block into bytes.
#[tactic(auto, unfolding(crate::specs::StepReading::block_bytes_of_word))]
fn block_bytes_of_word(alloc: Global, word: &[u8]) -> Result<Vec<u8>, Unread>
    ensures { GivesWhatIsRead (λ bytes. bytes.items) result (block_bytes_of_word word.now) }
{
    if word.is_empty() || word.len() > MOST_BLOCK_DIGITS {
        return Err(Unread::Bad);
    }
    match hex::decode(alloc, word) {
        Ok(bytes) => Ok(bytes),
        Err(FromHexError::OutOfMemory) => Err(Unread::OutOfMemory),
        Err(_) => Err(Unread::Bad),
    }
}

/// Reads the digits after the word `block` as bytes, and checks that no other word follows.
#[tactic(auto, unfolding(crate::specs::StepReading::only_block_digits))]
fn only_block_digits(alloc: Global, fields: &[u8]) -> Result<Vec<u8>, Unread>
    ensures { GivesWhatIsRead (λ bytes. bytes.items) result
        (only_block_digits (words_between_blanks fields.now)) }
{
    let Some((word, rest)) = next_word(fields) else {
        return Err(Unread::Bad);
    };
    let block = block_bytes_of_word(alloc, word)?;
    no_word_left(rest)?;
    Ok(block)
}

/// Reads a block, which is empty if no word is left, and checks that no other word follows.
#[tactic(auto, unfolding(crate::specs::StepReading::block_at))]
fn block_at(alloc: Global, fields: &[u8]) -> Result<Vec<u8>, Unread>
    ensures { GivesWhatIsRead (λ bytes. bytes.items) result (block_at (words_between_blanks fields.now)) }
{
    let Some((word, rest)) = next_word(fields) else {
        return Ok(Vec::new(alloc));
    };
    if !is_name(word, b"block") {
        return Err(Unread::Bad);
    }
    only_block_digits(alloc, rest)
}

/// Reads a call of the BIOS. Its block is kept in `kept`.
#[tactic(auto, unfolding(crate::specs::StepReading::read_bios_call))]
fn read_bios_call<'a>(
    alloc: Global,
    kept: &'a mut Vec<u8>,
    fields: &[u8],
) -> Result<Step<'a>, Unread>
    ensures { GivesWhatIsRead (λ step. step) result (read_bios_call (words_between_blanks fields.now)) }
{
    let (ax, rest) = next_register(fields, b"ax=")?;
    let (bx, rest) = next_register(rest, b"bx=")?;
    let (cx, rest) = next_register(rest, b"cx=")?;
    let (dx, rest) = next_register(rest, b"dx=")?;
    *kept = block_at(alloc, rest)?;
    let block = Block::of_slice(kept.as_slice());
    Ok(Step::Int {
        ax,
        bx,
        cx,
        dx,
        block,
    })
}

/// Reads a number of one byte, and returns it with what follows.
fn u8_at(fields: &[u8]) -> Result<(u8, &[u8]), Unread>
    ensures { GivesWhatIsRead (λ x. (x.0, words_between_blanks x.1.now)) result (next_hex_number 2 0xFF
        (words_between_blanks fields.now)) }
{
    let (n, rest) = next_hex_number(fields, 2, 0xFF)?;
    Ok((n as u8, rest))
}

/// Reads a number of two bytes, and returns it with what follows.
fn u16_at(fields: &[u8]) -> Result<(u16, &[u8]), Unread>
    ensures { GivesWhatIsRead (λ x. (x.0, words_between_blanks x.1.now)) result (next_hex_number 4 0xFFFF
        (words_between_blanks fields.now)) }
{
    let (n, rest) = next_hex_number(fields, 4, 0xFFFF)?;
    Ok((n as u16, rest))
}

/// Checks that no word follows, and returns what is shown.
#[tactic(auto, unfolding(crate::specs::StepReading::shown_if_no_word_left))]
fn shown_if_no_word_left(what: Shown, fields: &[u8]) -> Result<Shown, Unread>
    ensures { GivesWhatIsRead (λ shown. shown) result (shown_if_no_word_left what (words_between_blanks
        fields.now)) }
{
    no_word_left(fields)?;
    Ok(what)
}

/// Reads which entry of the DAC is shown.
#[tactic(auto, unfolding(crate::specs::StepReading::read_dac))]
fn read_dac(fields: &[u8]) -> Result<Shown, Unread>
    ensures { GivesWhatIsRead (λ what. what) result (read_dac (words_between_blanks fields.now)) }
{
    let index = only_hex_number(fields, 2, 0xFF)?;
    let index = index as u8;
    Ok(Shown::Dac { index })
}

/// Reads which bytes of a plane are shown.
#[tactic(auto, unfolding(crate::specs::StepReading::read_plane), using(crate::proofs::ShownLemmas::tests_pass, crate::proofs::ShownLemmas::tests_fail))]
fn read_plane(fields: &[u8]) -> Result<Shown, Unread>
    ensures { GivesWhatIsRead (λ what. what) result (read_plane (words_between_blanks fields.now)) }
{
    let (plane, rest) = next_hex_number(fields, 1, 3)?;
    let (offset, rest) = next_hex_number(rest, 4, 0xFFFF)?;
    let count = only_decimal_number(rest, MOST_SHOWN as u32)?;
    let shown = Shown::Plane {
        plane: plane as u8,
        offset: offset as u16,
        count: count as u16,
    };
    if !shown.is_in_range() {
        return Err(Unread::Bad);
    }
    Ok(shown)
}

/// Reads what is shown, by its name.
#[tactic(auto, unfolding(crate::specs::StepReading::read_shown))]
fn read_shown(fields: &[u8]) -> Result<Shown, Unread>
    ensures { GivesWhatIsRead (λ what. what) result (read_shown (words_between_blanks fields.now)) }
{
    let Some((name, rest)) = next_word(fields) else {
        return Err(Unread::Bad);
    };
    if is_name(name, b"regs") {
        return shown_if_no_word_left(Shown::Registers, rest);
    }
    if is_name(name, b"dac") {
        return read_dac(rest);
    }
    if is_name(name, b"beam") {
        return shown_if_no_word_left(Shown::Beam, rest);
    }
    if is_name(name, b"latches") {
        return shown_if_no_word_left(Shown::Latches, rest);
    }
    if is_name(name, b"plane") {
        return read_plane(rest);
    }
    if is_name(name, b"bda") {
        return shown_if_no_word_left(Shown::BiosData, rest);
    }
    if is_name(name, b"cells") {
        return shown_if_no_word_left(Shown::Cells, rest);
    }
    Err(Unread::Bad)
}

/// Reads a field.
macro_rules! read_field {
    (one, $rest:ident) => {
        u8_at($rest)?
    };
    (two, $rest:ident) => {
        u16_at($rest)?
    };
    (four, $rest:ident) => {
        next_hex_number($rest, 8, 0xFFFF_FFFF)?
    };
    (dots, $rest:ident) => {
        next_decimal_number($rest, 0xFFFF_FFFF)?
    };
}

/// Reads the step of a keyword, field by field.
macro_rules! read_steps {
    (
        $keyword:ident, $fields:ident,
        $($name:ident => $step:ident { $($field:ident: $kind:ident),* },)*
    ) => {
        match $keyword {
            $(Keyword::$step => {
                let rest = $fields;
                $(let ($field, rest) = read_field!($kind, rest);)*
                no_word_left(rest)?;
                Ok(Step::$step { $($field),* })
            })*
            _ => Err(Unread::Bad),
        }
    };
}

/// Reads the numeric step of this name from the words after it.
#[tactic(auto, unfolding(crate::specs::StepReading::step_of_keyword, crate::specs::StepReading::only_hex_number, crate::specs::StepReading::only_two_hex_numbers, crate::specs::StepReading::only_decimal_number, crate::specs::StepReading::no_word_left))]
fn read_numeric_step(keyword: Keyword, fields: &[u8]) -> Result<Step<'static>, Unread>
    requires int { keyword ≢ Keyword.Int }
    requires frame { keyword ≢ Keyword.Frame }
    requires show { keyword ≢ Keyword.Show }
    ensures { GivesWhatIsRead (λ step. step) result (step_of_keyword keyword (words_between_blanks
        fields.now)) }
{
    numeric_steps!(read_steps, keyword, fields)
}

/// Reads the step of a keyword from the words after it. A block is kept in `kept`.
#[tactic(auto, unfolding(crate::specs::StepReading::step_of_keyword))]
fn step_of_keyword<'a>(
    alloc: Global,
    kept: &'a mut Vec<u8>,
    keyword: Keyword,
    fields: &[u8],
) -> Result<Step<'a>, Unread>
    ensures { GivesWhatIsRead (λ step. step) result (step_of_keyword keyword (words_between_blanks
        fields.now)) }
{
    match keyword {
        Keyword::Int => read_bios_call(alloc, kept, fields),
        Keyword::Frame => {
            no_word_left(fields)?;
            Ok(Step::Frame)
        }
        Keyword::Show => {
            let shown = read_shown(fields)?;
            Ok(Step::Show { shown })
        }
        _ => read_numeric_step(keyword, fields),
    }
}

/// Reads the step that a line spells, if the line has a word. A block is kept in `kept`.
#[tactic(auto, using(crate::proofs::LineLemmas::line_none, crate::proofs::LineLemmas::line_named, crate::proofs::LineLemmas::line_bad, crate::proofs::LineLemmas::line_unnamed))]
pub fn step_of_line<'a>(
    alloc: Global,
    kept: &'a mut Vec<u8>,
    line: &[u8],
) -> Result<Option<Step<'a>>, Unread>
    ensures found { IfOk result (λ step. SpellsLine (words line.now) (option_to_list step)) }
    ensures bad { result ≡ Err Unread.Bad → (steps : List Step) →
        SpellsLine (words line.now) steps → ⊥ }
{
    let Some((name, fields)) = next_word(before_comment(line)) else {
        return Ok(None);
    };
    let Some(keyword) = Keyword::of_word(name) else {
        return Err(Unread::Bad);
    };
    let step = step_of_keyword(alloc, kept, keyword, fields)?;
    Ok(Some(step))
}
