//! What is wrong with the block of a call.

use super::block_mistake::BlockMistake;
use super::call::register_and_value;
use super::digits::{Digits, is_hexadecimal};
use super::form::Form;
use super::mistake::Mistake;
use super::mistake_kind::MistakeKind;
use super::numbers::word_too_many;
use super::words::{Word, Words};
use vga_script::{Keyword, MOST_BLOCK_DIGITS};

/// How many digits of a block a sentence shows at most.
const MOST_DIGITS_SHOWN: usize = 39;

/// A mistake in a block that is a whole word.
fn in_block<'a>(word: Word<'a>, mistake: BlockMistake<'a>) -> Mistake<'a> {
    Mistake::at_word(word, MistakeKind::Block(mistake))
}

/// The digits that a block means, if they are few.
fn few_digits(word: &[u8]) -> Option<Digits<'_>> {
    let digits = Digits::of_block(word)?;
    if digits.len() > MOST_DIGITS_SHOWN {
        return None;
    }
    Some(digits)
}

/// The mistake of a word that stands after the digits of a block.
fn word_after_block(word: Word<'_>) -> Mistake<'_> {
    if is_hexadecimal(word.text) {
        return in_block(word, BlockMistake::Blank);
    }
    if register_and_value(word.text).is_some() {
        return in_block(word, BlockMistake::NotLast);
    }
    word_too_many(word, Form::Step(Keyword::Int))
}

/// Checks how many digits a block has.
fn check_length(word: Word<'_>) -> Result<(), Mistake<'_>> {
    let count = word.text.len();
    if count % 2 != 0 {
        return Err(in_block(word, BlockMistake::Odd { count }));
    }
    if count > MOST_BLOCK_DIGITS {
        return Err(in_block(word, BlockMistake::TooLong));
    }
    Ok(())
}

/// Checks the words after the word `block`, which is given too.
pub(crate) fn check_block<'a>(name: Word<'a>, words: Words<'a>) -> Result<(), Mistake<'a>> {
    let Some((word, others)) = words.split_first() else {
        return Err(in_block(name, BlockMistake::Empty));
    };
    if !is_hexadecimal(word.text) {
        let digits = few_digits(word.text);
        return Err(in_block(word, BlockMistake::NoDigits { digits }));
    }
    match others.first() {
        Some(other) => Err(word_after_block(other)),
        None => check_length(word),
    }
}
