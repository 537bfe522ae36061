//! What is wrong with the numbers of a line.

use super::digits::{Digits, is_decimal, is_hexadecimal};
use super::first_word::begins_comment;
use super::form::Form;
use super::form_mistake::FormMistake;
use super::mistake::Mistake;
use super::mistake_kind::MistakeKind;
use super::number::{Number, Spelling};
use super::number_mistake::NumberMistake;
use super::words::{Word, Words};
use vga_script::number_of_word;

/// Some digits without the zeros that they begin with, but with one digit at least.
fn without_zeros(digits: &[u8]) -> &[u8] {
    match digits.iter().position(|&digit| digit != b'0') {
        Some(zeros) => digits.split_at(zeros).1,
        None => digits.split_at(digits.len().saturating_sub(1)).1,
    }
}

/// What is wrong with a number of too many hexadecimal digits.
fn too_many_digits(number: Number, text: &[u8], most_digits: usize) -> NumberMistake<'_> {
    let shorter = without_zeros(text);
    NumberMistake::TooManyDigits {
        number,
        count: text.len(),
        shorter: (shorter.len() <= most_digits).then_some(shorter),
    }
}

/// What is wrong with a number that is not hexadecimal digits alone.
fn no_hexadecimal(number: Number, text: &[u8], most_digits: usize) -> NumberMistake<'_> {
    if let Some(digits) = Digits::hexadecimal(text) {
        if digits.len() <= most_digits {
            return NumberMistake::OtherDigits { digits };
        }
    }
    match text {
        [] => NumberMistake::NoDigits { number },
        [b'+' | b'-', ..] => NumberMistake::Sign,
        [first, ..] => {
            let letter = text.iter().copied().find(|byte| !byte.is_ascii_hexdigit());
            NumberMistake::NoDigit {
                number,
                letter: letter.unwrap_or(*first),
            }
        }
    }
}

/// What is wrong with a number that is not decimal digits alone.
fn no_decimal(number: Number, text: &[u8]) -> NumberMistake<'_> {
    if let Some(digits) = Digits::decimal(text) {
        return NumberMistake::OtherDecimalDigits { number, digits };
    }
    if let Some(digits) = Digits::hexadecimal(text) {
        if let Some(value) = digits.hexadecimal_value() {
            return NumberMistake::Hexadecimal { number, value };
        }
    }
    match text {
        [b'+' | b'-', ..] => NumberMistake::Sign,
        _ => NumberMistake::NoDecimal { number },
    }
}

/// What is wrong with a hexadecimal number, if something is.
fn hexadecimal_mistake(
    number: Number,
    text: &[u8],
    most_digits: usize,
    most: u32,
) -> Option<NumberMistake<'_>> {
    if !is_hexadecimal(text) {
        return Some(no_hexadecimal(number, text, most_digits));
    }
    if text.len() > most_digits {
        return Some(too_many_digits(number, text, most_digits));
    }
    match number_of_word(text, 16, most) {
        Some(_) => None,
        None => Some(NumberMistake::OutOfRange { number }),
    }
}

/// What is wrong with a decimal number, if something is.
fn decimal_mistake(
    number: Number,
    text: &[u8],
    least: u32,
    most: u32,
) -> Option<NumberMistake<'_>> {
    if !is_decimal(text) {
        return Some(no_decimal(number, text));
    }
    match number_of_word(text, 10, most) {
        Some(value) if value >= least => None,
        _ => Some(NumberMistake::OutOfRange { number }),
    }
}

/// Checks the number that a word or the end of a word spells.
pub(crate) fn check_number<'a>(
    number: Number,
    word: Word<'a>,
    text: &'a [u8],
) -> Result<(), Mistake<'a>> {
    let mistake = match number.spelling() {
        Spelling::Hexadecimal { digits, most } => hexadecimal_mistake(number, text, digits, most),
        Spelling::Decimal { least, most } => decimal_mistake(number, text, least, most),
    };
    match mistake {
        None => Ok(()),
        Some(mistake) => Err(Mistake::at_word(word, MistakeKind::Number(mistake))),
    }
}

/// The mistake of a word that stands after the last word of a form.
pub(crate) fn word_too_many(word: Word<'_>, form: Form) -> Mistake<'_> {
    let kind = if begins_comment(word.text) {
        MistakeKind::Comment
    } else if Form::of_word(word.text).is_some() {
        MistakeKind::Form(FormMistake::SecondStep)
    } else {
        MistakeKind::Form(FormMistake::TooMany { form })
    };
    Mistake::at_word(word, kind)
}

/// Checks that words are the numbers of a form.
pub(crate) fn check_numbers(form: Form, words: Words<'_>) -> Result<(), Mistake<'_>> {
    let mut left = words;
    for &number in form.numbers() {
        let Some((word, others)) = left.split_first() else {
            let kind = MistakeKind::Form(FormMistake::Lacking { form, number });
            return Err(Mistake::after_words(left.start(), kind));
        };
        check_number(number, word, word.text)?;
        left = others;
    }
    match left.first() {
        None => Ok(()),
        Some(word) => Err(word_too_many(word, form)),
    }
}
