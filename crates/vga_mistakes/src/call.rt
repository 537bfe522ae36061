//! What is wrong with a call of the BIOS.

use super::block::check_block;
use super::call_mistake::CallMistake;
use super::digits::{begins_with_digit, foreign_digits, is_hexadecimal, trimmed};
use super::first_word::begins_comment;
use super::mistake::Mistake;
use super::mistake_kind::MistakeKind;
use super::number::Number;
use super::numbers::check_number;
use super::register::Register;
use super::words::{Word, Words};
use vga_script::is_name;

/// A mistake in a register that is a whole word.
fn in_call<'a>(word: Word<'a>, mistake: CallMistake<'a>) -> Mistake<'a> {
    Mistake::at_word(word, MistakeKind::Call(mistake))
}

/// The letters before the first equals sign of a word, and what follows the sign.
pub(crate) fn register_and_value(word: &[u8]) -> Option<(&[u8], &[u8])> {
    let end = word.iter().position(|&byte| byte == b'=')?;
    let (name, rest) = word.split_at(end);
    if name.is_empty() || !name.iter().all(|byte| byte.is_ascii_alphabetic()) {
        return None;
    }
    match rest {
        [_, value @ ..] => Some((name, value)),
        [] => None,
    }
}

/// The value of a register that stands after a blank, if the next word begins with an equals sign.
fn value_after_blank(others: Words<'_>) -> Option<&[u8]> {
    let (word, behind) = others.split_first()?;
    match word.text {
        [b'='] => match behind.first() {
            Some(value) => Some(value.text),
            None => Some(b"0"),
        },
        [b'=', value @ ..] => Some(value),
        _ => None,
    }
}

/// What is wrong with a word of a call that is neither `block` nor a register with an equals sign.
/// The other words follow it.
fn no_register<'a>(word: &'a [u8], others: Words<'a>) -> MistakeKind<'a> {
    if begins_comment(word) {
        return MistakeKind::Comment;
    }
    if let Some(register) = Register::of_word(trimmed(word, b"=,;:.")) {
        return MistakeKind::Call(match value_after_blank(others) {
            Some(value) => CallMistake::BlankAroundEquals { register, value },
            None => CallMistake::NoValue { register },
        });
    }
    if is_hexadecimal(word) || foreign_digits(word).is_some() {
        return MistakeKind::Call(CallMistake::Number);
    }
    MistakeKind::Call(CallMistake::NoRegister { word })
}

/// Checks that a register stands after the last one.
fn check_order<'a>(
    word: Word<'a>,
    register: Register,
    last: Option<Register>,
) -> Result<(), Mistake<'a>> {
    let Some(before) = last else {
        return Ok(());
    };
    if before == register {
        return Err(in_call(word, CallMistake::Twice { register }));
    }
    if before.place() > register.place() {
        return Err(in_call(word, CallMistake::Order));
    }
    Ok(())
}

/// Checks a word of a call that is not `block`, and returns its register. The other words follow
/// it, and `last` is the register before it.
fn check_register<'a>(
    word: Word<'a>,
    others: Words<'a>,
    last: Option<Register>,
) -> Result<Register, Mistake<'a>> {
    let Some((name, value)) = register_and_value(word.text) else {
        return Err(Mistake::at_word(word, no_register(word.text, others)));
    };
    let Some(register) = Register::of_word(name) else {
        let half_of = Register::of_half(name);
        return Err(in_call(word, CallMistake::NoSuchRegister { half_of }));
    };
    check_order(word, register, last)?;
    if let Some(next) = others.first() {
        if value.is_empty() && begins_with_digit(next.text) {
            let value = next.text;
            let mistake = CallMistake::BlankAroundEquals { register, value };
            return Err(in_call(word, mistake));
        }
    }
    check_number(Number::Register(register), word, value)?;
    Ok(register)
}

/// Checks the words after `int`.
pub(crate) fn check_call(words: Words<'_>) -> Result<(), Mistake<'_>> {
    let mut left = words;
    let mut last = None;
    while let Some((word, others)) = left.split_first() {
        if is_name(word.text, b"block") {
            return check_block(word, others);
        }
        last = Some(check_register(word, others, last)?);
        left = others;
    }
    Ok(())
}
