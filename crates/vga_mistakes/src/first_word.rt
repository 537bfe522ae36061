//! What is wrong with a first word that begins no line.
ghost use Rattle.std.specs.Prelude.{◌≡◌, ◌≢◌, IfErr};
ghost use Rattle.vga_script.specs.Text.{keyword_name};
ghost use Rattle.vga_script.specs.Tokens.{in_lower_case};
ghost use Rattle.vga_script.specs.declared.keyword.Keyword.{Keyword};

use super::digits::{is_hexadecimal, without_punctuation};
use super::form::Form;
use super::mistake::Mistake;
use super::mistake_kind::MistakeKind;
use super::step_mistake::StepMistake;
use super::words::Word;
use vga_script::is_name;

/// What comments begin with in other languages.
const COMMENT_SIGNS: [&[u8]; 7] = [b"#", b"//", b"/*", b"--", b"'", b"%", b"!"];

/// The longest name of a step, in bytes.
const LONGEST_NAME: usize = 7;

/// Whether a word begins a comment in other languages.
pub(crate) fn begins_comment(word: &[u8]) -> bool {
    COMMENT_SIGNS.iter().any(|sign| word.starts_with(sign))
}

/// The longest name of a step with numbers that a word begins with, and what follows it.
fn name_and_rest(word: &[u8]) -> Option<(&[u8], &[u8])> {
    for less in 0..LONGEST_NAME {
        let length = LONGEST_NAME - less;
        if length <= word.len() {
            let (name, rest) = word.split_at(length);
            if Form::of_word(name).is_some_and(|form| form.is_numeric_step()) {
                return Some((name, rest));
            }
        }
    }
    None
}

/// What is wrong with a first word that begins no line.
fn kind_of_bad_word(word: &[u8]) -> MistakeKind<'_> {
    if begins_comment(word) || is_name(word, b"rem") || is_name(word, b"note") {
        return MistakeKind::Comment;
    }
    let name = without_punctuation(word);
    if Form::of_word(name).is_some() {
        return MistakeKind::Step(StepMistake::Punctuated { name });
    }
    match name_and_rest(word) {
        Some((name, rest)) if is_hexadecimal(rest) && rest.len() > 1 => {
            MistakeKind::Step(StepMistake::Glued { name, rest })
        }
        _ => MistakeKind::Step(StepMistake::Unknown { word }),
    }
}

/// The form of a line that begins with a word, or the mistake in the word. A word with a mistake is
/// no keyword.
pub(crate) fn form_of(word: Word<'_>) -> Result<Form, Mistake<'_>>
    ensures start { IfErr result (λ mistake. mistake.start ≡ word.entry.start) }
    ensures unknown { IfErr result (λ mistake. (keyword : Keyword) →
        in_lower_case word.entry.text.now ≢ keyword_name keyword) }
{
    match Form::of_word(word.text) {
        Some(form) => Ok(form),
        None => Err(Mistake::at_word(word, kind_of_bad_word(word.text))),
    }
}
