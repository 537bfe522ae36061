//! What is wrong with a step that shows something.

use super::form::Form;
use super::mistake::Mistake;
use super::mistake_kind::MistakeKind;
use super::numbers::check_numbers;
use super::show_mistake::ShowMistake;
use super::shown_name::ShownName;
use super::words::Words;
use vga_script::{MOST_SHOWN, PLANE_LEN, number_of_word};

/// Checks that no byte of a plane that is shown stands past its end. The words are good numbers:
/// the plane, an offset and a count.
fn check_plane_end(words: Words<'_>) -> Result<(), Mistake<'_>> {
    let Some((_, words)) = words.split_first() else {
        return Ok(());
    };
    let Some((offset, words)) = words.split_first() else {
        return Ok(());
    };
    let Some(count) = words.first() else {
        return Ok(());
    };
    let first = number_of_word(offset.text, 16, 0xFFFF).unwrap_or(0);
    let bytes = number_of_word(count.text, 10, MOST_SHOWN as u32).unwrap_or(0);
    if first + bytes <= PLANE_LEN {
        return Ok(());
    }
    let mistake = ShowMistake::PastPlane {
        offset: first as u16,
    };
    Err(Mistake::at_word(count, MistakeKind::Show(mistake)))
}

/// Checks the words after `show`.
pub(crate) fn check_shown(words: Words<'_>) -> Result<(), Mistake<'_>> {
    let Some((word, numbers)) = words.split_first() else {
        let kind = MistakeKind::Show(ShowMistake::Nothing);
        return Err(Mistake::after_words(words.start(), kind));
    };
    let Some(name) = ShownName::of_word(word.text) else {
        let mistake = ShowMistake::Unknown { word: word.text };
        return Err(Mistake::at_word(word, MistakeKind::Show(mistake)));
    };
    check_numbers(Form::Show(name), numbers)?;
    match name {
        ShownName::Plane => check_plane_end(numbers),
        _ => Ok(()),
    }
}
