//! Reading the lines of a text that give its version, and those that begin and end a repeat.
ghost use Rattle.std.specs.Prelude.{◌≡◌, ◌≢◌, ◌↔◌, ◌∷◌, [], ℕ, List, IfNone, IfSome, IsFalse};
ghost use Rattle.std.specs.Prelude.{IsTrue};
ghost use Rattle.vga_script.specs.Text.{IsRepeatEndLine, IsVersionTwo, SpellsBeginningOfRepeat};
ghost use Rattle.vga_script.specs.Version.{AllowsRepeats};
ghost use Rattle.vga_script.specs.Tokens.{words};

use super::keyword::is_name;
use super::numbers::number_of_word;
use super::tokens::{before_comment, next_word};
use super::version::Version;

/// The word of a line that has exactly one.
#[tactic(auto, using(crate::proofs::RepeatLineLemmas::not_one_of_none, crate::proofs::RepeatLineLemmas::not_one_of_more, crate::proofs::RepeatLineLemmas::one_alone))]
fn one_word(line: &[u8]) -> Option<&[u8]>
    ensures found { IfSome result (λ word. words line.now ≡ word.now ∷ []) }
    ensures none { IfNone result ((word : List ℕ) → words line.now ≢ word ∷ []) }
{
    let Some((word, rest)) = next_word(before_comment(line)) else {
        return None;
    };
    match next_word(rest) {
        None => Some(word),
        Some(_) => None,
    }
}

/// The words of a line that has exactly two.
#[tactic(auto, using(crate::proofs::RepeatLineLemmas::not_two_of_none, crate::proofs::RepeatLineLemmas::not_two_of_one, crate::proofs::RepeatLineLemmas::not_two_of_more, crate::proofs::RepeatLineLemmas::two_alone))]
fn two_words(line: &[u8]) -> Option<(&[u8], &[u8])>
    ensures found { IfSome result (λ x. words line.now ≡ x.0.now ∷ x.1.now ∷ []) }
    ensures none { IfNone result ((word other : List ℕ) → words line.now ≢ word ∷ other ∷ []) }
{
    let Some((word, rest)) = next_word(before_comment(line)) else {
        return None;
    };
    let Some((other, rest)) = next_word(rest) else {
        return None;
    };
    match next_word(rest) {
        None => Some((word, other)),
        Some(_) => None,
    }
}

/// Whether a line has a word.
pub(crate) fn has_word(line: &[u8]) -> bool
    ensures some { IsTrue result → words line.now ≢ [] }
    ensures none { IsFalse result → words line.now ≡ [] }
{
    match next_word(before_comment(line)) {
        Some(_) => true,
        None => false,
    }
}

/// Whether a line is `version 2`.
#[tactic(auto, using(crate::proofs::NameLemmas::named, crate::proofs::NameLemmas::unnamed))]
pub fn says_version_two(line: &[u8]) -> bool
    ensures { IsTrue result ↔ IsVersionTwo (words line.now) }
{
    match two_words(line) {
        Some((name, [b'2'])) => is_name(name, b"version"),
        _ => false,
    }
}

/// The count of the repeat that a line begins.
#[tactic(auto, using(crate::proofs::RepeatLineLemmas::not_repeat_name, crate::proofs::RepeatLineLemmas::not_repeat_words))]
fn repeat_count_of_line(line: &[u8]) -> Option<u16>
    ensures found { IfSome result (λ count. SpellsBeginningOfRepeat (words line.now) count) }
    ensures none { IfNone result ((count : ℕ) → SpellsBeginningOfRepeat (words line.now) count → ⊥) }
{
    let Some((name, word)) = two_words(line) else {
        return None;
    };
    if !is_name(name, b"repeat") {
        return None;
    }
    let Some(count) = number_of_word(word, 10, 0xFFFF) else {
        return None;
    };
    if count == 0 {
        return None;
    }
    Some(count as u16)
}

/// The count of the repeat that a line begins in a script of this version. Version 1 has no
/// repeats.
pub fn repeat_count_in_version(line: &[u8], version: Version) -> Option<u16>
    ensures found { IfSome result (λ count. AllowsRepeats version
        × SpellsBeginningOfRepeat (words line.now) count) }
    ensures none { IfNone result (AllowsRepeats version → (count : ℕ) →
        SpellsBeginningOfRepeat (words line.now) count → ⊥) }
{
    match version {
        Version::One => None,
        Version::Two => repeat_count_of_line(line),
    }
}

/// Whether a line ends a repeat.
#[tactic(auto, using(crate::proofs::NameLemmas::named, crate::proofs::NameLemmas::unnamed))]
pub fn is_repeat_end_line(line: &[u8]) -> bool
    ensures { IsTrue result ↔ IsRepeatEndLine (words line.now) }
{
    match one_word(line) {
        Some(name) => is_name(name, b"end"),
        None => false,
    }
}
