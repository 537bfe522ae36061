//! The kinds of mistakes.

use super::block_mistake::BlockMistake;
use super::call_mistake::CallMistake;
use super::form_mistake::FormMistake;
use super::number_mistake::NumberMistake;
use super::odd_character::OddCharacter;
use super::order_mistake::OrderMistake;
use super::show_mistake::ShowMistake;
use super::step_mistake::StepMistake;
use std::fmt;

/// What is wrong in a line. It borrows words of the line.
#[derive(Clone, Copy, PartialEq, Eq, Debug)]
pub enum MistakeKind<'a> {
    /// A character stands in no line outside comments.
    Character(OddCharacter),
    /// A comment begins as in another language.
    Comment,
    /// The first word begins no line.
    Step(StepMistake<'a>),
    /// A word is lacking, or one too many.
    Form(FormMistake),
    /// A number is written wrongly.
    Number(NumberMistake<'a>),
    /// What is shown is wrong.
    Show(ShowMistake<'a>),
    /// A register of a call is wrong.
    Call(CallMistake<'a>),
    /// The block of a call is wrong.
    Block(BlockMistake<'a>),
    /// The line is good, but may not stand where it does.
    Order(OrderMistake),
    /// Nothing is known of it.
    Unknown,
}

impl fmt::Display for MistakeKind<'_> {
    fn fmt<W: fmt::Write>(&self, f: &mut fmt::Formatter<W>) -> fmt::Result {
        match self {
            MistakeKind::Character(mistake) => fmt::Display::fmt(mistake, f),
            MistakeKind::Comment => f.write_str("comments begin with ;"),
            MistakeKind::Step(mistake) => fmt::Display::fmt(mistake, f),
            MistakeKind::Form(mistake) => fmt::Display::fmt(mistake, f),
            MistakeKind::Number(mistake) => fmt::Display::fmt(mistake, f),
            MistakeKind::Show(mistake) => fmt::Display::fmt(mistake, f),
            MistakeKind::Call(mistake) => fmt::Display::fmt(mistake, f),
            MistakeKind::Block(mistake) => fmt::Display::fmt(mistake, f),
            MistakeKind::Order(mistake) => fmt::Display::fmt(mistake, f),
            MistakeKind::Unknown => f.write_str("refused, and I can't say why"),
        }
    }
}
