//! What is wrong with a line of a script's text: where the mistake stands, its kind, and a sentence
//! that says it.
#![tactic(auto)]

mod block;
mod block_mistake;
mod call;
mod call_mistake;
mod digits;
mod first_word;
mod form;
mod form_mistake;
mod in_line;
mod in_text;
mod mistake;
mod mistake_kind;
mod number;
mod number_mistake;
mod numbers;
mod odd_character;
mod order_mistake;
mod register;
mod sentence;
mod show;
mod show_mistake;
mod shown_name;
mod step_mistake;
mod text_mistake;
mod words;

pub use block_mistake::BlockMistake;
pub use call_mistake::CallMistake;
pub use digits::Digits;
pub use form::Form;
pub use form_mistake::FormMistake;
pub use in_line::mistake_in;
pub use in_text::mistake_in_text;
pub use mistake::Mistake;
pub use mistake_kind::MistakeKind;
pub use number::Number;
pub use number_mistake::NumberMistake;
pub use odd_character::OddCharacter;
pub use order_mistake::OrderMistake;
pub use register::Register;
pub use show_mistake::ShowMistake;
pub use shown_name::ShownName;
pub use step_mistake::StepMistake;
pub use text_mistake::TextMistake;
