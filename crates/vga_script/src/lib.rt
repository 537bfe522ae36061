//! Scripts, as bytes and as text: the items of a script, the steps that they mean, the grammar of
//! both forms, and the conversions between the forms.
#![tactic(auto)]

mod assembling;
mod block;
mod dump_range;
mod fields;
mod input;
mod items;
mod judge;
mod keyword;
mod laws;
mod numbers;
mod numeric_steps;
mod opcode;
mod output;
mod printed_line;
mod printing;
mod progress;
mod repeat_lines;
mod script;
mod script_bytes;
mod spelled_item;
mod step;
mod step_bytes;
mod step_reading;
mod steps;
mod tokens;
mod version;
mod worked_examples;

pub use assembling::{assemble, version_and_first_line_of_items};
pub use block::Block;
pub use dump_range::{MOST_SHOWN, PLANE_LEN, Shown};
pub use input::read_script;
pub use keyword::{Keyword, is_name};
pub use laws::{
    appended_steps_spell_script, bytes_have_one_fault, bytes_mean_one_list, bytes_spell_one_script,
    printed_text_spells, script_has_one_spelling, steps_are_in_range, text_has_one_fault,
    text_spells_one_script,
};
pub use numbers::number_of_word;
pub use printing::print;
pub use repeat_lines::{is_repeat_end_line, repeat_count_in_version, says_version_two};
pub use script::{SCRIPT_LIMIT, STEP_LIMIT, Script, decode, encode};
pub use script_bytes::ScriptBytes;
pub use step::Step;
pub use step_bytes::append_step;
pub use step_reading::{MOST_BLOCK_DIGITS, Unread, step_of_line};
pub use steps::Steps;
pub use tokens::{before_comment, first_line, next_word};
pub use version::Version;
