//! What the parts of the adapter share: bits and registers under write masks, bytes that contracts
//! see as a list, text and its digits, the names of refusals and faults, readers and writers that
//! remember a failure, the bytes of saved states, and counts of comparisons that passed or failed.
#![tactic(auto)]

pub mod bits;
pub mod bytes;
pub mod fault;
pub mod limited_reading;
pub mod refusal;
pub mod reg_file;
pub mod saved;
pub mod state_fault;
pub mod tally;
pub mod text_buffer;
pub mod tracked;

pub use bits::is_set;
pub use bytes::Bytes;
pub use fault::{Fault, FaultName};
pub use limited_reading::read_prefix;
pub use refusal::Refusal;
pub use reg_file::RegFile;
pub use saved::{
    are_within_masks, flag_byte, high_byte, low_byte, put_byte, put_bytes, put_word, word_at,
};
pub use state_fault::StateFault;
pub use tally::ComparisonTally;
pub use text_buffer::{TextBuffer, hex_digit};
pub use tracked::{Tracked, flush, write_whole};
