//! Reads a proof in LRAT text, line by line.
//!
//! Lines end with LF, blanks are space, tab and CR, and a token is a longest run of other bytes. A line of blanks alone
//! is passed over, and so is one whose first byte that is no blank is `c`. Every other line is one step: an addition,
//! `id`, literals, `0`, hints, `0`, or a deletion, `id`, `d`, ids, `0`. Ids and hints are digits of a value from 1 to
//! 2^63 - 1, a literal is an optional `-` and digits of a value from 1 to 1,000,000, and leading zeros are accepted. A line
//! has at most 33,554,432 bytes, its LF not counted, and a proof at most 2^40. Hints with a `-`, which belong to steps that
//! are no reverse unit propagation, are refused, and so is the binary form.
//!
//! The format is that of Cruz-Filipe, Heule, Hunt, Kaufmann and Schneider-Kamp (2017).
#![tactic(auto)]

pub use fault::LineFault;
pub use laws::{
    early_fault_stays, ended_lines_stay, read_bytes_are_few, read_bytes_are_sound,
    small_proofs_are_read, written_is_read,
};
pub use lit_base::{Line, LineStep};
pub use reader::LineReader;

mod fault;
mod laws;
mod progress;
mod reader;
mod scan;
mod stage;
#[cfg(test)]
mod tests;
mod token;
