//! The numbers of the log's lines, and the writing of its parts.
//!
//! A run is made of periods, and in each of them each core learns lemmas. The log is the list of the
//! lemmas that stand, by period, core and index. Originals have the first numbers, and the lemmas of
//! the log the numbers after them, without a gap.
#![tactic(auto)]

pub use laws::{law_numbers_follow_on, law_numbers_stay};
pub use numbers::Numbers;
pub use part::write_part;
pub use stop::Stop;

mod gather;
mod laws;
mod numbers;
mod part;
mod stop;
mod sums;
#[cfg(test)]
mod tests;
