//! The words after the program's name, read as the job that they ask for: `solve`, `check`, `gen` or `race`.
#![tactic(auto)]

pub use examples::law_small_command_lines;
pub use job::{Job, WordFault};
pub use laws::{law_jobs, law_leading_zeros, law_numbers};
pub use words::read_words;

mod commands;
mod examples;
mod found;
mod job;
mod laws;
mod numbers;
#[cfg(test)]
mod tests;
mod words;
