//! The texts on the answer port: what `solve` answers (the trace where it is wanted, the `s` line, and the `v` lines of a
//! model), the summary of a race, and a formula in DIMACS CNF.
#![tactic(auto)]

pub use answer::write_answer;
pub use examples::{law_summaries_are_said, law_two_cores_are_traced, law_verdicts_are_said};
pub use formula::write_formula;
pub use laws::{law_rows_are_read_back, law_trace_has_its_lines, law_trace_is_in_front};
pub use summary::write_summary;

mod answer;
mod buffer;
mod examples;
mod formula;
mod laws;
mod summary;
#[cfg(test)]
mod tests;
mod trace;
mod values;
