//! Judges a proof in LRAT form, line by line.
//!
//! What each line is worth is the judgement that `lit_base` defines: an addition's lemma has to follow from the live
//! clauses that its hints name, and a deletion's ids have to be those of live clauses. A `Checker` answers exactly that,
//! and where it answers `Step::Empty` no model satisfies the formula.
//!
//! The form is that of Cruz-Filipe, Heule, Hunt, Kaufmann and Schneider-Kamp 2017; each hint has to be unit or falsified
//! at its turn, or satisfied, and nothing but hints is looked at.
#![tactic(auto)]

pub use checker::{Checker, Step};
pub use fault::CheckFault;
pub use laws::{law_fault_refuses, law_judged_lines_are_sound};

mod checker;
mod clauses;
mod fault;
mod known;
mod laws;
mod packing;
mod status;
mod table;
#[cfg(test)]
mod tests;
mod walk;
