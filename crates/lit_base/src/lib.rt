//! The words that every crate of dp2ll shares: literals, names, clauses, formulas, models, lists,
//! and in `specs/` the definitions of truth, the trail and unit propagation.
#![tactic(auto)]

pub use clause::Clause;
pub use formula::Formula;
pub use laws::lesson::{
    law_conflict_has_two_literals, law_conflict_refutes, law_hints_are_distinct,
    law_hints_are_reasons, law_lesson_follows, law_lesson_is_asserting, law_lesson_literals,
    law_root_lesson_is_empty, law_small_lesson, law_touched_variables,
};
pub use laws::name::law_names_are_ordered;
pub use laws::proof::{
    law_checked_proof_refutes, law_empty_lemma_decides, law_found_more_follows, law_small_proofs,
};
pub use laws::propagation::{
    law_conflict_is_least, law_fixed_point_is_quiet, law_originals_are_found, law_propagation_fits,
    law_rounds_suffice, law_units_by_name,
};
pub use laws::trail::{law_full_trail_satisfies, law_jump_fits, law_model_has_each_value};
pub use lesson::Lesson;
pub use list::List;
pub use lit::{Lit, MOST_VARIABLES};
pub use lit_set::LitSet;
pub use memory::NoMemory;
pub use model::Model;
pub use name::Name;
pub use numeral::{Numeral, is_blank, is_digits, numeral_at_front};
pub use proof::{ClauseStatus, Judged, Line, LineStep, ProofFault};
pub use text::Text;
pub use trail::{Entry, Value};

mod clause;
mod formula;
mod laws;
mod lesson;
mod list;
mod lit;
mod lit_set;
mod memory;
mod model;
mod name;
mod numeral;
mod proof;
#[cfg(test)]
mod tests;
mod text;
mod trail;
