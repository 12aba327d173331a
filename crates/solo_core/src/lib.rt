//! One core of the solver: a sequential search with clause learning
//! (Marques-Silva and Sakallah 1996).
//!
//! `specs/` has the rules of a core as definitions. `Core` follows them exactly, over the crates that
//! hold its clauses, its trail, propagation and conflict analysis. What makes the rules sound stands in
//! laws: functions without parameters, which do nothing and whose contracts state theorems.
#![tactic(auto)]

pub use laws::{
    law_any_clause_may_be_added, law_any_clause_may_be_dropped,
    law_any_free_variable_may_be_decided, law_any_jump_may_be_made, law_conflict_asserts,
    law_derived_from_more, law_derived_lemmas_are_true, law_derived_lemmas_check,
    law_first_state_is_sound, law_import_keeps_soundness, law_jump_to_level_one,
    law_last_value_is_kept, law_mail_counts_the_period, law_model_satisfies_formula,
    law_model_stands_exactly_at_sat, law_period_may_end, law_posts_may_be_imported,
    law_root_reason_is_a_hint, law_spent_core_does_nothing, law_square_is_given_up_at_the_limit,
    law_square_is_refuted, law_stretch_ends_by_rule, law_stretch_is_sound,
    law_touched_variable_is_picked_first, law_turn_keeps_soundness, law_turns_suffice,
    law_uses_may_change,
};
pub use lemma::Lemma;
pub use sheet::{End, Mail, Posted, Settings, Sheet};
pub use solo::Core;

mod first;
mod handing;
mod holding;
mod importing;
mod jump;
mod laws;
mod learning;
mod lemma;
mod pace;
mod posting;
mod propagation;
mod search;
mod sheet;
mod solo;
#[cfg(test)]
mod tests;
mod turn;
mod uses;
mod weights;
