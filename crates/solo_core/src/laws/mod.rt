//! Laws of the definitions: functions without parameters, which do nothing and whose contracts state theorems.

pub use changes::{
    law_any_clause_may_be_added, law_any_clause_may_be_dropped,
    law_any_free_variable_may_be_decided, law_any_jump_may_be_made, law_derived_from_more,
    law_uses_may_change,
};
pub use ends::{law_spent_core_does_nothing, law_stretch_ends_by_rule, law_turns_suffice};
pub use examples::{
    law_jump_to_level_one, law_last_value_is_kept, law_root_reason_is_a_hint,
    law_square_is_given_up_at_the_limit, law_square_is_refuted,
    law_touched_variable_is_picked_first,
};
pub use periods::{
    law_import_keeps_soundness, law_mail_counts_the_period, law_model_stands_exactly_at_sat,
    law_period_may_end, law_posts_may_be_imported,
};
pub use soundness::{
    law_conflict_asserts, law_derived_lemmas_are_true, law_derived_lemmas_check,
    law_first_state_is_sound, law_model_satisfies_formula, law_stretch_is_sound,
    law_turn_keeps_soundness,
};

mod changes;
mod ends;
mod examples;
mod periods;
mod soundness;
