//! The ways to run the cores of a portfolio, and the run that all of them give.
//!
//! `specs/` has the run as definitions, for any number of cores: eras, the last of them, the outcome with its
//! trace, and the log. `run_turns` runs them in turn on the caller's thread, `run_joined` side by side in threads
//! that are joined at the end of each period, and `run_crew` in threads that live through the run, on a board of
//! `make_board`, while the caller's thread writes the log. What makes the answer of a run right stands in laws:
//! functions without parameters, which do nothing and whose contracts state theorems.
#![tactic(auto)]

pub use crew_run::run_crew;
pub use examples::{
    law_square_is_given_up_at_the_limit, law_square_is_refuted, law_two_cores_go_on,
    law_two_cores_in_turn, law_two_cores_share_lemmas,
};
pub use joined::run_joined;
pub use laws::{
    law_ends_agree, law_log_follows, law_model_satisfies_formula, law_run_ends,
    law_trace_tells_the_run, law_unknown_where_all_are_spent, law_unsat_is_refuted,
    law_winner_is_first,
};
pub use log_merge::Stop;
pub use outcome::{Outcome, Verdict};
pub use passes::make_board;
pub use post::{Brief, Post};
pub use trace::TraceRow;
pub use turns::run_turns;

mod caller;
mod crew_run;
mod dealing;
mod era;
mod era_mails;
mod examples;
mod joined;
mod kept;
mod laws;
mod logged;
mod order;
mod outcome;
mod party;
mod passes;
mod places;
mod post;
mod scribe;
mod searcher;
mod sheets;
#[cfg(test)]
mod tests;
mod trace;
mod turns;
mod worker;
