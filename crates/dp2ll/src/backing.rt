ghost use Rattle.lit_base.specs.Cnf.{Cnf, IsFormula};
ghost use Rattle.solo_core.specs.declared.sheet.Settings.{Settings};
ghost use Rattle.solo_core.specs.First.{AreInRange};
ghost use Rattle.dp2ll.specs.Outcome.{IsBacked};

use crew::{
    law_log_follows, law_model_satisfies_formula, law_unknown_where_all_are_spent,
    law_unsat_is_refuted,
};

/// The verdict of a run is backed: by a model that satisfies the formula, by a log that checks, or by the limits that all
/// cores have spent.
pub(crate) fn law_verdict_is_backed()
    ensures { (cnf : Cnf) (settings : Settings) → IsFormula cnf → AreInRange settings → IsBacked cnf settings }
{
    law_log_follows();
    law_unsat_is_refuted();
    law_model_satisfies_formula();
    law_unknown_where_all_are_spent();
}
