//! How a stretch ends: laws of the definitions, as functions that do nothing.
ghost use Rattle.std.specs.Prelude.{◌≡◌, ◌≢◌, ◌<◌, ◌≤◌, ◌+◌, ℕ, All};
ghost use Rattle.lit_base.specs.Literal.{IsWithin};
ghost use Rattle.lit_base.specs.Held.{clauses_of};
ghost use Rattle.solo_core.specs.State.{CoreFrame, CoreState};
ghost use Rattle.solo_core.specs.declared.turn.TurnEnd.TheVariants.{Decided};
ghost use Rattle.solo_core.specs.Stretch.{search_to_conflict, stretch};
ghost use Rattle.solo_core.specs.Laws.{EndsByRule, CountsConflicts};
ghost use Rattle.solo_core.specs.declared.sheet.End.TheVariants.{Spent};

/// A search of one turn more than there are variables always ends with a conflict or a model.
pub fn law_turns_suffice()
    ensures { (frame : CoreFrame) (state : CoreState) → (search_to_conflict (frame.variables + 1) frame state).came_to ≢ Decided }
{}

/// A core that has spent its limit does nothing.
pub fn law_spent_core_does_nothing()
    ensures ended { (frame : CoreFrame) (quota : ℕ) (state : CoreState) →
        state.conflicts ≡ frame.limit → (stretch frame quota state).ended ≡ Spent }
    ensures kept { (frame : CoreFrame) (quota : ℕ) (state : CoreState) →
        state.conflicts ≡ frame.limit → (stretch frame quota state).state ≡ state }
{}

/// Every other stretch ends by the rule of its end, and its conflicts are at most its quota.
pub fn law_stretch_ends_by_rule()
    ensures rule { (frame : CoreFrame) (quota : ℕ) (state : CoreState) → state.conflicts < frame.limit →
        EndsByRule frame quota state (stretch frame quota state).state (stretch frame quota state).ended }
    ensures at_most { (frame : CoreFrame) (quota : ℕ) (state : CoreState) →
        (stretch frame quota state).state.conflicts ≤ state.conflicts + quota }
    ensures counted { (frame : CoreFrame) (quota : ℕ) (state : CoreState) →
        CountsConflicts state (stretch frame quota state).state }
{}
