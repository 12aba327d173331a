//! Laws of unit propagation.
ghost use Rattle.std.specs.Prelude.{◌≡◌, ℕ, List, Option, Some, None, All, IsFalse};
ghost use Rattle.std.specs.List.{AllByRecursion};
ghost use Rattle.lit_base.specs.Literal.{Literal, IsWithin};
ghost use Rattle.lit_base.specs.Cnf.{Cnf};
ghost use Rattle.lit_base.specs.declared.trail.Entry.{Entry};
ghost use Rattle.lit_base.specs.declared.name.Name.{Name};
ghost use Rattle.lit_base.specs.Rounds.{NamedClause, originals, is_falsified, round, propagate};
ghost use Rattle.lit_base.specs.Named.{lits_at};
ghost use Rattle.lit_base.specs.Held.{AreRisingBy};
ghost use Rattle.lit_base.specs.Fits.{FindsAll, IsFitting, PropagatesFitting};
ghost use Rattle.lit_base.specs.Order.{IsLeastConflict, AddsUnits};
ghost use Rattle.lit_base.specs.Quiet.{AreQuiet};
ghost use Rattle.lit_base.specs.Laws.{RoundsSuffice};

/// One round more than there are variables always suffices: where propagation ends, another round changes nothing.
pub fn law_rounds_suffice()
    ensures { RoundsSuffice }
{}

/// Propagation keeps a trail that fits the clauses and its level, and a conflict that it answers is
/// a clause that is falsified on the trail that it leaves.
pub fn law_propagation_fits()
    ensures { (look : Name → Option (List Literal)) (variables : ℕ) (clauses : List NamedClause)
        (trail : List Entry) → FindsAll look clauses → IsFitting look trail →
        PropagatesFitting look trail (propagate variables clauses trail) }
{}

/// Where propagation ends without a conflict, no clause is unit or falsified.
pub fn law_fixed_point_is_quiet()
    ensures { (variables : ℕ) (clauses : List NamedClause) (trail : List Entry) →
        All (λ c. All (IsWithin variables) c.lits) clauses →
        (propagate variables clauses trail).conflict ≡ None →
        AreQuiet (propagate variables clauses trail).trail clauses }
{}

/// Each clause of a formula is found under its name.
pub fn law_originals_are_found()
    ensures { (cnf : Cnf) → FindsAll (lits_at (originals cnf)) (originals cnf) }
{}

/// A conflict that a round or propagation answers is a falsified clause of least name, where the
/// clauses stand by rising names; where a round answers none, no clause is falsified.
pub fn law_conflict_is_least()
    ensures round { (clauses : List NamedClause) (trail : List Entry) (conflict : Name) →
        AreRisingBy (λ c. c.name) clauses → (round clauses trail).conflict ≡ Some conflict →
        IsLeastConflict (round clauses trail).trail clauses conflict }
    ensures propagation { (variables : ℕ) (clauses : List NamedClause) (trail : List Entry)
        (conflict : Name) → AreRisingBy (λ c. c.name) clauses →
        (propagate variables clauses trail).conflict ≡ Some conflict →
        IsLeastConflict (propagate variables clauses trail).trail clauses conflict }
    ensures none { (clauses : List NamedClause) (trail : List Entry) →
        (round clauses trail).conflict ≡ None →
        AllByRecursion (λ c. IsFalse (is_falsified trail c.lits)) clauses }
{}

/// A round adds the units of the trail before it, in the order of names: each for the unit clause
/// of least name. A round that meets a conflict adds nothing.
pub fn law_units_by_name()
    ensures units { (clauses : List NamedClause) (trail : List Entry) →
        AreRisingBy (λ c. c.name) clauses → (round clauses trail).conflict ≡ None →
        AddsUnits trail clauses (round clauses trail).trail }
    ensures conflict { (clauses : List NamedClause) (trail : List Entry) (conflict : Name) →
        (round clauses trail).conflict ≡ Some conflict → (round clauses trail).trail ≡ trail }
{}
