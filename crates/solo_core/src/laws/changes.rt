//! Changes of a core that keep what is sound, whatever rule makes them.
ghost use Rattle.std.specs.Prelude.{◌≡◌, ◌<◌, ℕ, true, IsFalse, List, ◌∷◌, [], ◌++◌, None, All};
ghost use Rattle.std.specs.List.{AllByRecursion};
ghost use Rattle.lit_base.specs.Literal.{Literal, IsWithin};
ghost use Rattle.lit_base.specs.Cnf.{Cnf};
ghost use Rattle.lit_base.specs.Trail.{is_free, level_now};
ghost use Rattle.lit_base.specs.Rounds.{NamedClause};
ghost use Rattle.lit_base.specs.Named.{lits_at};
ghost use Rattle.lit_base.specs.Held.{HeldClause, clauses_of, is_original};
ghost use Rattle.lit_base.specs.Walk.{FindsMore};
ghost use Rattle.lit_base.specs.declared.name.Name.{Name};
ghost use Rattle.solo_core.specs.declared.lemma.Lemma.{Lemma};
ghost use Rattle.solo_core.specs.State.{CoreFrame, CoreState};
ghost use Rattle.solo_core.specs.Turn.{propagated, decided, jumped};
ghost use Rattle.solo_core.specs.Changes.{after_propagation, with_clauses, with_added, with_dropped, AreNoReasons};
ghost use Rattle.solo_core.specs.Soundness.{IsSound, AreDerived, HoldsFormula};

/// After propagation without a conflict any literal of a free variable may be decided.
pub fn law_any_free_variable_may_be_decided()
    ensures { (base : List NamedClause) (frame : CoreFrame) (state : CoreState) (l : Literal) →
        IsSound base frame state → (propagated frame state).conflict ≡ None → IsWithin frame.variables l →
        is_free (propagated frame state).trail l.variable ≡ true →
        IsSound base frame (decided l (after_propagation frame state)) }
{}

/// At any time a core may jump back to a level.
pub fn law_any_jump_may_be_made()
    ensures { (base : List NamedClause) (frame : CoreFrame) (state : CoreState) (level : ℕ) →
        IsSound base frame state → IsSound base frame (jumped level state) }
{}

/// At any level clauses that are no reasons may be dropped; a formula stays held where no original is.
pub fn law_any_clause_may_be_dropped()
    ensures sound { (base : List NamedClause) (frame : CoreFrame) (state : CoreState) (names : List Name) →
        IsSound base frame state → AreNoReasons names state.trail → IsSound base frame (with_dropped names state) }
    ensures formula { (cnf : Cnf) (state : CoreState) (names : List Name) → HoldsFormula cnf state →
        AllByRecursion (λ name. IsFalse (is_original name)) names → HoldsFormula cnf (with_dropped names state) }
{}

/// At level 0 any clause of an earlier period may be added whose name is new.
pub fn law_any_clause_may_be_added()
    ensures sound { (base : List NamedClause) (frame : CoreFrame) (state : CoreState) (c : NamedClause) →
        IsSound base frame state → level_now state.trail ≡ 0 → All (IsWithin frame.variables) c.lits →
        lits_at base c.name ≡ None → c.name.period < state.period →
        IsSound (base ++ c ∷ []) frame (with_added c state) }
    ensures formula { (cnf : Cnf) (base : List NamedClause) (frame : CoreFrame) (state : CoreState) (c : NamedClause) →
        IsSound base frame state → lits_at base c.name ≡ None → c.name.period < state.period →
        HoldsFormula cnf state → HoldsFormula cnf (with_added c state) }
{}

/// The uses of the held clauses don't matter.
pub fn law_uses_may_change()
    ensures { (base : List NamedClause) (frame : CoreFrame) (state : CoreState) (held : List HeldClause) →
        IsSound base frame state → clauses_of held ≡ clauses_of state.clauses → IsSound base frame (with_clauses held state) }
{}

/// Lemmas that are derived from some clauses are derived from any that hold at least the same under
/// the same names, and nothing under the names of the lemmas.
pub fn law_derived_from_more()
    ensures { (known more : List NamedClause) (lemmas : List Lemma) →
        FindsMore (lits_at known) (lits_at more) (λ name. name) →
        AllByRecursion (λ lemma. lits_at more lemma.name ≡ None) lemmas →
        AreDerived known lemmas → AreDerived more lemmas }
{}
