//! What makes a core sound: laws of the definitions, as functions that do nothing and whose contracts state them.
ghost use Rattle.std.specs.Prelude.{◌≡◌, ◌≢◌, ◌<◌, ℕ, ◌+◌, Bool, IsTrue, IsOk, List, length, Option, Some};
ghost use Rattle.std.specs.List.{AllByRecursion};
ghost use Rattle.lit_base.specs.Literal.{Literal};
ghost use Rattle.lit_base.specs.Cnf.{Cnf, IsFormula};
ghost use Rattle.lit_base.specs.Truth.{is_clause_true, Satisfies};
ghost use Rattle.lit_base.specs.Trail.{level_now, model_of};
ghost use Rattle.lit_base.specs.Rounds.{NamedClause, originals};
ghost use Rattle.lit_base.specs.Analysis.{lesson_of};
ghost use Rattle.lit_base.specs.Judgement.{judge, Checks, HasNoModel};
ghost use Rattle.lit_base.specs.Quiet.{HasTwoOfLevel, IsAsserting};
ghost use Rattle.lit_base.specs.declared.name.Name.{Name};
ghost use Rattle.solo_core.specs.declared.lemma.Lemma.{Lemma};
ghost use Rattle.solo_core.specs.State.{CoreFrame, CoreState};
ghost use Rattle.solo_core.specs.First.{frame_of, first_state};
ghost use Rattle.solo_core.specs.declared.sheet.Settings.{Settings};
ghost use Rattle.solo_core.specs.Turn.{look_of, propagated, turn};
ghost use Rattle.solo_core.specs.declared.turn.TurnEnd.TheVariants.{Refuted};
ghost use Rattle.solo_core.specs.Stretch.{stretch};
ghost use Rattle.solo_core.specs.Log.{lines_of, AreNumbered, NumbersOriginals};
ghost use Rattle.solo_core.specs.Soundness.{IsSound, AreDerived, AreNamed, AreLemmasDistinct, AreLemmasWithin, AreTrueIn, EndsEmpty, IsModelFound, HoldsFormula};
ghost use Rattle.solo_core.specs.declared.sheet.End.TheVariants.{Sat, Unsat};

/// The first state of a core is sound, over the clauses of the formula, and holds them all.
pub fn law_first_state_is_sound()
    ensures sound { (cnf : Cnf) (settings : Settings) (core : ℕ) → IsFormula cnf →
        IsSound (originals cnf) (frame_of cnf settings core) (first_state cnf settings core) }
    ensures formula { (cnf : Cnf) (settings : Settings) (core : ℕ) → HoldsFormula cnf (first_state cnf settings core) }
{}

/// A turn that doesn't refute keeps what is sound, and a formula that is held.
pub fn law_turn_keeps_soundness()
    ensures sound { (base : List NamedClause) (frame : CoreFrame) (state : CoreState) →
        IsSound base frame state → (turn frame state).came_to ≢ Refuted → IsSound base frame (turn frame state).state }
    ensures formula { (cnf : Cnf) (base : List NamedClause) (frame : CoreFrame) (state : CoreState) →
        IsSound base frame state → HoldsFormula cnf state → HoldsFormula cnf (turn frame state).state }
{}

/// A conflict above level 0 has two literals or more of the current level, and its lesson is
/// asserting: the lemma has exactly one literal of the current level, and is unit after the jump back.
pub fn law_conflict_asserts()
    ensures two { (base : List NamedClause) (frame : CoreFrame) (state : CoreState) (conflict : Name) (lits : List Literal) →
        IsSound base frame state → (propagated frame state).conflict ≡ Some conflict → look_of state conflict ≡ Some lits →
        0 < level_now (propagated frame state).trail →
        HasTwoOfLevel (propagated frame state).trail (level_now (propagated frame state).trail) lits }
    ensures asserting { (base : List NamedClause) (frame : CoreFrame) (state : CoreState) (conflict : Name) →
        IsSound base frame state → (propagated frame state).conflict ≡ Some conflict → 0 < level_now (propagated frame state).trail →
        IsAsserting (propagated frame state).trail (lesson_of (look_of state) (propagated frame state).trail conflict) }
{}

/// The lemmas of a stretch are derived, each from its hints, which name clauses that were held when the
/// period began or earlier lemmas, and the literals of each are distinct and within the variables. At Unsat the last of them, and no earlier one, is empty; at each
/// other end none is, and what is sound is kept. At Sat the trail is a model of every held clause.
pub fn law_stretch_is_sound()
    ensures derived { (base : List NamedClause) (frame : CoreFrame) (quota : ℕ) (state : CoreState) →
        IsSound base frame state → AreDerived base (stretch frame quota state).state.lemmas }
    ensures named { (base : List NamedClause) (frame : CoreFrame) (quota : ℕ) (state : CoreState) →
        IsSound base frame state → AreNamed state.period frame.core 0 (stretch frame quota state).state.lemmas }
    ensures distinct { (base : List NamedClause) (frame : CoreFrame) (quota : ℕ) (state : CoreState) →
        IsSound base frame state → AreLemmasDistinct (stretch frame quota state).state.lemmas }
    ensures within { (base : List NamedClause) (frame : CoreFrame) (quota : ℕ) (state : CoreState) →
        IsSound base frame state → AreLemmasWithin frame.variables (stretch frame quota state).state.lemmas }
    ensures empty_at_unsat { (base : List NamedClause) (frame : CoreFrame) (quota : ℕ) (state : CoreState) →
        IsSound base frame state → (stretch frame quota state).ended ≡ Unsat → EndsEmpty (stretch frame quota state).state.lemmas }
    ensures kept { (base : List NamedClause) (frame : CoreFrame) (quota : ℕ) (state : CoreState) →
        IsSound base frame state → (stretch frame quota state).ended ≢ Unsat → IsSound base frame (stretch frame quota state).state }
    ensures model_at_sat { (base : List NamedClause) (frame : CoreFrame) (quota : ℕ) (state : CoreState) →
        IsSound base frame state → (stretch frame quota state).ended ≡ Sat → IsModelFound frame (stretch frame quota state).state }
{}

/// A formula that is held stays held, and the model of a stretch that ends with Sat satisfies it.
pub fn law_model_satisfies_formula()
    ensures held { (cnf : Cnf) (base : List NamedClause) (frame : CoreFrame) (quota : ℕ) (state : CoreState) →
        IsSound base frame state → HoldsFormula cnf state → HoldsFormula cnf (stretch frame quota state).state }
    ensures satisfied { (cnf : Cnf) (base : List NamedClause) (frame : CoreFrame) (quota : ℕ) (state : CoreState) →
        IsSound base frame state → HoldsFormula cnf state → (stretch frame quota state).ended ≡ Sat →
        Satisfies (model_of frame.variables (stretch frame quota state).state.trail) cnf }
{}

/// A model that makes the known clauses true makes each lemma true that is derived from them. So no
/// model satisfies a formula over whose clauses a stretch ends with Unsat.
pub fn law_derived_lemmas_are_true()
    ensures lemmas { (model : List Bool) (known : List NamedClause) (lemmas : List Lemma) →
        AreTrueIn model known → AreDerived known lemmas →
        AllByRecursion (λ lemma. IsTrue (is_clause_true model lemma.lits)) lemmas }
    ensures unsat { (cnf : Cnf) (frame : CoreFrame) (quota : ℕ) (state : CoreState) →
        IsSound (originals cnf) frame state → (stretch frame quota state).ended ≡ Unsat → HasNoModel cnf }
{}

/// Lemmas that are derived from the clauses of a formula, one after the other, are a proof whose
/// lines are in order, and where the last of them, and no earlier one, is empty, the proof checks.
pub fn law_derived_lemmas_check()
    ensures in_order { (cnf : Cnf) (number : Name → ℕ) (lemmas : List Lemma) →
        NumbersOriginals number → AreNumbered number (length cnf.clauses + 1) lemmas →
        AreDerived (originals cnf) lemmas →
        IsOk (judge cnf (lines_of number 1 (length cnf.clauses + 1) lemmas)) }
    ensures checks { (cnf : Cnf) (number : Name → ℕ) (lemmas : List Lemma) →
        NumbersOriginals number → AreNumbered number (length cnf.clauses + 1) lemmas →
        AreDerived (originals cnf) lemmas → EndsEmpty lemmas →
        Checks cnf (lines_of number 1 (length cnf.clauses + 1) lemmas) }
{}
