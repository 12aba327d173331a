//! What a core leaves of a period, and how it goes on in the next.
ghost use Rattle.std.specs.Prelude.{◌≡◌, ◌+◌, ℕ, ◌↔◌, Bool, List, ◌++◌, length, ◌≢◌, Some, IsSome};
ghost use Rattle.lit_base.specs.Cnf.{Cnf};
ghost use Rattle.lit_base.specs.Trail.{level_now};
ghost use Rattle.lit_base.specs.Truth.{Satisfies};
ghost use Rattle.lit_base.specs.Rounds.{NamedClause};
ghost use Rattle.solo_core.specs.State.{CoreFrame, CoreState, lemma_clauses};
ghost use Rattle.solo_core.specs.First.{first_state};
ghost use Rattle.solo_core.specs.Stretch.{Stretched, stretch};
ghost use Rattle.solo_core.specs.Sheet.{mail_of, sheet_of};
ghost use Rattle.solo_core.specs.Period.{BeginsPeriod, ArePosts, in_next_period, NoneOfOthers, AreMails, clauses_posted, core_after_import};
ghost use Rattle.solo_core.specs.Soundness.{IsSound, HoldsFormula};
ghost use Rattle.solo_core.specs.declared.sheet.End.TheVariants.{Sat, Unsat};
ghost use Rattle.solo_core.specs.declared.sheet.Mail.{Mail};
ghost use Rattle.solo_core.specs.declared.sheet.Settings.{Settings};

/// A sheet has a model exactly where its stretch ended with Sat, and that satisfies a formula that is held.
pub fn law_model_stands_exactly_at_sat()
    ensures exactly { (frame : CoreFrame) (stretched : Stretched) →
        IsSome (sheet_of frame stretched).model ↔ (stretched.ended ≡ Sat) }
    ensures satisfies { (cnf : Cnf) (base : List NamedClause) (frame : CoreFrame) (quota : ℕ) (state : CoreState) (model : List Bool) →
        IsSound base frame state → HoldsFormula cnf state →
        (sheet_of frame (stretch frame quota state)).model ≡ Some model → Satisfies model cnf }
{}

/// The first period and each next one begin without conflicts and lemmas, and the mail of a period counts the conflicts
/// that its stretch added, each of which left a lemma.
pub fn law_mail_counts_the_period()
    ensures first { (cnf : Cnf) (settings : Settings) (core : ℕ) → BeginsPeriod (first_state cnf settings core) }
    ensures next { (state : CoreState) → BeginsPeriod (in_next_period state) }
    ensures conflicts { (frame : CoreFrame) (quota : ℕ) (state : CoreState) → BeginsPeriod state →
        state.conflicts + (mail_of frame (stretch frame quota state)).conflicts ≡ (stretch frame quota state).state.conflicts }
    ensures lemmas { (frame : CoreFrame) (quota : ℕ) (state : CoreState) → BeginsPeriod state →
        length (sheet_of frame (stretch frame quota state)).lemmas ≡ (mail_of frame (stretch frame quota state)).conflicts }
{}

/// A period may end: what it derived is known in the next, and no clause of another core has come in it.
pub fn law_period_may_end()
    ensures sound { (base : List NamedClause) (frame : CoreFrame) (state : CoreState) →
        IsSound base frame state → IsSound (base ++ lemma_clauses state.lemmas) frame (in_next_period state) }
    ensures others { (base : List NamedClause) (frame : CoreFrame) (state : CoreState) →
        IsSound base frame state → NoneOfOthers (base ++ lemma_clauses state.lemmas) state.period frame.core }
{}

/// What the mail of a stretch posts is what the other cores import: lemmas of this core and period, by rising indexes, whose
/// literals are distinct and within the variables.
pub fn law_posts_may_be_imported()
    ensures { (base : List NamedClause) (frame : CoreFrame) (quota : ℕ) (state : CoreState) →
        IsSound base frame state → (stretch frame quota state).ended ≢ Unsat →
        ArePosts frame.variables state.period frame.core 0 (mail_of frame (stretch frame quota state)).posted }
{}

/// A core at level 0 whose period is over may import what the other cores post in it.
pub fn law_import_keeps_soundness()
    ensures sound { (base : List NamedClause) (frame : CoreFrame) (state : CoreState) (mails : List Mail) →
        IsSound base frame (in_next_period state) → NoneOfOthers base state.period frame.core → level_now state.trail ≡ 0 →
        AreMails frame.variables state.period frame.core 0 mails →
        IsSound (base ++ clauses_posted mails) frame (core_after_import mails state) }
    ensures formula { (cnf : Cnf) (base : List NamedClause) (frame : CoreFrame) (state : CoreState) (mails : List Mail) →
        IsSound base frame (in_next_period state) → NoneOfOthers base state.period frame.core → level_now state.trail ≡ 0 →
        AreMails frame.variables state.period frame.core 0 mails →
        HoldsFormula cnf state → HoldsFormula cnf (core_after_import mails state) }
{}
