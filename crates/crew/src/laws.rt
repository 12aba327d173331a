//! What makes the answer of a run right: laws of the definitions, as functions that do nothing and whose
//! contracts state them.
ghost use Rattle.std.specs.Prelude.{◌≡◌, ◌<◌, ◌≤◌, ℕ, ◌+◌, ◌*◌, ◌↔◌, Bool, true, false, IsOk, IsSome, IsNone, List, length, Some, option_map, slice_get};
ghost use Rattle.std.specs.List.{AllByRecursion};
ghost use Rattle.std.specs.Option.{IsSomeAnd};
ghost use Rattle.lit_base.specs.Cnf.{Cnf, IsFormula};
ghost use Rattle.lit_base.specs.Text.{lines_text};
ghost use Rattle.lit_base.specs.Truth.{Satisfies};
ghost use Rattle.lit_base.specs.Judgement.{judge, Checks, HasNoModel};
ghost use Rattle.solo_core.specs.First.{AreInRange};
ghost use Rattle.solo_core.specs.Log.{AreNumbered};
ghost use Rattle.solo_core.specs.Soundness.{EndsEmpty};
ghost use Rattle.solo_core.specs.declared.sheet.End.{End};
ghost use Rattle.solo_core.specs.declared.sheet.End.TheVariants as end;
ghost use Rattle.solo_core.specs.declared.sheet.Settings.{Settings};
ghost use Rattle.log_merge.specs.Numbering.{number_of};
ghost use Rattle.crew.specs.declared.outcome.Verdict.TheVariants.{Sat, Unsat, Unknown};
ghost use Rattle.crew.specs.Era.{Member, is_answer, is_over};
ghost use Rattle.crew.specs.Run.{members_at, mails_at, HasEra, last_era, last_ends};
ghost use Rattle.crew.specs.Log.{log_of, numbering_of_run, log_lines, log_text};
ghost use Rattle.crew.specs.Outcome.{verdict_at, outcome_of};
ghost use Rattle.crew.specs.Laws.{row_in_trace, Tells};

/// The last era is one of the run and ends it, and no other era does. There are no more eras than
/// conflicts that a core may have.
pub fn law_run_ends()
    ensures has { (cnf : Cnf) (settings : Settings) → AreInRange settings → HasEra cnf settings (last_era cnf settings) }
    ensures over { (cnf : Cnf) (settings : Settings) → AreInRange settings →
        is_over (mails_at cnf settings (last_era cnf settings)) ≡ true }
    ensures only { (cnf : Cnf) (settings : Settings) (past : ℕ) → AreInRange settings →
        HasEra cnf settings past → is_over (mails_at cnf settings past) ≡ true → past ≡ last_era cnf settings }
    ensures within { (cnf : Cnf) (settings : Settings) → AreInRange settings → last_era cnf settings < settings.limit }
{}

/// Whatever the verdict, the lemmas of the log have the numbers behind those of the originals, in their
/// order and without a gap, and each line follows at its place; the text of the log is that of these lines.
pub fn law_log_follows()
    ensures numbered { (cnf : Cnf) (settings : Settings) → IsFormula cnf → AreInRange settings →
        AreNumbered (number_of (numbering_of_run cnf settings)) (length cnf.clauses + 1) (log_of cnf settings) }
    ensures in_order { (cnf : Cnf) (settings : Settings) → IsFormula cnf → AreInRange settings →
        IsOk (judge cnf (log_lines cnf settings)) }
    ensures text { (cnf : Cnf) (settings : Settings) → IsFormula cnf → AreInRange settings →
        log_text cnf settings ≡ lines_text (log_lines cnf settings) }
    ensures counted { (cnf : Cnf) (settings : Settings) → AreInRange settings →
        (outcome_of cnf settings).lemmas ≡ length (log_of cnf settings) }
{}

/// Where the verdict is Unsat the last line of the log, and no earlier one, is the empty lemma. The log
/// is then a proof that checks, and no model satisfies the formula.
pub fn law_unsat_is_refuted()
    ensures empty_last { (cnf : Cnf) (settings : Settings) → IsFormula cnf → AreInRange settings →
        (outcome_of cnf settings).verdict ≡ Unsat → EndsEmpty (log_of cnf settings) }
    ensures checks { (cnf : Cnf) (settings : Settings) → IsFormula cnf → AreInRange settings →
        (outcome_of cnf settings).verdict ≡ Unsat → Checks cnf (log_lines cnf settings) }
    ensures no_model { (cnf : Cnf) (settings : Settings) → IsFormula cnf → AreInRange settings →
        (outcome_of cnf settings).verdict ≡ Unsat → HasNoModel cnf }
{}

/// There is a model exactly where the verdict is Sat. It has a value for each variable, and satisfies the
/// formula.
pub fn law_model_satisfies_formula()
    ensures exactly { (cnf : Cnf) (settings : Settings) → AreInRange settings →
        IsSome (outcome_of cnf settings).model ↔ ((outcome_of cnf settings).verdict ≡ Sat) }
    ensures values { (cnf : Cnf) (settings : Settings) (model : List Bool) → AreInRange settings →
        (outcome_of cnf settings).model ≡ Some model → length model ≡ cnf.variables }
    ensures satisfied { (cnf : Cnf) (settings : Settings) (model : List Bool) → IsFormula cnf → AreInRange settings →
        (outcome_of cnf settings).model ≡ Some model → Satisfies model cnf }
{}

/// The verdict is Unknown exactly where every core has spent its limit.
pub fn law_unknown_where_all_are_spent()
    ensures { (cnf : Cnf) (settings : Settings) → AreInRange settings →
        ((outcome_of cnf settings).verdict ≡ Unknown) ↔ AllByRecursion (λ e. e ≡ end.Spent) (last_ends cnf settings) }
{}

/// There is a winner exactly where the verdict isn't Unknown. Its end is the verdict, and no core of a
/// lower number has an answer.
pub fn law_winner_is_first()
    ensures exactly { (cnf : Cnf) (settings : Settings) → AreInRange settings →
        IsNone (outcome_of cnf settings).winner ↔ ((outcome_of cnf settings).verdict ≡ Unknown) }
    ensures own_end { (cnf : Cnf) (settings : Settings) (w : ℕ) → AreInRange settings →
        (outcome_of cnf settings).winner ≡ Some w →
        option_map verdict_at (slice_get (last_ends cnf settings) w) ≡ Some (outcome_of cnf settings).verdict }
    ensures lowest { (cnf : Cnf) (settings : Settings) (w i : ℕ) (e : End) → AreInRange settings →
        (outcome_of cnf settings).winner ≡ Some w → i < w →
        slice_get (last_ends cnf settings) i ≡ Some e → is_answer e ≡ false }
{}

/// The trace has a row for each core in each era: era by era, and in each era by the cores' numbers. A row tells what
/// the core did in that era, and how many conflicts it may have in the next one; in the last era it may have none.
pub fn law_trace_tells_the_run()
    ensures rows { (cnf : Cnf) (settings : Settings) → AreInRange settings →
        length (outcome_of cnf settings).trace ≡ (outcome_of cnf settings).eras * settings.cores }
    ensures stretch { (cnf : Cnf) (settings : Settings) (past i : ℕ) (m : Member) → AreInRange settings → HasEra cnf settings past →
        slice_get (members_at cnf settings past) i ≡ Some m → IsSomeAnd (row_in_trace cnf settings past i) (Tells past i m) }
    ensures next { (cnf : Cnf) (settings : Settings) (past i : ℕ) (m : Member) → AreInRange settings → HasEra cnf settings (past + 1) →
        slice_get (members_at cnf settings (past + 1)) i ≡ Some m →
        IsSomeAnd (row_in_trace cnf settings past i) (λ row. (row.next ≡ m.quota) × (1 ≤ row.next)) }
    ensures last { (cnf : Cnf) (settings : Settings) (i : ℕ) → AreInRange settings → i < settings.cores →
        IsSomeAnd (row_in_trace cnf settings (last_era cnf settings) i) (λ row. row.next ≡ 0) }
{}

/// No core ends with Sat where another ends with Unsat.
pub fn law_ends_agree()
    ensures { (cnf : Cnf) (settings : Settings) (i j : ℕ) → IsFormula cnf → AreInRange settings →
        slice_get (last_ends cnf settings) i ≡ Some end.Sat → slice_get (last_ends cnf settings) j ≡ Some end.Unsat → ⊥ }
{}
