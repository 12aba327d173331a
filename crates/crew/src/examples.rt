//! What the definitions of a run give on a small formula, computed.
ghost use Rattle.std.specs.Prelude.{◌≡◌, true, false, [], ◌∷◌, map, Some, None};
ghost use Rattle.lit_base.specs.Examples.{plain, negated, square, addition, ending};
ghost use Rattle.solo_core.specs.declared.sheet.End.TheVariants as end;
ghost use Rattle.crew.specs.declared.outcome.Verdict.TheVariants.{Unsat, Unknown};
ghost use Rattle.crew.specs.Era.{mails_of, is_over, after_era};
ghost use Rattle.crew.specs.Run.{last_ends};
ghost use Rattle.crew.specs.Log.{log_lines};
ghost use Rattle.crew.specs.Outcome.{outcome_of};
ghost use Rattle.crew.specs.Laws.{traced, of_cores, briefly, brief_pair};

/// One core refutes the four clauses of two variables with two lemmas.
pub fn law_square_is_refuted()
    ensures outcome { outcome_of square (of_cores 1 3) ≡
        record { verdict = Unsat; eras = 1; winner = Some 0; model = None; lemmas = 2; trace = traced 1 0 2 1 1 0 ∷ [] } }
    ensures lines { log_lines square (of_cores 1 3) ≡ addition 1 5 (plain 1 ∷ []) (1 ∷ 2 ∷ []) ∷ ending 2 6 (5 ∷ 3 ∷ 4 ∷ []) ∷ [] }
{}

/// With a limit of one conflict it is given up after the first of them.
pub fn law_square_is_given_up_at_the_limit()
    ensures outcome { outcome_of square (of_cores 1 1) ≡
        record { verdict = Unknown; eras = 1; winner = None; model = None; lemmas = 1; trace = traced 1 0 1 1 1 0 ∷ [] } }
    ensures lines { log_lines square (of_cores 1 1) ≡ addition 1 5 (plain 1 ∷ []) (1 ∷ 2 ∷ []) ∷ [] }
{}

/// Of two cores that refute it in one era the first wins, and its lemmas alone stand in the log. Where both
/// have spent their limit all lemmas stand, those of the first core before those of the second.
pub fn law_two_cores_in_turn()
    ensures outcome { outcome_of square (of_cores 2 3) ≡
        record {
          verdict = Unsat;
          eras = 1;
          winner = Some 0;
          model = None;
          lemmas = 2;
          trace = traced 1 0 2 1 1 0 ∷ traced 1 1 2 1 1 0 ∷ [];
        } }
    ensures ends { last_ends square (of_cores 2 3) ≡ end.Unsat ∷ end.Unsat ∷ [] }
    ensures lines { log_lines square (of_cores 2 3) ≡ addition 1 5 (plain 1 ∷ []) (1 ∷ 2 ∷ []) ∷ ending 2 6 (5 ∷ 3 ∷ 4 ∷ []) ∷ [] }
    ensures spent { outcome_of square (of_cores 2 1) ≡
        record {
          verdict = Unknown;
          eras = 1;
          winner = None;
          model = None;
          lemmas = 2;
          trace = traced 1 0 1 1 1 0 ∷ traced 1 1 1 1 1 0 ∷ [];
        } }
    ensures spent_lines { log_lines square (of_cores 2 1) ≡ addition 1 5 (plain 1 ∷ []) (1 ∷ 2 ∷ []) ∷ addition 2 6 (negated 1 ∷ []) (3 ∷ 4 ∷ []) ∷ [] }
{}

/// Two cores with a quota of one conflict are not over after it. They go on in the next period, in which
/// each may have as many conflicts as its volume allows beside that of the fuller one.
pub fn law_two_cores_go_on()
    ensures goes_on { is_over (mails_of (brief_pair 1 1)) ≡ false }
    ensures over { is_over (mails_of (brief_pair 1 2)) ≡ true }
    ensures period { map (λ m. m.state.period) (after_era 300 (brief_pair 1 1)) ≡ 2 ∷ 2 ∷ [] }
    ensures same { map (λ m. m.quota) (after_era 300 (brief_pair 1 1)) ≡ 300 ∷ 300 ∷ [] }
    ensures longer { map (λ m. m.quota) (after_era 300 (brief_pair 0 1)) ≡ 600 ∷ 300 ∷ [] }
{}

/// Two cores with a first period of one conflict refute it in two eras. In the first each posts its lemma, which the other
/// imports, so that in the second each holds two.
pub fn law_two_cores_share_lemmas()
    ensures outcome { outcome_of square briefly ≡
        record {
          verdict = Unsat;
          eras = 2;
          winner = Some 0;
          model = None;
          lemmas = 3;
          trace = traced 1 0 1 1 1 1 ∷ traced 1 1 1 1 1 1 ∷ traced 2 0 1 2 0 0 ∷ traced 2 1 1 2 0 0 ∷ [];
        } }
    ensures lines { log_lines square briefly ≡ addition 1 5 (plain 1 ∷ []) (1 ∷ 2 ∷ []) ∷ addition 2 6 (negated 1 ∷ []) (3 ∷ 4 ∷ []) ∷ ending 3 7 (5 ∷ 6 ∷ []) ∷ [] }
{}
