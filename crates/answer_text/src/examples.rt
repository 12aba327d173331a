//! What the definitions of the texts give on small outcomes and formulas, computed.
ghost use Rattle.std.specs.Prelude.{◌≡◌, ◌∷◌, ◌++◌, [], true, false, codes, Some, None};
ghost use Rattle.lit_base.specs.Examples.{square};
ghost use Rattle.crew.specs.declared.outcome.Verdict.TheVariants.{Sat, Unsat, Unknown};
ghost use Rattle.crew.specs.Laws.{traced, briefly};
ghost use Rattle.crew.specs.Outcome.{outcome_of};
ghost use Rattle.formula_kinds.specs.declared.kind.Kind.TheVariants.{Hole};
ghost use Rattle.formula_kinds.specs.Hole.{hole_formula};
ghost use Rattle.answer_text.specs.Answer.{answer_text};
ghost use Rattle.answer_text.specs.Laws.{short_outcome};
ghost use Rattle.answer_text.specs.Summary.{summary_text};
ghost use Rattle.answer_text.specs.Trace.{era_line};

use crew::law_two_cores_share_lemmas;

/// The answer of two cores that refute a formula in two eras, with its trace and without.
pub fn law_two_cores_are_traced()
    ensures whole { answer_text (outcome_of square briefly) briefly true ≡
        codes "c core 0 phase 0 unit 100 weight 1 halve 256 noise 0 share 8\n"
        ++ codes "c core 1 phase 1 unit 100 weight 1 halve 256 noise 0 share 8\n"
        ++ codes "c era 1 0 1 1 1 1\n" ++ codes "c era 1 1 1 1 1 1\n" ++ codes "c era 2 0 1 2 0 0\n" ++ codes "c era 2 1 1 2 0 0\n"
        ++ codes "c winner 0\n" ++ codes "s UNSATISFIABLE\n" }
    ensures plain { answer_text (outcome_of square briefly) briefly false ≡ codes "s UNSATISFIABLE\n" }
    ensures columns { era_line (traced 1 2 3 4 5 6) ≡ codes "c era 1 2 3 4 5 6\n" }
{
    law_two_cores_share_lemmas();
}

/// The `v` lines stand behind the verdict Sat alone, and no core has won where the verdict is Unknown.
pub fn law_verdicts_are_said()
    ensures model { answer_text (short_outcome Sat (Some 1) (Some (true ∷ false ∷ []))) briefly false ≡
        codes "s SATISFIABLE\n" ++ codes "v 1 -2 0\n" }
    ensures refuted { answer_text (short_outcome Unsat (Some 1) (Some (true ∷ false ∷ []))) briefly false ≡ codes "s UNSATISFIABLE\n" }
    ensures unknown { answer_text (short_outcome Unknown None None) briefly true ≡
        codes "c core 0 phase 0 unit 100 weight 1 halve 256 noise 0 share 8\n"
        ++ codes "c core 1 phase 1 unit 100 weight 1 halve 256 noise 0 share 8\n"
        ++ codes "c winner none\n" ++ codes "s UNKNOWN\n" }
{}

/// The summary of a race that refutes the formula of one hole, and of one that is given up.
pub fn law_summaries_are_said()
    ensures refuted { summary_text Hole 1 (hole_formula 1) (short_outcome Unsat (Some 0) None) ≡
        codes "c race hole 1\n" ++ codes "c variables 2 clauses 3\n" ++ codes "c eras 1\n" ++ codes "c winner 0\n"
        ++ codes "c lemmas 0\n" ++ codes "s UNSATISFIABLE\n" }
    ensures unknown { summary_text Hole 1 (hole_formula 1) (short_outcome Unknown None None) ≡
        codes "c race hole 1\n" ++ codes "c variables 2 clauses 3\n" ++ codes "c eras 1\n" ++ codes "c winner none\n"
        ++ codes "c lemmas 0\n" ++ codes "s UNKNOWN\n" }
{}
