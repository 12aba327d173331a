//! Laws of proofs in LRAT form.
ghost use Rattle.std.specs.Prelude.{◌≡◌, true, false, List, [], ◌∷◌, ◌++◌, map, Option, Err, is_ok, IsOk};
ghost use Rattle.lit_base.specs.Literal.{Literal};
ghost use Rattle.lit_base.specs.Cnf.{Cnf};
ghost use Rattle.lit_base.specs.Walk.{FollowsByHints, FindsMore};
ghost use Rattle.lit_base.specs.Judgement.{judge, judged_line, add_empty, adds_empty, checks, Checks, HasNoModel};
ghost use Rattle.lit_base.specs.declared.proof.Line.{Line};
ghost use Rattle.lit_base.specs.declared.proof.ProofFault.TheVariants.{IdNotRising, UnknownHint, NotUnit, NotFalsified, UnknownDelete};
ghost use Rattle.lit_base.specs.Examples.{square, both_signs, addition, half, ending, deletion};

/// A formula with a proof that checks has no model.
pub fn law_checked_proof_refutes()
    ensures { (cnf : Cnf) (lines : List Line) → Checks cnf lines → HasNoModel cnf }
{}

/// Lines without the empty lemma are no proof that checks yet. The first line that adds it decides:
/// the proof checks exactly where neither that line nor an earlier one has a fault.
pub fn law_empty_lemma_decides()
    ensures none { (cnf : Cnf) (lines : List Line) →
        add_empty lines ≡ false → checks cnf lines ≡ false }
    ensures first { (cnf : Cnf) (lines : List Line) (line : Line) →
        add_empty lines ≡ false → adds_empty line.step ≡ true →
        checks cnf (lines ++ line ∷ []) ≡ is_ok (judged_line (judge cnf lines) line) }
{}

/// A lemma that follows from its hints by one look-up follows by any that finds at least the same,
/// under other names too.
pub fn law_found_more_follows<N, M>()
    ensures renamed { (look : N → Option (List Literal)) (found : M → Option (List Literal))
        (number : N → M) → FindsMore look found number → (lemma : List Literal) (hints : List N) →
        FollowsByHints look lemma hints → FollowsByHints found lemma (map number hints) }
    ensures same_names { (look found : N → Option (List Literal)) →
        FindsMore look found (λ name. name) → (lemma : List Literal) (hints : List N) →
        FollowsByHints look lemma hints → FollowsByHints found lemma hints }
{}

/// What the judgement of proofs answers on small lines over the four clauses of two variables.
pub fn law_small_proofs()
    ensures refuted { checks square (half 5 (1 ∷ 2 ∷ []) ∷ ending 2 6 (5 ∷ 3 ∷ 4 ∷ []) ∷ []) ≡ true }
    ensures no_empty_lemma { checks square (half 5 (1 ∷ 2 ∷ []) ∷ []) ≡ false }
    ensures missing_hint { judge square (ending 1 5 (9 ∷ []) ∷ []) ≡ Err (UnknownHint 1 1) }
    ensures not_unit { judge square (ending 1 5 (1 ∷ []) ∷ []) ≡ Err (NotUnit 1 1) }
    ensures ends_at_a_unit { judge square (half 5 (1 ∷ []) ∷ []) ≡ Err (NotFalsified 1) }
    ensures deleted_hint { Err (UnknownHint 3 3) ≡
        judge square (half 5 (1 ∷ 2 ∷ []) ∷ deletion 2 5 (1 ∷ []) ∷ ending 3 6 (5 ∷ 3 ∷ 1 ∷ []) ∷ []) }
    ensures tautology { IsOk (judge square (addition 1 5 both_signs (9 ∷ []) ∷ [])) }
    ensures hints_after_the_end { IsOk (judge square (half 5 (1 ∷ 2 ∷ 9 ∷ []) ∷ [])) }
    ensures id_not_rising { judge square (half 4 (1 ∷ 2 ∷ []) ∷ []) ≡ Err (IdNotRising 1) }
    ensures deleted_twice { judge square (deletion 1 5 (2 ∷ 2 ∷ []) ∷ []) ≡ Err (UnknownDelete 1 2) }
{}
