//! What the definitions give for small numbers, computed.
ghost use Rattle.std.specs.Prelude.{◌≡◌, ◌∷◌, [], codes};
ghost use Rattle.formula_kinds.specs.Examples.{clause_texts};
ghost use Rattle.formula_kinds.specs.Grid.{grid_formula};
ghost use Rattle.formula_kinds.specs.Hole.{hole_formula};
ghost use Rattle.formula_kinds.specs.Rand.{rand_formula};

/// The clauses of small formulas, in their order.
pub fn law_small_formulas()
    ensures one_hole { clause_texts (hole_formula 1) ≡ codes " 1" ∷ codes " 2" ∷ codes " -1 -2" ∷ [] }
    ensures two_holes { clause_texts (hole_formula 2) ≡
        codes " 1 2" ∷ codes " 3 4" ∷ codes " 5 6"
        ∷ codes " -1 -3" ∷ codes " -1 -5" ∷ codes " -3 -5"
        ∷ codes " -2 -4" ∷ codes " -2 -6" ∷ codes " -4 -6" ∷ [] }
    ensures one_cell { clause_texts (grid_formula 1) ≡ codes " 1 2 3" ∷ [] }
    ensures four_cells { clause_texts (grid_formula 2) ≡
        codes " 1 2 3" ∷ codes " 4 5 6" ∷ codes " 7 8 9" ∷ codes " 10 11 12"
        ∷ codes " -1 -4" ∷ codes " -2 -5" ∷ codes " -3 -6" ∷ codes " -1 -7" ∷ codes " -2 -8" ∷ codes " -3 -9"
        ∷ codes " -4 -10" ∷ codes " -5 -11" ∷ codes " -6 -12"
        ∷ codes " -7 -10" ∷ codes " -8 -11" ∷ codes " -9 -12" ∷ [] }
    ensures random { clause_texts (rand_formula 2 7) ≡
        codes " 1" ∷ codes " 1 -1 -2" ∷ codes " 1 -2 2" ∷ codes " -1 1"
        ∷ codes " -2 2" ∷ codes " 2 1 -2" ∷ codes " 1 -1" ∷ codes " -1 -2" ∷ [] }
{}
