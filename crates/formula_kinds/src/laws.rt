//! What the generated formulas are: laws of the definitions, as functions that do nothing and whose contracts state them.
ghost use Rattle.std.specs.Prelude.{◌≡◌, ◌+◌, ◌-◌, ◌*◌, ◌/◌, ◌<◌, ◌≤◌, ◌↔◌, ℕ, List, Bool, [], ◌∷◌, length, All, Some, slice_get};
ghost use Rattle.lit_base.specs.Literal.{IsWithin};
ghost use Rattle.lit_base.specs.Distinct.{distinct};
ghost use Rattle.lit_base.specs.Truth.{Satisfies};
ghost use Rattle.formula_kinds.specs.declared.kind.Kind.{Kind};
ghost use Rattle.formula_kinds.specs.Kinds.{kind_named, kind_word};
ghost use Rattle.formula_kinds.specs.Formula.{formula_of};
ghost use Rattle.formula_kinds.specs.Grid.{grid_formula};
ghost use Rattle.formula_kinds.specs.Hole.{hole_formula};
ghost use Rattle.formula_kinds.specs.Rand.{drawn_literal, rand_formula};
ghost use Rattle.formula_kinds.specs.Laws.{CellsAreColoured, PigeonsSit};

/// The word for a kind names it, and it names no other.
pub fn law_kinds_by_word()
    ensures named { (kind : Kind) → kind_named (kind_word kind) ≡ Some kind }
    ensures word { (word : List ℕ) (kind : Kind) → kind_named word ≡ Some kind → kind_word kind ≡ word }
{}

/// How many variables and clauses the formulas have.
pub fn law_sizes()
    ensures hole_variables { (n : ℕ) → (hole_formula n).variables ≡ (n + 1) * n }
    ensures hole_clauses { (n : ℕ) → 2 * length (hole_formula n).clauses ≡ 2 * (n + 1) + n * (n * (n + 1)) }
    ensures grid_variables { (n : ℕ) → (grid_formula n).variables ≡ 3 * (n * n) }
    ensures grid_clauses { (n : ℕ) → length (grid_formula n).clauses ≡ n * n + 6 * (n * (n - 1)) }
    ensures rand_variables { (n seed : ℕ) → (rand_formula n seed).variables ≡ n }
    ensures rand_clauses { (n seed : ℕ) → length (rand_formula n seed).clauses ≡ 17 * n / 4 }
{}

/// Each literal is of one of the formula's variables.
pub fn law_literals_are_within()
    ensures { (kind : Kind) (n seed : ℕ) → 1 ≤ n →
        All (All (IsWithin (formula_of kind n seed).variables)) (formula_of kind n seed).clauses }
{}

/// A model satisfies the formula of pigeons and holes exactly where each pigeon sits in a hole, and no two in one.
pub fn law_pigeons()
    ensures { (n : ℕ) (model : List Bool) → Satisfies model (hole_formula n) ↔ PigeonsSit n model }
{}

/// No model does: there are more pigeons than holes.
pub fn law_no_room()
    ensures { (n : ℕ) (model : List Bool) → ¬ Satisfies model (hole_formula n) }
{}

/// A model satisfies the formula of a grid exactly where each cell has a colour, and none in common with a neighbour.
pub fn law_cells()
    ensures { (n : ℕ) (model : List Bool) → Satisfies model (grid_formula n) ↔ CellsAreColoured n model }
{}

/// Each random clause has the literals of the next three draws, each of them once.
pub fn law_draws()
    ensures { (n seed i : ℕ) → i < 17 * n / 4 →
        slice_get (rand_formula n seed).clauses i ≡ Some (distinct
        (drawn_literal n seed (3 * i + 1) ∷ drawn_literal n seed (3 * i + 2) ∷ drawn_literal n seed (3 * i + 3) ∷ [])) }
{}
