ghost use Rattle.std.specs.Prelude.{◌≡◌, ◌≤◌, IfOk};
ghost use Rattle.formula_kinds.specs.Formula.{formula_of};
ghost use Rattle.formula_kinds.specs.Kinds.{most_of};

use crate::grid::grid_formula;
use crate::hole::hole_formula;
use crate::kind::Kind;
use crate::random::rand_formula;
use lit_base::{Formula, NoMemory};
use std::alloc::Global;

/// The formula of this kind for `n`, from 1 to `most_of` the kind. The seed matters for random clauses alone.
///
/// It is made in its final form, clause by clause. The formulas of pigeons and holes are those of Haken (1985). The
/// random ones are in the manner of Mitchell, Selman and Levesque (1992), but a clause may draw a variable twice.
pub fn generate(alloc: Global, kind: Kind, n: u32, seed: u64) -> Result<Formula, NoMemory>
    requires some { 1 ≤ n }
    requires few { n ≤ most_of kind }
    ensures { IfOk result (λ formula. formula ≡ formula_of kind n seed) }
{
    match kind {
        Kind::Hole => hole_formula(alloc, n),
        Kind::Grid => grid_formula(alloc, n),
        Kind::Rand => rand_formula(alloc, n, seed),
    }
}
