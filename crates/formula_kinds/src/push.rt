ghost use Rattle.std.specs.Prelude.{◌≡◌, ◌<◌, [], ◌∷◌, length, All, OnOk};
ghost use Rattle.lit_base.specs.Literal.{IsWithin};
ghost use Rattle.lit_base.specs.Distinct.{distinct};
ghost use Rattle.formula_kinds.specs.Below.{with_clauses};

use lit_base::{Clause, Formula, Lit, NoMemory};
use std::alloc::Global;

/// Adds the clause of these literals at the end of the formula.
pub(crate) fn push_clause(
    alloc: Global,
    formula: &mut Formula,
    lits: &[Lit],
) -> Result<(), NoMemory>
    requires within { All (IsWithin formula.old.variables) lits.now }
    requires room { length formula.old.clauses < 4000000 }
    ensures { OnOk result (formula.new ≡ with_clauses formula.old (distinct lits.now ∷ [])) }
{
    formula.push(Clause::of(alloc, lits)?)
}
