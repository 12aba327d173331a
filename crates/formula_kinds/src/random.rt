ghost use Rattle.std.specs.Prelude.{◌≡◌, ◌+◌, ◌*◌, ◌/◌, ◌≤◌, ◌<◌, [], ◌∷◌, length, IfOk, OnOk};
ghost use Rattle.lit_base.specs.Literal.{IsWithin};
ghost use Rattle.lit_base.specs.Distinct.{distinct};
ghost use Rattle.formula_kinds.specs.Below.{with_clauses};
ghost use Rattle.formula_kinds.specs.Rand.{drawn_clause, drawn_literal, rand_formula};

use crate::push::push_clause;
use core_rows::noise;
use lit_base::{Formula, Lit, NoMemory};
use std::alloc::Global;

/// The number of the core whose noise gives the draws; no core has it.
const DRAWS: u64 = 64;

/// The formula of random clauses over `n` variables, 17 for each four variables, each with the literals of three draws.
pub(crate) fn rand_formula(alloc: Global, n: u32, seed: u64) -> Result<Formula, NoMemory>
    requires some { 1 ≤ n }
    requires few { n ≤ 100000 }
    ensures { IfOk result (λ formula. formula ≡ rand_formula n seed) }
{
    let mut formula = Formula::new(alloc, n);
    for i in 0..17 * n / 4 {
        push_draws(alloc, &mut formula, n, seed, i)?;
    }
    Ok(formula)
}

/// Adds clause `i`, counted from 0.
fn push_draws(
    alloc: Global,
    formula: &mut Formula,
    n: u32,
    seed: u64,
    i: u32,
) -> Result<(), NoMemory>
    requires some { 1 ≤ n }
    requires few { n ≤ 100000 }
    requires clause { i < 425000 }
    requires variables { formula.old.variables ≡ n }
    requires room { length formula.old.clauses < 4000000 }
    ensures { OnOk result (formula.new ≡ with_clauses formula.old (distinct (drawn_clause n seed i) ∷ [])) }
{
    let draws = 3 * i;
    let first = drawn_literal(n, seed, draws + 1);
    let second = drawn_literal(n, seed, draws + 2);
    let third = drawn_literal(n, seed, draws + 3);
    push_clause(alloc, formula, &[first, second, third])
}

/// The literal of a draw, counted from 1.
fn drawn_literal(n: u32, seed: u64, draw: u32) -> Lit
    requires some { 1 ≤ n }
    requires few { n ≤ 100000 }
    ensures value { result ≡ drawn_literal n seed draw }
    ensures within { IsWithin n result }
{
    let drawn = noise(seed, DRAWS, u64::from(draw));
    let variable = (drawn >> 1) % u64::from(n) + 1;
    Lit::of(variable as u32, drawn % 2 == 0)
}
