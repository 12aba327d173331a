ghost use Rattle.std.specs.Prelude.{◌≡◌, ◌+◌, ◌-◌, ◌*◌, ◌≤◌, ◌<◌, [], ◌∷◌, length, IfOk, OnOk};
ghost use Rattle.lit_base.specs.Literal.{IsWithin};
ghost use Rattle.lit_base.specs.Distinct.{distinct};
ghost use Rattle.formula_kinds.specs.Below.{with_clauses, below};
ghost use Rattle.formula_kinds.specs.Hole.{hole_clauses, hole_formula, pair_clauses, pigeon_clauses, pigeon_literal, some_hole};

use crate::push::push_clause;
use lit_base::{Formula, Lit, NoMemory};
use std::alloc::Global;

/// The formula of `n + 1` pigeons in `n` holes: each pigeon sits in a hole, and no two sit in one.
pub(crate) fn hole_formula(alloc: Global, n: u32) -> Result<Formula, NoMemory>
    requires some { 1 ≤ n }
    requires few { n ≤ 100 }
    ensures { IfOk result (λ formula. formula ≡ hole_formula n) }
{
    let mut formula = Formula::new(alloc, (n + 1) * n);
    push_pigeons(alloc, &mut formula, n)?;
    push_holes(alloc, &mut formula, n)?;
    Ok(formula)
}

/// Adds for each pigeon that it sits in a hole.
fn push_pigeons(alloc: Global, formula: &mut Formula, n: u32) -> Result<(), NoMemory>
    requires few { n ≤ 100 }
    requires variables { formula.old.variables ≡ (n + 1) * n }
    requires empty { length formula.old.clauses ≡ 0 }
    ensures value { OnOk result (formula.new ≡ with_clauses formula.old (pigeon_clauses n (n + 1))) }
    ensures room { OnOk result (length formula.new.clauses ≤ 101) }
{
    for pigeon in 0..n + 1 {
        push_pigeon(alloc, formula, n, pigeon)?;
    }
    Ok(())
}

/// Adds that this pigeon sits in a hole.
fn push_pigeon(alloc: Global, formula: &mut Formula, n: u32, pigeon: u32) -> Result<(), NoMemory>
    requires few { n ≤ 100 }
    requires pigeon { pigeon ≤ n }
    requires variables { formula.old.variables ≡ (n + 1) * n }
    requires room { length formula.old.clauses < 4000000 }
    ensures { OnOk result (formula.new ≡ with_clauses formula.old (distinct (some_hole n pigeon n) ∷ [])) }
{
    let mut lits = Vec::with_capacity(alloc, n as usize)?;
    for hole in 0..n {
        lits.push(pigeon_literal(n, pigeon, hole, true))?;
    }
    push_clause(alloc, formula, lits.as_slice())
}

/// Adds for each hole that no two pigeons sit in it.
fn push_holes(alloc: Global, formula: &mut Formula, n: u32) -> Result<(), NoMemory>
    requires few { n ≤ 100 }
    requires variables { formula.old.variables ≡ (n + 1) * n }
    requires room { length formula.old.clauses ≤ 101 }
    ensures { OnOk result (formula.new ≡ with_clauses formula.old (below (λ h. hole_clauses n h (n + 1)) n)) }
{
    for hole in 0..n {
        push_hole(alloc, formula, n, hole)?;
    }
    Ok(())
}

/// Adds that no two pigeons sit in this hole.
fn push_hole(alloc: Global, formula: &mut Formula, n: u32, hole: u32) -> Result<(), NoMemory>
    requires few { n ≤ 100 }
    requires hole { hole < n }
    requires variables { formula.old.variables ≡ (n + 1) * n }
    requires room { length formula.old.clauses ≤ 2000000 }
    ensures value { OnOk result (formula.new ≡ with_clauses formula.old (hole_clauses n hole (n + 1))) }
    ensures room { OnOk result (length formula.new.clauses ≤ length formula.old.clauses + 10100) }
{
    for first in 0..n + 1 {
        push_pairs(alloc, formula, n, hole, first)?;
    }
    Ok(())
}

/// Adds for each pigeon after this one that the two don't sit in this hole.
fn push_pairs(
    alloc: Global,
    formula: &mut Formula,
    n: u32,
    hole: u32,
    first: u32,
) -> Result<(), NoMemory>
    requires few { n ≤ 100 }
    requires hole { hole < n }
    requires first { first ≤ n }
    requires variables { formula.old.variables ≡ (n + 1) * n }
    requires room { length formula.old.clauses ≤ 3000000 }
    ensures value { OnOk result (formula.new ≡ with_clauses formula.old (pair_clauses n hole first (n - first))) }
    ensures room { OnOk result (length formula.new.clauses ≤ length formula.old.clauses + 100) }
{
    for after in 0..n - first {
        let one = pigeon_literal(n, first, hole, false);
        let other = pigeon_literal(n, first + 1 + after, hole, false);
        push_clause(alloc, formula, &[one, other])?;
    }
    Ok(())
}

/// The literal that this pigeon sits in this hole, or that it doesn't.
fn pigeon_literal(n: u32, pigeon: u32, hole: u32, positive: bool) -> Lit
    requires few { n ≤ 100 }
    requires pigeon { pigeon ≤ n }
    requires hole { hole < n }
    ensures value { result ≡ pigeon_literal n pigeon hole positive }
    ensures within { IsWithin ((n + 1) * n) result }
{
    Lit::of(pigeon * n + hole + 1, positive)
}
