ghost use Rattle.std.specs.Prelude.{◌≡◌, ◌+◌, ◌*◌, ◌≤◌, ◌<◌, length, IfOk, OnOk};
ghost use Rattle.lit_base.specs.Literal.{IsWithin};
ghost use Rattle.formula_kinds.specs.Below.{below, with_clauses};
ghost use Rattle.formula_kinds.specs.Grid.{apart_clauses, cell_at, colour_clauses, colour_literal, grid_formula, neighbour_clauses, over_cells};

use crate::push::push_clause;
use lit_base::{Formula, Lit, NoMemory};
use std::alloc::Global;

/// How many colours there are.
const COLOURS: u32 = 3;

/// The formula of a grid of `n` rows and `n` columns: each cell has a colour, and no two neighbours have one in common.
pub(crate) fn grid_formula(alloc: Global, n: u32) -> Result<Formula, NoMemory>
    requires some { 1 ≤ n }
    requires few { n ≤ 300 }
    ensures { IfOk result (λ formula. formula ≡ grid_formula n) }
{
    let mut formula = Formula::new(alloc, COLOURS * (n * n));
    push_cells(alloc, &mut formula, n)?;
    push_all_neighbours(alloc, &mut formula, n)?;
    Ok(formula)
}

/// Adds for each cell that it has a colour.
fn push_cells(alloc: Global, formula: &mut Formula, n: u32) -> Result<(), NoMemory>
    requires few { n ≤ 300 }
    requires variables { formula.old.variables ≡ 3 * (n * n) }
    requires empty { length formula.old.clauses ≡ 0 }
    ensures value { OnOk result (formula.new ≡ with_clauses formula.old (over_cells n (colour_clauses n))) }
    ensures room { OnOk result (length formula.new.clauses ≤ 90000) }
{
    for row in 0..n {
        push_row(alloc, formula, n, row)?;
    }
    Ok(())
}

/// Adds for each cell of this row that it has a colour.
fn push_row(alloc: Global, formula: &mut Formula, n: u32, row: u32) -> Result<(), NoMemory>
    requires few { n ≤ 300 }
    requires row { row < n }
    requires variables { formula.old.variables ≡ 3 * (n * n) }
    requires room { length formula.old.clauses ≤ 1000000 }
    ensures value { OnOk result (formula.new ≡ with_clauses formula.old (below (colour_clauses n row) n)) }
    ensures room { OnOk result (length formula.new.clauses ≤ length formula.old.clauses + 300) }
{
    for column in 0..n {
        let cell = cell_at(n, row, column);
        let first = colour_literal(n, cell, 0, true);
        let second = colour_literal(n, cell, 1, true);
        let third = colour_literal(n, cell, 2, true);
        push_clause(alloc, formula, &[first, second, third])?;
    }
    Ok(())
}

/// Adds for each cell that it has no colour in common with its neighbours.
fn push_all_neighbours(alloc: Global, formula: &mut Formula, n: u32) -> Result<(), NoMemory>
    requires few { n ≤ 300 }
    requires variables { formula.old.variables ≡ 3 * (n * n) }
    requires room { length formula.old.clauses ≤ 90000 }
    ensures { OnOk result (formula.new ≡ with_clauses formula.old (over_cells n (neighbour_clauses n))) }
{
    for row in 0..n {
        push_row_neighbours(alloc, formula, n, row)?;
    }
    Ok(())
}

/// Adds for each cell of this row that it has no colour in common with its neighbours.
fn push_row_neighbours(
    alloc: Global,
    formula: &mut Formula,
    n: u32,
    row: u32,
) -> Result<(), NoMemory>
    requires few { n ≤ 300 }
    requires row { row < n }
    requires variables { formula.old.variables ≡ 3 * (n * n) }
    requires room { length formula.old.clauses ≤ 1000000 }
    ensures value { OnOk result (formula.new ≡ with_clauses formula.old (below (neighbour_clauses n row) n)) }
    ensures room { OnOk result (length formula.new.clauses ≤ length formula.old.clauses + 1800) }
{
    for column in 0..n {
        push_neighbours(alloc, formula, n, row, column)?;
    }
    Ok(())
}

/// Adds that this cell has no colour in common with the one to its right and the one below, where they are.
fn push_neighbours(
    alloc: Global,
    formula: &mut Formula,
    n: u32,
    row: u32,
    column: u32,
) -> Result<(), NoMemory>
    requires few { n ≤ 300 }
    requires row { row < n }
    requires column { column < n }
    requires variables { formula.old.variables ≡ 3 * (n * n) }
    requires room { length formula.old.clauses ≤ 2000000 }
    ensures value { OnOk result (formula.new ≡ with_clauses formula.old (neighbour_clauses n row column)) }
    ensures room { OnOk result (length formula.new.clauses ≤ length formula.old.clauses + 6) }
{
    let cell = cell_at(n, row, column);
    if column + 1 < n {
        push_apart(alloc, formula, n, cell, cell_at(n, row, column + 1))?;
    }
    if row + 1 < n {
        push_apart(alloc, formula, n, cell, cell_at(n, row + 1, column))?;
    }
    Ok(())
}

/// Adds that these two cells have no colour in common.
fn push_apart(
    alloc: Global,
    formula: &mut Formula,
    n: u32,
    cell: u32,
    other: u32,
) -> Result<(), NoMemory>
    requires few { n ≤ 300 }
    requires cell { cell < n * n }
    requires other { other < n * n }
    requires variables { formula.old.variables ≡ 3 * (n * n) }
    requires room { length formula.old.clauses ≤ 3000000 }
    ensures value { OnOk result (formula.new ≡ with_clauses formula.old (apart_clauses cell other 3)) }
    ensures room { OnOk result (length formula.new.clauses ≤ length formula.old.clauses + 3) }
{
    for colour in 0..COLOURS {
        let first = colour_literal(n, cell, colour, false);
        let second = colour_literal(n, other, colour, false);
        push_clause(alloc, formula, &[first, second])?;
    }
    Ok(())
}

/// The number of the cell of this row and column.
fn cell_at(n: u32, row: u32, column: u32) -> u32
    requires few { n ≤ 300 }
    requires row { row < n }
    requires column { column < n }
    ensures value { result ≡ cell_at n row column }
    ensures within { result < n * n }
{
    row * n + column
}

/// The literal that this cell has this colour, or that it hasn't.
fn colour_literal(n: u32, cell: u32, colour: u32, positive: bool) -> Lit
    requires few { n ≤ 300 }
    requires cell { cell < n * n }
    requires colour { colour < 3 }
    ensures value { result ≡ colour_literal cell colour positive }
    ensures within { IsWithin (3 * (n * n)) result }
{
    Lit::of(COLOURS * cell + colour + 1, positive)
}
