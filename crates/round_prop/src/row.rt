ghost use Rattle.std.specs.Prelude.{◌≡◌, ◌+◌, Some, IsSome, map};
ghost use Rattle.lit_base.specs.Named.{lits_at};
ghost use Rattle.lit_base.specs.Held.{clauses_of};
ghost use Rattle.round_prop.specs.Spanned.{silent, row_for, IsSpanned};
ghost use Rattle.round_prop.specs.declared.row.Row.{Row};

use clause_pool::{Pool, Span, Steps};
use lit_base::{Lit, Name};
use std::sync::ledger::Ledger;

/// The end of a row that doesn't tell where its clause stands.
const NOWHERE: u32 = u32::MAX;

/// A clause that is linked: its name, and where its literals stand in the pool, from `start` up to `end`.
///
/// A clause that ends behind the first 2^32 - 1 literals is read by its name; `end` is then 4,294,967,295.
#[derive(Clone, Copy)]
pub(crate) struct Row {
    pub(crate) name: Name,
    pub(crate) start: u32,
    pub(crate) end: u32,
}

/// The literals of a row's clause, which is held.
pub(crate) fn lits_of<'a, L: Ledger>(pool: &'a Pool, row: Row, steps: &mut Steps<L>) -> &'a [Lit]
    requires held { IsSome (lits_at (clauses_of pool.now.held) row.name) }
    requires spanned { IsSpanned pool.now.added row }
    ensures lits { lits_at (clauses_of pool.now.held) row.name ≡ Some result.now }
    ensures steps { steps.new ≡ steps.old + 1 }
{
    if row.end >= NOWHERE {
        return pool.lits(row.name, steps);
    }
    let span = Span {
        start: row.start as usize,
        end: row.end as usize,
    };
    pool.lits_in(span, steps)
}

/// Finds anew where the clauses of rows stand.
pub(crate) fn find_rows(rows: &mut [Row], pool: &Pool)
    ensures { rows.new ≡ map (λ (r : Row). row_for pool.now.added r.name) rows.old }
{
    for at in 0..rows.len() {
        rows[at] = find_row(pool, rows[at].name);
    }
}

/// The row of the clause with this name.
pub(crate) fn find_row(pool: &Pool, name: Name) -> Row
    ensures { result ≡ row_for pool.now.added name }
{
    let Some(span) = pool.span(name) else {
        return silent(name);
    };
    if span.end >= NOWHERE as usize {
        return silent(name);
    }
    Row {
        name,
        start: span.start as u32,
        end: span.end as u32,
    }
}

/// The row of this name that doesn't tell where its clause stands.
fn silent(name: Name) -> Row
    ensures { result ≡ silent name }
{
    Row {
        name,
        start: 0,
        end: NOWHERE,
    }
}
