//! Rounds of propagation over a table of linked clauses.
ghost use Rattle.std.specs.Prelude.{◌≡◌, ℕ, ◌+◌, ◌≤◌, ◌++◌, ◌==◌, ◌||◌, List, length, All, IfNone, IfSome, is_some};
ghost use Rattle.std.specs.List.{AllByRecursion};
ghost use Rattle.lit_base.specs.Literal.{IsWithin};
ghost use Rattle.lit_base.specs.Held.{clauses_of, AreRisingBy};
ghost use Rattle.lit_base.specs.Rounds.{NamedClause, Propagated, conflict_of, with_units, round, propagate};
ghost use Rattle.lit_base.specs.Named.{lits_at};
ghost use Rattle.lit_base.specs.Fits.{FindsAll};
ghost use Rattle.lit_base.specs.declared.trail.Entry.{Entry};
ghost use Rattle.round_prop.specs.Found.{found_of};
ghost use Rattle.round_prop.specs.Noting.{with_noted};
ghost use Rattle.round_prop.specs.Pairs.{pairs_of};
ghost use Rattle.round_prop.specs.Readied.{oldest, IsReady, HaveSameRows};
ghost use Rattle.round_prop.specs.Spanned.{AreSpanned};
ghost use Rattle.round_prop.specs.declared.note.Note.{Note};

use crate::found::Found;
use crate::noted::{conflict_in, imply_all};
use crate::table::Table;
use crate::walk::gather;
use clause_pool::{Pool, Steps};
use lit_base::Name;
use std::sync::ledger::Ledger;
use trail_book::Trail;

/// Rounds to a conflict or a fixed point: at most one more than there are variables. The first `seen` entries were seen before.
pub(crate) fn run_rounds<L: Ledger>(
    table: &mut Table,
    pool: &Pool,
    trail: &mut Trail,
    seen: usize,
    steps: &mut Steps<L>,
) -> Found
    requires ready { IsReady (length trail.old.saved) (clauses_of pool.now.held) trail.old.entries (oldest seen trail.old.entries) table.old }
    requires seen { seen ≤ length trail.old.entries }
    requires spanned { AreSpanned pool.now.added table.old.rows.items }
    requires within { All (λ c. All (IsWithin (length trail.old.saved)) c.lits) (clauses_of pool.now.held) }
    ensures trail { trail.new ≡ record trail.old { entries = (propagate (length trail.old.saved) (clauses_of pool.now.held) trail.old.entries).trail } }
    ensures found { result ≡ found_of (propagate (length trail.old.saved) (clauses_of pool.now.held) trail.old.entries).conflict }
    ensures ready { IsReady (length trail.old.saved) (clauses_of pool.now.held) trail.new.entries trail.new.entries table.new }
    ensures rows { HaveSameRows table.old table.new }
    ensures steps { steps.old ≤ steps.new }
    ensures few { (newer : List Entry) → trail.new.entries ≡ newer ++ oldest seen trail.old.entries → steps.new ≤ steps.old + pairs_of (clauses_of pool.now.held) newer }
{
    // for the checker alone: that the pool's clauses stand in order and are found, which its volume tells
    let _ = pool.volume();
    let most = u64::from(trail.variables()) + 1;
    let mut from = seen;
    for _ in 0..most {
        let len = trail.len();
        let conflict = run_round(table, pool, trail, from, steps);
        if is_last(conflict, len, trail.len()) {
            return found(conflict);
        }
        from = len;
    }
    found(meet(table, pool, trail, from, steps))
}

/// Whether a round is the last: it met a conflict, or left the trail as long as it was.
fn is_last(conflict: Option<Name>, seen: usize, len: usize) -> bool
    ensures { result ≡ (is_some conflict || (len == seen)) }
{
    conflict.is_some() || len == seen
}

/// What is found, from the name of the conflict.
fn found(conflict: Option<Name>) -> Found
    ensures { result ≡ found_of conflict }
{
    match conflict {
        Some(name) => Found::Conflict(name),
        None => Found::Fix,
    }
}

/// One round: the least name of a falsified clause, or else all units are implied.
fn run_round<L: Ledger>(
    table: &mut Table,
    pool: &Pool,
    trail: &mut Trail,
    seen: usize,
    steps: &mut Steps<L>,
) -> Option<Name>
    requires ready { IsReady (length trail.old.saved) (clauses_of pool.now.held) trail.old.entries (oldest seen trail.old.entries) table.old }
    requires seen { seen ≤ length trail.old.entries }
    requires spanned { AreSpanned pool.now.added table.old.rows.items }
    requires within { All (λ c. All (IsWithin (length trail.old.saved)) c.lits) (clauses_of pool.now.held) }
    requires finds { FindsAll (lits_at (clauses_of pool.now.held)) (clauses_of pool.now.held) }
    requires rising { AreRisingBy (λ (c : NamedClause). c.name) (clauses_of pool.now.held) }
    ensures conflict { result ≡ (round (clauses_of pool.now.held) trail.old.entries).conflict }
    ensures trail { trail.new ≡ record trail.old { entries = (round (clauses_of pool.now.held) trail.old.entries).trail } }
    ensures ready { IsReady (length trail.old.saved) (clauses_of pool.now.held) trail.new.entries trail.old.entries table.new }
    ensures same { HaveSameRows table.old table.new }
    ensures steps { steps.old ≤ steps.new }
    ensures few { steps.new + pairs_of (clauses_of pool.now.held) (oldest seen trail.old.entries) ≤ steps.old + pairs_of (clauses_of pool.now.held) trail.old.entries }
{
    let conflict = meet(table, pool, trail, seen, steps);
    if conflict.is_some() {
        return conflict;
    }
    settle(table, trail);
    None
}

/// The least name of a clause that is falsified on the trail; where there is none, the notes are the units by name.
fn meet<L: Ledger>(
    table: &mut Table,
    pool: &Pool,
    trail: &Trail,
    seen: usize,
    steps: &mut Steps<L>,
) -> Option<Name>
    requires ready { IsReady (length trail.now.saved) (clauses_of pool.now.held) trail.now.entries (oldest seen trail.now.entries) table.old }
    requires seen { seen ≤ length trail.now.entries }
    requires spanned { AreSpanned pool.now.added table.old.rows.items }
    requires within { All (λ c. All (IsWithin (length trail.now.saved)) c.lits) (clauses_of pool.now.held) }
    requires finds { FindsAll (lits_at (clauses_of pool.now.held)) (clauses_of pool.now.held) }
    requires rising { AreRisingBy (λ (c : NamedClause). c.name) (clauses_of pool.now.held) }
    ensures conflict { result ≡ conflict_of trail.now.entries (clauses_of pool.now.held) }
    ensures units { IfNone result (with_noted table.new.noted.notes.items trail.now.entries ≡ with_units trail.now.entries (clauses_of pool.now.held) trail.now.entries) }
    ensures within { AllByRecursion (λ (n : Note). IfSome n.lit (λ l. l.variable ≤ length trail.now.saved)) table.new.noted.notes.items }
    ensures ready { IsReady (length trail.now.saved) (clauses_of pool.now.held) trail.now.entries trail.now.entries table.new }
    ensures same { HaveSameRows table.old table.new }
    ensures steps { steps.old ≤ steps.new }
    ensures few { steps.new + pairs_of (clauses_of pool.now.held) (oldest seen trail.now.entries) ≤ steps.old + pairs_of (clauses_of pool.now.held) trail.now.entries }
{
    gather(table, pool, trail, seen, steps);
    table.noted.order();
    conflict_in(&table.noted.notes, trail)
}

/// Implies the literals of the notes, each where it is free, and keeps the notes of the clauses that are falsified by that.
fn settle(table: &mut Table, trail: &mut Trail)
    requires { AllByRecursion (λ (n : Note). IfSome n.lit (λ l. l.variable ≤ length trail.old.saved)) table.old.noted.notes.items }
    ensures trail { trail.new ≡ record trail.old { entries = with_noted table.old.noted.notes.items trail.old.entries } }
    ensures ready { (variables : ℕ) (clauses : List NamedClause) → FindsAll (lits_at clauses) clauses → IsReady variables clauses trail.old.entries trail.old.entries table.old →
        IsReady variables clauses trail.new.entries trail.old.entries table.new }
    ensures same { HaveSameRows table.old table.new }
{
    imply_all(&table.noted.notes, trail);
    // for the checker alone: that the trail is over distinct variables
    let _ = trail.len();
    table.noted.keep_lost(trail);
}
