//! The walk over the nodes of each literal that has become false.
ghost use Rattle.std.specs.Prelude.{◌≡◌, ◌+◌, ◌*◌, ◌≤◌, ℕ, All, List, length, vec_capacity, if◌then◌else◌};
ghost use Rattle.lit_base.specs.Literal.{IsWithin};
ghost use Rattle.lit_base.specs.Held.{clauses_of};
ghost use Rattle.lit_base.specs.declared.trail.Entry.{Entry};
ghost use Rattle.lit_base.specs.declared.name.Name.{Name};
ghost use Rattle.round_prop.specs.Linked.{place_in, IsStep};
ghost use Rattle.round_prop.specs.Noting.{AreFlagged, HasMoreNotes, IsNoted, load_of};
ghost use Rattle.round_prop.specs.Pairs.{occurrences_of, pairs_of};
ghost use Rattle.round_prop.specs.Readied.{row_names, flip, oldest, AreNamedApart, HaveSameRows, IsTable};
ghost use Rattle.round_prop.specs.Spanned.{AreSpanned};
ghost use Rattle.round_prop.specs.Walking.{IsWalk, IsInWalk, MayWalk};

use crate::clause::place;
use crate::links::NO_NODE;
use crate::table::Table;
use crate::visit::visit;
use clause_pool::{Pool, Steps};
use lit_base::Lit;
use std::sync::ledger::Ledger;
use trail_book::Trail;

/// Walks over the lists of all literals that the entries from a place on have made false; so each clause that needs it is
/// noted or linked anew.
pub(crate) fn gather<L: Ledger>(
    table: &mut Table,
    pool: &Pool,
    trail: &Trail,
    seen: usize,
    steps: &mut Steps<L>,
)
    requires table { IsTable (clauses_of pool.now.held) trail.now.entries (oldest seen trail.now.entries) table.old }
    requires seen { seen ≤ length trail.now.entries }
    requires wide { length table.old.links.heads.items ≡ 2 * length trail.now.saved + 2 }
    requires within { All (λ c. All (IsWithin (length trail.now.saved)) c.lits) (clauses_of pool.now.held) }
    requires spanned { AreSpanned pool.now.added table.old.rows.items }
    requires room { load_of table.old.noted.notes.items table.old.noted.flags.items ≤ vec_capacity table.old.noted.notes }
    ensures table { IsTable (clauses_of pool.now.held) trail.now.entries trail.now.entries table.new }
    ensures same { HaveSameRows table.old table.new }
    ensures noted { (name : Name) → IsNoted table.old.noted.notes.items name → IsNoted table.new.noted.notes.items name }
    ensures steps { steps.old ≤ steps.new }
    ensures few { AreNamedApart (row_names table.old.rows.items) →
        steps.new + pairs_of (clauses_of pool.now.held) (oldest seen trail.now.entries) ≤ steps.old + pairs_of (clauses_of pool.now.held) trail.now.entries }
{
    for place in seen..trail.len() {
        walk(table, pool, trail, trail.entry(place).lit.negated(), steps);
    }
}

/// Walks over the list of a literal that has become false.
fn walk<L: Ledger>(table: &mut Table, pool: &Pool, trail: &Trail, own: Lit, steps: &mut Steps<L>)
    requires walk { MayWalk (clauses_of pool.now.held) trail.now.entries own table.old }
    requires own { IsWithin (length trail.now.saved) own }
    requires wide { length table.old.links.heads.items ≡ 2 * length trail.now.saved + 2 }
    requires within { All (λ c. All (IsWithin (length trail.now.saved)) c.lits) (clauses_of pool.now.held) }
    requires spanned { AreSpanned pool.now.added table.old.rows.items }
    requires room { load_of table.old.noted.notes.items table.old.noted.flags.items ≤ vec_capacity table.old.noted.notes }
    ensures table { (done next : List Entry) → IsStep trail.now.entries done next own → IsTable (clauses_of pool.now.held) trail.now.entries done table.old →
        IsTable (clauses_of pool.now.held) trail.now.entries next table.new }
    ensures same { HaveSameRows table.old table.new }
    ensures noted { (name : Name) → IsNoted table.old.noted.notes.items name → IsNoted table.new.noted.notes.items name }
    ensures steps { steps.old ≤ steps.new }
    ensures few { AreNamedApart (row_names table.old.rows.items) → steps.new ≤ steps.old + occurrences_of own (clauses_of pool.now.held) }
{
    let since = place(trail, own);
    let mut last = NO_NODE;
    for _ in 0..table.links.nodes.len() {
        if !step(table, pool, trail, own, since, &mut last, steps) {
            return;
        }
    }
}

/// Looks at the clause of the node behind `last`, the last node of a literal's list that was met and stays; answers whether
/// there was one. Where its link says so, the node leaves for another list. `since` is the place of the literal.
fn step<L: Ledger>(
    table: &mut Table,
    pool: &Pool,
    trail: &Trail,
    own: Lit,
    since: u32,
    last: &mut u32,
    steps: &mut Steps<L>,
) -> bool
    requires since { since ≡ place_in trail.now.entries own }
    requires walk { IsInWalk (clauses_of pool.now.held) trail.now.entries own last.old table.old }
    requires flags { length table.old.noted.flags.items ≡ length table.old.rows.items }
    requires own { own.variable ≤ length trail.now.saved }
    requires wide { length table.old.links.heads.items ≡ 2 * length trail.now.saved + 2 }
    requires within { All (λ c. All (IsWithin (length trail.now.saved)) c.lits) (clauses_of pool.now.held) }
    requires spanned { AreSpanned pool.now.added table.old.rows.items }
    requires room { load_of table.old.noted.notes.items table.old.noted.flags.items ≤ vec_capacity table.old.noted.notes }
    ensures walk { (done next : List Entry) (left most : ℕ) → IsStep trail.now.entries done next own →
        AreFlagged (row_names table.old.rows.items) table.old.noted.flags.items table.old.noted.notes.items →
        IsWalk (clauses_of pool.now.held) trail.now.entries done next own (left + 1) steps.old most last.old table.old →
        IsWalk (clauses_of pool.now.held) trail.now.entries done next own (if result then left else 0) steps.new most last.new table.new }
    ensures notes { HasMoreNotes trail.now.entries (clauses_of pool.now.held) (row_names table.old.rows.items) table.old.noted table.new.noted }
    ensures same { HaveSameRows table.old table.new }
    ensures steps { steps.old ≤ steps.new }
{
    let list = own.index();
    let Some(node) = table.links.behind(list, *last) else {
        return false;
    };
    let other = table.links.nodes[flip(node)].lit;
    let link = visit(
        &table.rows,
        &mut table.noted,
        pool,
        trail,
        node / 2,
        own,
        since,
        other,
        steps,
    );
    if link == own {
        *last = node;
        return true;
    }
    table.links.unlink(list, *last, node);
    table.links.put(link.index(), node, link);
    true
}

/// The other node of a node's row.
fn flip(node: u32) -> usize
    ensures { result ≡ flip node }
{
    let node = node as usize;
    if node % 2 == 0 { node + 1 } else { node - 1 }
}
