//! A look at a clause one of whose links has become false.
ghost use Rattle.std.specs.Prelude.{◌≡◌, ◌+◌, ◌≤◌, ◌<◌, Some, List, length, slice_get, vec_capacity};
ghost use Rattle.lit_base.specs.Held.{clauses_of};
ghost use Rattle.lit_base.specs.declared.trail.Entry.{Entry};
ghost use Rattle.lit_base.specs.declared.name.Name.{Name};
ghost use Rattle.round_prop.specs.Linked.{place_in, IsStep};
ghost use Rattle.round_prop.specs.Noting.{AreFlagged, HasMoreNotes, load_of};
ghost use Rattle.round_prop.specs.Readied.{row_names, IsRow};
ghost use Rattle.round_prop.specs.Spanned.{AreSpanned};
ghost use Rattle.round_prop.specs.Walking.{HasPair};

use crate::clause::{latest, other_link, place};
use crate::noted::Noted;
use crate::row::{Row, lits_of};
use clause_pool::{Pool, Steps};
use lit_base::Lit;
use std::sync::ledger::Ledger;
use trail_book::Trail;

/// Looks at the clause of a row whose link `own` has become false, and gives the literal that takes its place: one that isn't
/// false, else the one that became false last, which may be `own`; then the clause is noted. `other` is its other link.
///
/// `since` is the place of `own`. Where `other` was true before, nothing is read (as in MiniSat: Eén and Sörensson 2003):
/// of all literals, only true ones stand below a place.
pub(crate) fn visit<L: Ledger>(
    rows: &[Row],
    noted: &mut Noted,
    pool: &Pool,
    trail: &Trail,
    row: u32,
    own: Lit,
    since: u32,
    other: Lit,
    steps: &mut Steps<L>,
) -> Lit
    requires since { since ≡ place_in trail.now.entries own }
    requires row { row < length rows.now }
    requires flags { length noted.old.flags.items ≡ length rows.now }
    requires room { load_of noted.old.notes.items noted.old.flags.items ≤ vec_capacity noted.old.notes }
    requires spanned { AreSpanned pool.now.added rows.now }
    requires pair { (name : Name) → slice_get (row_names rows.now) row ≡ Some name → HasPair (clauses_of pool.now.held) name own other }
    ensures link { (done next : List Entry) (name : Name) → slice_get (row_names rows.now) row ≡ Some name → IsStep trail.now.entries done next own →
        AreFlagged (row_names rows.now) noted.old.flags.items noted.old.notes.items →
        IsRow (clauses_of pool.now.held) trail.now.entries done noted.old.notes.items name own other →
        IsRow (clauses_of pool.now.held) trail.now.entries next noted.new.notes.items name result other }
    ensures pair { (name : Name) → slice_get (row_names rows.now) row ≡ Some name → HasPair (clauses_of pool.now.held) name result other }
    ensures notes { HasMoreNotes trail.now.entries (clauses_of pool.now.held) (row_names rows.now) noted.old noted.new }
    ensures steps { steps.old ≤ steps.new }
    ensures few { steps.new ≤ steps.old + 1 }
{
    if trail.standing(other) < since {
        return own;
    }
    let here = rows[row as usize];
    let lits = lits_of(pool, here, steps);
    if let Some(lit) = other_link(trail, lits, other) {
        return lit;
    }
    let last = latest(trail, lits, own, other);
    if since < place(trail, last) {
        return last;
    }
    noted.add(here.name, other, row);
    own
}
