//! How propagation begins: fresh clauses are read, and linked or put aside.
ghost use Rattle.std.specs.Prelude.{◌≡◌, ◌≤◌, ◌<◌, ◌+◌, ℕ, [], ◌∷◌, ◌++◌, List, IsTrue, Some, All, length, reverse, map, vec_len, vec_capacity};
ghost use Rattle.lit_base.specs.Literal.{IsWithin};
ghost use Rattle.lit_base.specs.Held.{clauses_of};
ghost use Rattle.lit_base.specs.Rounds.{NamedClause};
ghost use Rattle.lit_base.specs.Named.{lits_at};
ghost use Rattle.lit_base.specs.declared.trail.Entry.{Entry};
ghost use Rattle.lit_base.specs.declared.name.Name.{Name};
ghost use Rattle.round_prop.specs.Attached.{AreAttachedIn, AreRoomy};
ghost use Rattle.round_prop.specs.Noting.{IsNoted, load_of};
ghost use Rattle.round_prop.specs.FreshClauses.{fresh_names};
ghost use Rattle.round_prop.specs.Spanned.{AreSpanned};
ghost use Rattle.round_prop.specs.Shorts.{short_lits, note_of_short};

use crate::fresh::Fresh;
use crate::note::Note;
use crate::noted::Noted;
use crate::row::{find_row, lits_of};
use crate::short::Short;
use crate::table::Table;
use clause_pool::{Pool, Steps};
use lit_base::{Lit, Name};
use std::sync::ledger::Ledger;
use trail_book::Trail;

/// The list of fresh clauses keeps room for up to so many from one propagation to the next.
const MOST_ROOM: usize = 1024;

/// Reads each fresh clause once, and links it or puts it aside; after it none is fresh.
pub(crate) fn begin_fresh<L: Ledger>(
    table: &mut Table,
    shorts: &mut Vec<Short>,
    fresh: &mut Vec<Fresh>,
    pool: &Pool,
    trail: &Trail,
    steps: &mut Steps<L>,
)
    requires attached { (done : List Entry) × AreAttachedIn (clauses_of pool.now.held) trail.now.entries done table.old shorts.old.items (fresh_names fresh.old.items) }
    requires roomy { AreRoomy (length trail.now.saved) table.old (vec_len shorts.old) (vec_capacity shorts.old) (vec_len fresh.old) }
    requires within { All (λ c. All (IsWithin (length trail.now.saved)) c.lits) (clauses_of pool.now.held) }
    ensures attached { (done : List Entry) → AreAttachedIn (clauses_of pool.now.held) trail.now.entries done table.old shorts.old.items (fresh_names fresh.old.items) →
        AreAttachedIn (clauses_of pool.now.held) trail.now.entries done table.new shorts.new.items [] }
    ensures roomy { AreRoomy (length trail.now.saved) table.new (vec_len shorts.new) (vec_capacity shorts.new) 0 }
    ensures spanned { AreSpanned pool.now.added table.old.rows.items → AreSpanned pool.now.added table.new.rows.items }
    ensures none { fresh.new.items ≡ [] }
    ensures steps { steps.new ≡ steps.old + vec_len fresh.old }
{
    while let Some(next) = fresh.pop() {
        begin(table, shorts, pool, trail, next.name, steps);
    }
    give_back(fresh);
}

/// Gives back the room of very many fresh clauses: so many come at once only with the formula.
fn give_back(fresh: &mut Vec<Fresh>)
    ensures { fresh.new.items ≡ fresh.old.items }
{
    if fresh.capacity() > MOST_ROOM {
        fresh.shrink_to_fit();
    }
}

/// Reads a clause, and links it or puts it aside.
fn begin<L: Ledger>(
    table: &mut Table,
    shorts: &mut Vec<Short>,
    pool: &Pool,
    trail: &Trail,
    name: Name,
    steps: &mut Steps<L>,
)
    requires attached { (done : List Entry) × (fresh : List Name) × AreAttachedIn (clauses_of pool.now.held) trail.now.entries done table.old shorts.old.items (name ∷ fresh) }
    requires roomy { (fresh : ℕ) × AreRoomy (length trail.now.saved) table.old (vec_len shorts.old) (vec_capacity shorts.old) (fresh + 1) }
    requires within { All (λ c. All (IsWithin (length trail.now.saved)) c.lits) (clauses_of pool.now.held) }
    ensures attached { (done : List Entry) (fresh : List Name) →
        AreAttachedIn (clauses_of pool.now.held) trail.now.entries done table.old shorts.old.items (name ∷ fresh) →
        AreAttachedIn (clauses_of pool.now.held) trail.now.entries done table.new shorts.new.items fresh }
    ensures roomy { (fresh : ℕ) → AreRoomy (length trail.now.saved) table.old (vec_len shorts.old) (vec_capacity shorts.old) (fresh + 1) →
        AreRoomy (length trail.now.saved) table.new (vec_len shorts.new) (vec_capacity shorts.new) fresh }
    ensures spanned { AreSpanned pool.now.added table.old.rows.items → AreSpanned pool.now.added table.new.rows.items }
    ensures steps { steps.new ≡ steps.old + 1 }
{
    // for the checker alone: that the literals of each clause are distinct, which the pool's volume tells
    let _ = pool.volume();
    let row = find_row(pool, name);
    let lits = lits_of(pool, row, steps);
    if lits.len() < 2 {
        put_aside(table, shorts, name, only(lits));
        return;
    }
    table.link_first(trail, row, lits);
}

/// The literal of a short clause; None of the empty one.
fn only(lits: &[Lit]) -> Option<Lit>
    requires { length lits.now ≤ 1 }
    ensures { short_lits result ≡ lits.now }
{
    lits.first().copied()
}

/// Puts a clause of one literal or none aside, and notes it.
fn put_aside(table: &mut Table, shorts: &mut Vec<Short>, name: Name, lit: Option<Lit>)
    requires shorts { vec_len shorts.old < vec_capacity shorts.old }
    requires notes { vec_len table.old.noted.notes < vec_capacity table.old.noted.notes }
    ensures shorts { shorts.new.items ≡ shorts.old.items ++ record { name = name; lit = lit } ∷ [] }
    ensures shorts_room { vec_capacity shorts.new ≡ vec_capacity shorts.old }
    ensures notes { table.new.noted.notes.items ≡ table.old.noted.notes.items ++ note_of_short (record { name = name; lit = lit }) ∷ [] }
    ensures notes_room { vec_capacity table.new.noted.notes ≡ vec_capacity table.old.noted.notes }
    ensures rows { table.new.rows ≡ table.old.rows }
    ensures links { table.new.links ≡ table.old.links }
    ensures flags { table.new.noted.flags ≡ table.old.noted.flags }
{
    let short = Short { name, lit };
    note_short(&mut table.noted, &short);
    shorts.push_reserved(short);
}

/// Notes the short clauses where no entry is left.
pub(crate) fn note_anew(noted: &mut Noted, shorts: &[Short], left: usize)
    requires { vec_len noted.old.notes + length shorts.now ≤ vec_capacity noted.old.notes }
    ensures empty { left ≡ 0 → noted.new.notes.items ≡ noted.old.notes.items ++ map note_of_short shorts.now }
    ensures some { 0 < left → noted.new.notes.items ≡ noted.old.notes.items }
    ensures flags { noted.new.flags ≡ noted.old.flags }
    ensures room { vec_capacity noted.new.notes ≡ vec_capacity noted.old.notes }
{
    if left > 0 {
        return;
    }
    note_shorts(noted, shorts);
}

/// Notes each short clause.
fn note_shorts(noted: &mut Noted, shorts: &[Short])
    requires { vec_len noted.old.notes + length shorts.now ≤ vec_capacity noted.old.notes }
    ensures notes { noted.new.notes.items ≡ noted.old.notes.items ++ map note_of_short shorts.now }
    ensures flags { noted.new.flags ≡ noted.old.flags }
    ensures room { vec_capacity noted.new.notes ≡ vec_capacity noted.old.notes }
{
    for short in shorts {
        note_short(noted, short);
    }
}

/// Notes a short clause, which may be unit or falsified.
fn note_short(noted: &mut Noted, short: &Short)
    requires { vec_len noted.old.notes < vec_capacity noted.old.notes }
    ensures notes { noted.new.notes.items ≡ noted.old.notes.items ++ note_of_short short.now ∷ [] }
    ensures flags { noted.new.flags ≡ noted.old.flags }
    ensures room { vec_capacity noted.new.notes ≡ vec_capacity noted.old.notes }
{
    noted.notes.push_reserved(Note {
        name: short.name,
        lit: short.lit,
        row: u32::MAX,
    });
}
