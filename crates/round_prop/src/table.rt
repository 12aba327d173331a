ghost use Rattle.std.specs.Prelude.{◌≡◌, ◌+◌, ◌*◌, ◌<◌, ◌≤◌, ℕ, [], ◌∷◌, ◌++◌, List, All, IfOk, Some, None, Option, true, false, length, vec_len, vec_capacity};
ghost use Rattle.std.specs.List.{IsDistinct};
ghost use Rattle.lit_base.specs.Literal.{Literal, same};
ghost use Rattle.lit_base.specs.Named.{lits_at};
ghost use Rattle.lit_base.specs.Rounds.{NamedClause};
ghost use Rattle.lit_base.specs.Quiet.{IsOneOf};
ghost use Rattle.lit_base.specs.declared.trail.Entry.{Entry};
ghost use Rattle.lit_base.specs.declared.name.Name.{Name};
ghost use Rattle.trail_book.specs.Arrays.{index_of};
ghost use Rattle.round_prop.specs.Chains.{no_node, lits_of};
ghost use Rattle.round_prop.specs.Linked.{IsBeside};
ghost use Rattle.round_prop.specs.Noting.{HasNote, IsNoted, IsNoteOf, load_of};
ghost use Rattle.round_prop.specs.Readied.{IsRow, AreSized, IsTable, IsReady, IsRoomKept};

use crate::clause::{is_false, latest, other_link};
use crate::links::Links;
use crate::note::Note;
use crate::noted::Noted;
use crate::row::Row;
use lit_base::{Lit, NoMemory};
use std::alloc::Global;
use trail_book::Trail;

/// Clauses of two literals or more, a row for each, with its links and its notes.
#[derive(Drop)]
pub(crate) struct Table {
    pub(crate) rows: Vec<Row>,
    pub(crate) links: Links,
    pub(crate) noted: Noted,
}

impl Table {
    /// No row, and an empty list for each literal of so many variables.
    pub(crate) fn make(alloc: Global, variables: u32) -> Result<Table, NoMemory>
        ensures ready { IfOk result (λ t. IsReady variables [] [] [] t) }
        ensures empty { IfOk result (λ t. (t.rows.items ≡ []) × (t.noted.notes.items ≡ [])) }
    {
        let count = 2 * variables as usize + 2;
        Ok(Table {
            rows: Vec::new(alloc),
            links: Links {
                heads: vec![in alloc; u32::MAX; count]?,
                nodes: Vec::new(alloc),
            },
            noted: Noted {
                notes: Vec::new(alloc),
                flags: Vec::new(alloc),
            },
        })
    }

    /// A row more, linked by two literals, with its flag; all in reserved room.
    pub(crate) fn link(&mut self, row: Row, a: Lit, b: Lit, flag: bool)
        requires sized { AreSized self.old }
        requires rows { vec_len self.old.rows < vec_capacity self.old.rows }
        requires nodes { vec_len self.old.links.nodes + 2 ≤ vec_capacity self.old.links.nodes }
        requires flags { vec_len self.old.noted.flags < vec_capacity self.old.noted.flags }
        requires few { vec_len self.old.links.nodes + 2 ≤ no_node }
        requires first { index_of a < vec_len self.old.links.heads }
        requires second { index_of b < vec_len self.old.links.heads }
        ensures table { (clauses : List NamedClause) (trail done : List Entry) → IsTable clauses trail done self.old →
            IsRow clauses trail done self.old.noted.notes.items row.name a b →
            (flag ≡ true → HasNote self.old.noted.notes.items (length self.old.rows.items) row.name) → IsTable clauses trail done self.new }
        ensures rows { self.new.rows.items ≡ self.old.rows.items ++ row ∷ [] }
        ensures flags { self.new.noted.flags.items ≡ self.old.noted.flags.items ++ flag ∷ [] }
        ensures lits { lits_of self.new.links.nodes.items ≡ lits_of self.old.links.nodes.items ++ a ∷ b ∷ [] }
        ensures notes { self.new.noted.notes ≡ self.old.noted.notes }
        ensures room { IsRoomKept self.old self.new }
    {
        self.rows.push_reserved(row);
        self.noted.flags.push_reserved(flag);
        self.links.add(a);
        self.links.add(b);
    }

    /// A clause of two or more literals is linked for the first time, and noted where the trail leaves it unit or falsified.
    pub(crate) fn link_first(&mut self, trail: &Trail, row: Row, lits: &[Lit])
        requires sized { AreSized self.old }
        requires rows { vec_len self.old.rows < vec_capacity self.old.rows }
        requires nodes { vec_len self.old.links.nodes + 2 ≤ vec_capacity self.old.links.nodes }
        requires flags { vec_len self.old.noted.flags < vec_capacity self.old.noted.flags }
        requires few { vec_len self.old.links.nodes + 2 ≤ no_node }
        requires two { 2 ≤ length lits.now }
        requires distinct { IsDistinct same lits.now }
        requires within { All (λ l. index_of l < vec_len self.old.links.heads) lits.now }
        requires note { vec_len self.old.noted.notes < vec_capacity self.old.noted.notes }
        ensures table { (clauses : List NamedClause) (done : List Entry) → IsTable clauses trail.now.entries done self.old →
            lits_at clauses row.name ≡ Some lits.now → IsTable clauses trail.now.entries done self.new }
        ensures rows { self.new.rows.items ≡ self.old.rows.items ++ row ∷ [] }
        ensures notes { (name : Name) → IsNoted self.old.noted.notes.items name → IsNoted self.new.noted.notes.items name }
        ensures load { load_of self.new.noted.notes.items self.new.noted.flags.items ≡ load_of self.old.noted.notes.items self.old.noted.flags.items + 1 }
        ensures room { IsRoomKept self.old self.new }
    {
        // for the checker alone: that the trail is over distinct variables
        let _ = trail.len();
        let a = beside(trail, lits, lits[1], lits[0]);
        let b = beside(trail, lits, lits[0], a);
        if is_false(trail, b) {
            self.link_noted(row, a, b, a);
            return;
        }
        if is_false(trail, a) {
            self.link_noted(row, a, b, b);
            return;
        }
        self.link(row, a, b, false);
    }

    /// The same as `link`, with a note of the row: all literals of its clause but `lit` are false.
    fn link_noted(&mut self, row: Row, a: Lit, b: Lit, lit: Lit)
        requires sized { AreSized self.old }
        requires rows { vec_len self.old.rows < vec_capacity self.old.rows }
        requires nodes { vec_len self.old.links.nodes + 2 ≤ vec_capacity self.old.links.nodes }
        requires flags { vec_len self.old.noted.flags < vec_capacity self.old.noted.flags }
        requires few { vec_len self.old.links.nodes + 2 ≤ no_node }
        requires first { index_of a < vec_len self.old.links.heads }
        requires second { index_of b < vec_len self.old.links.heads }
        requires note { vec_len self.old.noted.notes < vec_capacity self.old.noted.notes }
        ensures table { (clauses : List NamedClause) (trail done : List Entry) → IsTable clauses trail done self.old →
            IsRow clauses trail done self.new.noted.notes.items row.name a b →
            IsNoteOf trail clauses (record { name = row.name; lit = Some lit; row = length self.old.rows.items }) → IsTable clauses trail done self.new }
        ensures rows { self.new.rows.items ≡ self.old.rows.items ++ row ∷ [] }
        ensures notes { self.new.noted.notes.items ≡ self.old.noted.notes.items ++ (record { name = row.name; lit = Some lit; row = length self.old.rows.items }) ∷ [] }
        ensures flags { self.new.noted.flags.items ≡ self.old.noted.flags.items ++ true ∷ [] }
        ensures room { IsRoomKept self.old self.new }
    {
        self.noted.notes.push_reserved(Note {
            name: row.name,
            lit: Some(lit),
            row: self.rows.len() as u32,
        });
        self.link(row, a, b, true);
    }
}

/// A literal of the clause beside another one: one that isn't false, else the one that became false last. `first` is any.
fn beside(trail: &Trail, lits: &[Lit], first: Lit, other: Lit) -> Lit
    requires held { IsOneOf lits.now first }
    requires apart { same first other ≡ false }
    ensures { IsBeside trail.now.entries lits.now other result }
{
    if let Some(lit) = other_link(trail, lits, other) {
        return lit;
    }
    latest(trail, lits, first, other)
}
