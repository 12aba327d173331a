//! How clauses are taken out of a table.
ghost use Rattle.std.specs.Prelude.{◌≡◌, ◌≤◌, ◌<◌, ◌+◌, ◌*◌, ℕ, Bool, List, All, Some, false, length, map, set, take, slice_get, vec_len};
ghost use Rattle.lit_base.specs.Held.{is_among, clauses_without};
ghost use Rattle.lit_base.specs.Rounds.{NamedClause};
ghost use Rattle.lit_base.specs.declared.trail.Entry.{Entry};
ghost use Rattle.lit_base.specs.declared.name.Name.{Name};
ghost use Rattle.trail_book.specs.Arrays.{index_of};
ghost use Rattle.round_prop.specs.Chains.{no_node};
ghost use Rattle.round_prop.specs.Noting.{IsNoted, load_of};
ghost use Rattle.round_prop.specs.Readied.{row_names, AreSized, IsTable, AreNamedApart, IsRoomKept};
ghost use Rattle.round_prop.specs.Removal.{kept_rows, kept_items, kept_pairs, row_of, placed, name_at, numbers_from, IsIndexOf};
ghost use Rattle.round_prop.specs.declared.node.Node.{Node};
ghost use Rattle.round_prop.specs.declared.row.Row.{Row};

use crate::note::Note;
use crate::row::Row;
use crate::table::Table;
use lit_base::Name;

/// The most numbers of 32 bits that an index has.
const MOST_NUMBERS: usize = 4_294_967_295;

/// Whether the name is one of these.
pub(crate) fn is_among(names: &[Name], name: Name) -> bool
    ensures { result ≡ is_among names.now name }
{
    names.iter().any(|other| *other == name)
}

impl Table {
    /// Takes out the rows of these names, with what is noted under them, and threads the others anew.
    pub(crate) fn remove(&mut self, names: &[Name])
        requires sized { AreSized self.old }
        requires few { vec_len self.old.links.nodes ≤ no_node }
        requires begun { 0 < vec_len self.old.links.heads }
        requires wide { All (λ n. index_of n.lit < vec_len self.old.links.heads) self.old.links.nodes.items }
        requires apart { AreNamedApart (row_names self.old.rows.items) }
        ensures table { (clauses : List NamedClause) (trail done : List Entry) → IsTable clauses trail done self.old →
            IsTable (clauses_without names.now clauses) trail done self.new }
        ensures rows { self.new.rows.items ≡ kept_rows names.now self.old.rows.items }
        ensures notes { (name : Name) → is_among names.now name ≡ false → IsNoted self.old.noted.notes.items name →
            IsNoted self.new.noted.notes.items name }
        ensures load { load_of self.new.noted.notes.items self.new.noted.flags.items ≤ load_of self.old.noted.notes.items self.old.noted.flags.items }
        ensures room { IsRoomKept self.old self.new }
    {
        let count = self.rows.len();
        self.noted.notes.retain(|note| !is_among(names, note.name));
        self.keep_rows(names);
        place_notes(&mut self.noted.notes, &self.rows, count);
        self.links.thread();
    }

    /// Lets the rows of these names go; the others keep their order.
    ///
    /// The heads of the lists are written over: they hold the numbers of as many names as they can, in the order of the
    /// names, so that a row's name is found by halving.
    fn keep_rows(&mut self, names: &[Name])
        requires sized { AreSized self.old }
        requires begun { 0 < vec_len self.old.links.heads }
        ensures rows { self.new.rows.items ≡ kept_rows names.now self.old.rows.items }
        ensures flags { self.new.noted.flags.items ≡ kept_items names.now self.old.rows.items self.old.noted.flags.items }
        ensures nodes { self.new.links.nodes.items ≡ kept_pairs names.now self.old.rows.items self.old.links.nodes.items }
        ensures notes { self.new.noted.notes ≡ self.old.noted.notes }
        ensures room { IsRoomKept self.old self.new }
    {
        let mut done = 0;
        while done < names.len() {
            let next = done + part_of(names.len() - done, self.links.heads.len());
            let part = &names[done..next];
            index_names(&mut self.links.heads, part);
            self.keep_indexed(part);
            done = next;
        }
    }

    /// Moves the rows of other names than these to the front, in their order, and cuts the rest off. The names are indexed
    /// by the first heads.
    fn keep_indexed(&mut self, names: &[Name])
        requires sized { AreSized self.old }
        requires room { length names.now ≤ length self.old.links.heads.items }
        requires index { IsIndexOf names.now (take (length names.now) self.old.links.heads.items) }
        ensures rows { self.new.rows.items ≡ kept_rows names.now self.old.rows.items }
        ensures flags { self.new.noted.flags.items ≡ kept_items names.now self.old.rows.items self.old.noted.flags.items }
        ensures nodes { self.new.links.nodes.items ≡ kept_pairs names.now self.old.rows.items self.old.links.nodes.items }
        ensures notes { self.new.noted.notes ≡ self.old.noted.notes }
        ensures room { IsRoomKept self.old self.new }
    {
        let mut kept = 0;
        for row in 0..self.rows.len() {
            if !is_indexed(&self.links.heads[..names.len()], names, self.rows[row].name) {
                self.move_row(row, kept);
                kept += 1;
            }
        }
        self.rows.truncate(kept);
        self.noted.flags.truncate(kept);
        self.links.nodes.truncate(2 * kept);
    }

    /// Writes a row, with its nodes and its flag, over another one.
    fn move_row(&mut self, from: usize, to: usize)
        requires sized { AreSized self.old }
        requires from { from < length self.old.rows.items }
        requires to { to ≤ from }
        ensures rows { (row : Row) → slice_get self.old.rows.items from ≡ Some row → self.new.rows.items ≡ set self.old.rows.items to row }
        ensures flags { (flag : Bool) → slice_get self.old.noted.flags.items from ≡ Some flag →
            self.new.noted.flags.items ≡ set self.old.noted.flags.items to flag }
        ensures nodes { (x y : Node) → slice_get self.old.links.nodes.items (2 * from) ≡ Some x → slice_get self.old.links.nodes.items (2 * from + 1) ≡ Some y →
            self.new.links.nodes.items ≡ set (set self.old.links.nodes.items (2 * to) x) (2 * to + 1) y }
        ensures notes { self.new.noted.notes ≡ self.old.noted.notes }
        ensures heads { self.new.links.heads ≡ self.old.links.heads }
        ensures room { IsRoomKept self.old self.new }
    {
        self.rows[to] = self.rows[from];
        self.noted.flags[to] = self.noted.flags[from];
        self.links.nodes[2 * to] = self.links.nodes[2 * from];
        self.links.nodes[2 * to + 1] = self.links.nodes[2 * from + 1];
    }
}

/// How many of the names that are left are indexed at a time: as many as there is room for.
fn part_of(left: usize, room: usize) -> usize
    ensures left { result ≤ left }
    ensures room { result ≤ room }
    ensures few { result ≤ no_node }
    ensures some { 0 < left → 0 < room → 0 < result }
{
    left.min(room).min(MOST_NUMBERS)
}

/// Writes the numbers of the names in front, in the order of the names.
fn index_names(places: &mut [u32], names: &[Name])
    requires room { length names.now ≤ length places.old }
    requires few { length names.now ≤ no_node }
    ensures { IsIndexOf names.now (take (length names.now) places.new) }
{
    number(places, names.len());
    places[..names.len()].sort_unstable_by_key(|at| name_at(names, *at));
}

/// Writes so many numbers in front, from 0 on.
fn number(places: &mut [u32], count: usize)
    requires room { count ≤ length places.old }
    requires few { count ≤ no_node }
    ensures { take count places.new ≡ numbers_from 0 count }
{
    for at in 0..count {
        places[at] = at as u32;
    }
}

/// The name of this number, and the first original's past the end.
fn name_at(names: &[Name], at: u32) -> Name
    ensures { result ≡ name_at names.now at }
{
    match names.get(at as usize) {
        Some(name) => *name,
        None => Name::original(0),
    }
}

/// Whether the name is one of these, of which this is an index.
fn is_indexed(index: &[u32], names: &[Name], name: Name) -> bool
    requires { IsIndexOf names.now index.now }
    ensures { result ≡ is_among names.now name }
{
    index
        .binary_search_by_key(&name, |at| name_at(names, *at))
        .is_ok()
}

/// Gives each note that was of one of so many rows the row of its name.
fn place_notes(notes: &mut [Note], rows: &[Row], count: usize)
    requires { length rows.now ≤ no_node }
    ensures { notes.new ≡ map (placed rows.now count) notes.old }
{
    for at in 0..notes.len() {
        notes[at] = place(notes[at], rows, count);
    }
}

/// A note that was of one of so many rows gets the row of its name.
fn place(note: Note, rows: &[Row], count: usize) -> Note
    requires { length rows.now ≤ no_node }
    ensures { result ≡ placed rows.now count note }
{
    if note.row as usize >= count {
        return note;
    }
    Note {
        row: row_of(rows, note.name),
        ..note
    }
}

/// The number of the first row of this name, and that of no row where there is none.
fn row_of(rows: &[Row], name: Name) -> u32
    requires { length rows.now ≤ no_node }
    ensures { result ≡ row_of name 0 rows.now }
{
    for at in 0..rows.len() {
        if rows[at].name == name {
            return at as u32;
        }
    }
    u32::MAX
}
