ghost use Rattle.std.specs.Prelude.{◌≡◌, ℕ, true, replicate, slice_get, ◌≤◌, ◌<◌, Option, Some, None, IfSome, length, set, false, [], vec_capacity, if◌then◌else◌};
ghost use Rattle.std.specs.List.{AllByRecursion};
ghost use Rattle.std.specs.List.Sorted.{IsPermutation};
ghost use Rattle.lit_base.specs.Rounds.{with_unit};
ghost use Rattle.lit_base.specs.declared.name.Name.{Name};
ghost use Rattle.round_prop.specs.Noting.{HasNote, IsAdded, load_of, is_lost, lost_notes, flags_after, flags_without, conflict_in, with_noted, AreInOrder};
ghost use Rattle.round_prop.specs.declared.note.Note.{Note};

use crate::clause::is_false;
use crate::note::Note;
use lit_base::{Lit, Name};
use trail_book::Trail;

/// What a round has noted, and which rows of it: each row at most once.
#[derive(Drop)]
pub(crate) struct Noted {
    pub(crate) notes: Vec<Note>,
    pub(crate) flags: Vec<bool>,
}

impl Noted {
    /// Notes the clause of a row, all of whose literals but this one are false, where it isn't noted.
    pub(crate) fn add(&mut self, name: Name, lit: Lit, row: u32)
        requires row { row < length self.old.flags.items }
        requires room { load_of self.old.notes.items self.old.flags.items ≤ vec_capacity self.old.notes }
        ensures added { IsAdded self.old.flags.items self.old.notes.items self.new.flags.items self.new.notes.items (record { name = name; lit = Some lit; row = row }) }
        ensures notes_room { vec_capacity self.new.notes ≡ vec_capacity self.old.notes }
        ensures flags_room { vec_capacity self.new.flags ≡ vec_capacity self.old.flags }
    {
        if self.flags[row as usize] {
            return;
        }
        self.flags[row as usize] = true;
        self.notes.push_reserved(Note {
            name,
            lit: Some(lit),
            row,
        });
    }

    /// Puts the notes in the order of their names.
    pub(crate) fn order(&mut self)
        ensures order { AreInOrder self.new.notes.items }
        ensures same { IsPermutation self.old.notes.items self.new.notes.items }
        ensures room { vec_capacity self.new.notes ≡ vec_capacity self.old.notes }
        ensures flags { self.new.flags ≡ self.old.flags }
    {
        self.notes.sort_unstable_by_key(|note| note.name);
    }

    /// Lets the notes go, but those of clauses that are falsified on the trail.
    pub(crate) fn keep_lost(&mut self, trail: &Trail)
        ensures notes { self.new.notes.items ≡ lost_notes trail.now.entries self.old.notes.items }
        ensures flags { self.new.flags.items ≡ flags_after trail.now.entries self.old.notes.items self.old.flags.items }
        ensures notes_room { vec_capacity self.new.notes ≡ vec_capacity self.old.notes }
        ensures flags_room { vec_capacity self.new.flags ≡ vec_capacity self.old.flags }
    {
        lower_answered(&mut self.flags, &self.notes, trail);
        self.notes.retain(|note| is_lost(trail, note.lit));
    }

    /// Lets all notes go, and lowers the flags, each of which is of one of them.
    pub(crate) fn clear(&mut self)
        requires flagged { (row : ℕ) → slice_get self.old.flags.items row ≡ Some true → (name : Name) × HasNote self.old.notes.items row name }
        ensures notes { self.new.notes.items ≡ [] }
        ensures flags { self.new.flags.items ≡ replicate (length self.old.flags.items) false }
        ensures room { (vec_capacity self.new.notes ≡ vec_capacity self.old.notes) × (vec_capacity self.new.flags ≡ vec_capacity self.old.flags) }
    {
        lower_all(&mut self.flags, &self.notes);
        self.notes.clear();
    }
}

/// Whether all literals of a note's clause are false, where all but this one are.
pub(crate) fn is_lost(trail: &Trail, lit: Option<Lit>) -> bool
    ensures { result ≡ is_lost trail.now.entries lit }
{
    match lit {
        None => true,
        Some(lit) => is_false(trail, lit),
    }
}

/// The name of the first note whose clause is falsified.
pub(crate) fn conflict_in(notes: &[Note], trail: &Trail) -> Option<Name>
    ensures { result ≡ conflict_in trail.now.entries notes.now }
{
    for note in notes {
        if is_lost(trail, note.lit) {
            return Some(note.name);
        }
    }
    None
}

/// Implies the notes' literals in order, each where its variable is still free.
pub(crate) fn imply_all(notes: &[Note], trail: &mut Trail)
    requires { AllByRecursion (λ (n : Note). IfSome n.lit (λ l. l.variable ≤ length trail.old.saved)) notes.now }
    ensures { trail.new ≡ record trail.old { entries = with_noted notes.now trail.old.entries } }
{
    for note in notes {
        imply(note.lit, note.name, trail);
    }
}

/// Implies a literal where its variable is free.
fn imply(lit: Option<Lit>, name: Name, trail: &mut Trail)
    requires { IfSome lit (λ l. l.variable ≤ length trail.old.saved) }
    ensures { trail.new ≡ record trail.old { entries = with_unit name lit trail.old.entries } }
{
    let Some(lit) = lit else {
        return;
    };
    if trail.is_free(lit.var()) {
        trail.imply(lit, name);
    }
}

/// Lowers the flags of the notes whose clauses aren't falsified.
fn lower_answered(flags: &mut [bool], notes: &[Note], trail: &Trail)
    ensures { flags.new ≡ flags_after trail.now.entries notes.now flags.old }
{
    for note in notes {
        lower_unless(flags, is_lost(trail, note.lit), note.row as usize);
    }
}

/// Lowers the flags of all notes.
fn lower_all(flags: &mut [bool], notes: &[Note])
    ensures { flags.new ≡ flags_without notes.now flags.old }
{
    for note in notes {
        lower(flags, note.row as usize);
    }
}

/// Lowers a flag, unless it is to be kept.
fn lower_unless(flags: &mut [bool], kept: bool, row: usize)
    ensures { flags.new ≡ (if kept then flags.old else set flags.old row false) }
{
    if !kept {
        lower(flags, row);
    }
}

/// Lowers a flag, where there is one.
fn lower(flags: &mut [bool], row: usize)
    ensures { flags.new ≡ set flags.old row false }
{
    if row < flags.len() {
        flags[row] = false;
    }
}
