ghost use Rattle.std.specs.Prelude.{◌≡◌, ◌+◌, ◌<◌, ◌≤◌, ◌^◌, ◌==◌, [], ◌∷◌, ◌++◌, length, reverse, map, take, slice_range, vec_capacity, vec_len, option_map, is_some, IsSome, IfOk, Some, OnOk, OnErr};
ghost use Rattle.std.specs.Option.{ForSome};
ghost use Rattle.lit_base.specs.Held.{with_uses, without_names, volume_of};
ghost use Rattle.clause_pool.specs.Arena.{at_place, end_of, literals_in};
ghost use Rattle.clause_pool.specs.Slots.{ends_of, row_names, place_at, unlinked, without_count, counted_at, AreApart};
ghost use Rattle.clause_pool.specs.Links.{IsLinked};
ghost use Rattle.clause_pool.specs.Uses.{cleared};
ghost use Rattle.clause_pool.specs.Spans.{span_at, laid, lits_of};
ghost use Rattle.clause_pool.specs.Tallies.{tallies_but};

use crate::arena::{part, weight_of};
use crate::chains::{begin_chain, find, link_all};
use crate::packing::{flag, pack};
use crate::slot::Slot;
use crate::span::Span;
use crate::tally::{Tally, tallies_of};
use lit_base::{Lit, Name, NoMemory};
use std::alloc::Global;
use std::marker::Model;

/// So many chains there are at first.
const FIRST_CHAINS: usize = 64;

/// Clauses that are found by their name, seen by contracts as their list, the newest first.
///
/// A name leads to the head of its chain and from there to a slot, which has its key. Beside its literals a clause takes
/// the 32 bytes of its slot, one of a flag, and 3 to 6 of heads.
#[derive(Debug, Drop)]
pub(crate) struct Table {
    literals: Vec<Lit>,
    slots: Vec<Slot>,
    flags: Vec<bool>,
    heads: Vec<u32>,
    volume: u64,
}

impl Model for Table {
    ghost use Rattle.std.specs.Prelude.{List, length, reverse};
    ghost use Rattle.lit_base.specs.Held.{HeldClause};

    ghost Value = { List HeldClause };

    ghost use Rattle.clause_pool.specs.Slots.{clauses_in};
    ghost use Rattle.clause_pool.specs.Links.{IsTable};

    ghost view = { λ t. clauses_in t.literals.items (reverse t.slots.items) };

    ghost invariant = { λ t. IsTable t.literals.items (reverse t.slots.items) (length t.flags.items) t.heads.items t.volume };
}

impl Table {
    /// No clauses; takes no memory.
    pub(crate) fn new(alloc: Global) -> Table
        ensures { result ≡ [] }
    {
        Table {
            literals: Vec::new(alloc),
            slots: Vec::new(alloc),
            flags: Vec::new(alloc),
            heads: Vec::new(alloc),
            volume: 0,
        }
    }

    /// Whether there are no clauses.
    pub(crate) fn is_empty(&self) -> bool
        ensures { result ≡ (length self.now == 0) }
    {
        let _ = &self.literals;
        self.slots.is_empty()
    }

    /// The number of lemmas.
    pub(crate) fn volume(&self) -> u64
        ensures { result ≡ volume_of self.now }
    {
        self.volume
    }

    /// The place of the clause with this name.
    pub(crate) fn find(&self, name: Name) -> Option<usize>
        ensures { result ≡ place_at (row_names self.now) name }
    {
        let _ = &self.literals;
        find(&self.heads, &self.slots, name)
    }

    /// The place of the clause with this name, which there is.
    pub(crate) fn place(&self, name: Name) -> usize
        requires { IsSome (place_at (row_names self.now) name) }
        ensures { place_at (row_names self.now) name ≡ Some result }
    {
        self.find(name).unwrap()
    }

    /// Where the literals of the clause at this place stand in those of all, laid end to end.
    pub(crate) fn span(&self, place: usize) -> Span
        requires { place < length self.now }
        ensures value { span_at (lits_of self.now) place ≡ Some result }
        ensures order { result.start ≤ result.end }
        ensures few { result.end < 2 ^ 63 }
    {
        // for the checker alone: a slice has fewer than 2^63
        let _literals: &[Lit] = &self.literals;
        Span {
            start: start_of(&self.slots, place),
            end: self.slots[place].end,
        }
    }

    /// A part of all literals, laid end to end.
    pub(crate) fn part(&self, from: usize, to: usize) -> &[Lit]
        requires order { from ≤ to }
        requires within { to ≤ literals_in (lits_of self.now) }
        ensures { result.now ≡ slice_range (laid (lits_of self.now)) from to }
    {
        let _ = &self.slots;
        part(&self.literals, from, to)
    }

    /// How often the clause at this place was a hint.
    pub(crate) fn uses(&self, place: usize) -> u64
        requires { place < length self.now }
        ensures { option_map (λ c. c.uses) (at_place self.now place) ≡ Some result }
    {
        let _ = &self.literals;
        self.slots[place].uses
    }

    /// The tallies of the lemmas, but of those with these names, the oldest first.
    pub(crate) fn tallies(&self, alloc: Global, but: &[Name]) -> Result<Vec<Tally>, NoMemory>
        requires { AreApart (row_names self.now) }
        ensures { IfOk result (λ tallies. reverse tallies.items ≡ tallies_but but.now self.now) }
    {
        let _ = &self.literals;
        let mut flags = vec![in alloc; false; self.slots.len()]?;
        flag(&self.heads, &self.slots, but, &mut flags);
        tallies_of(alloc, &self.slots, &flags)
    }

    /// Counts a use of the clause at this place.
    pub(crate) fn count_use(&mut self, place: usize)
        requires within { place < length self.old }
        requires fits { ForSome (at_place self.old place) (λ c. c.uses + 1 < 2 ^ 64) }
        ensures { self.new ≡ counted_at place self.old }
    {
        let slot = &mut self.slots[place];
        slot.uses += 1;
    }

    /// Begins to count all uses anew.
    pub(crate) fn clear_uses(&mut self)
        ensures { self.new ≡ cleared self.old }
    {
        clear_counts(&mut self.slots);
    }

    /// Adds a clause. After `NoMemory` the clauses are those from before.
    pub(crate) fn add(&mut self, name: Name, lits: &[Lit]) -> Result<(), NoMemory>
        ensures ok { OnOk result (self.new ≡ record { name = name; lits = lits.now; uses = 0 } ∷ self.old) }
        ensures err { OnErr result (self.new ≡ self.old) }
    {
        make_room(
            &mut self.literals,
            &mut self.slots,
            &mut self.flags,
            lits.len(),
        )?;
        more_chains(&mut self.heads, &mut self.slots)?;
        let end = put_literals(&mut self.literals, lits);
        let link = begin_chain(&mut self.heads, self.slots.len(), name);
        self.slots.push_reserved(Slot {
            name,
            link,
            end,
            uses: 0,
        });
        self.flags.push_reserved(false);
        self.volume += weight_of(name);
        Ok(())
    }

    /// Takes out the clauses with these names, in place: it takes no memory.
    pub(crate) fn drop_names(&mut self, names: &[Name])
        requires { AreApart (row_names self.old) }
        ensures { self.new ≡ without_names names.now self.old }
    {
        flag(&self.heads, &self.slots, names, &mut self.flags);
        self.volume = pack(&mut self.literals, &mut self.slots, &self.flags);
        self.flags.truncate(self.slots.len());
        link_all(&mut self.heads, &mut self.slots);
    }
}

/// Where the literals of a slot begin: where those of the one before it end.
fn start_of(slots: &[Slot], place: usize) -> usize
    requires { place ≤ length slots.now }
    ensures { result ≡ end_of (ends_of (reverse (take place slots.now))) }
{
    if place == 0 { 0 } else { slots[place - 1].end }
}

/// Sets the uses of all slots to 0.
fn clear_counts(slots: &mut [Slot])
    ensures { slots.new ≡ map without_count slots.old }
{
    for slot in slots.iter_mut() {
        slot.uses = 0;
    }
}

/// Makes room for one clause of so many literals.
fn make_room(
    literals: &mut Vec<Lit>,
    slots: &mut Vec<Slot>,
    flags: &mut Vec<bool>,
    count: usize,
) -> Result<(), NoMemory>
    ensures literals { literals.new.items ≡ literals.old.items }
    ensures slots { slots.new.items ≡ slots.old.items }
    ensures flags { flags.new.items ≡ flags.old.items }
    ensures literal_room { OnOk result (length literals.old.items + count ≤ vec_capacity literals.new) }
    ensures slot_room { OnOk result (length slots.old.items < vec_capacity slots.new) }
    ensures flag_room { OnOk result (length flags.old.items < vec_capacity flags.new) }
{
    literals.reserve(count)?;
    slots.reserve(1)?;
    flags.reserve(1)?;
    Ok(())
}

/// Puts the literals of a clause behind those of the arena, which has room, and answers where they end.
fn put_literals(literals: &mut Vec<Lit>, lits: &[Lit]) -> usize
    requires { length literals.old.items + length lits.now ≤ vec_capacity literals.old }
    ensures literals { literals.new.items ≡ literals.old.items ++ lits.now }
    ensures end { result ≡ length literals.old.items + length lits.now }
{
    let _ = literals.extend_from_slice(lits);
    literals.len()
}

/// Doubles the chains and links all slots anew, where a chain has more than some three slots to two.
fn more_chains(heads: &mut Vec<u32>, slots: &mut [Slot]) -> Result<(), NoMemory>
    requires linked { length slots.old < 2 ^ 32 → IsLinked heads.old.items (reverse slots.old) }
    ensures slots { map unlinked slots.new ≡ map unlinked slots.old }
    ensures linked { length slots.new < 2 ^ 32 → IsLinked heads.new.items (reverse slots.new) }
    ensures some { OnOk result (0 < length heads.new.items) }
    ensures more { length heads.old.items ≤ length heads.new.items }
{
    let count = heads.len();
    if slots.len() / 3 < count / 2 {
        return Ok(());
    }
    heads.resize(count.saturating_mul(2).max(FIRST_CHAINS), 0)?;
    link_all(heads, slots);
    Ok(())
}
