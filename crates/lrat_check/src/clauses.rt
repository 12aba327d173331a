ghost use Rattle.std.specs.Prelude.{◌≡◌, ℕ, ◌+◌, ◌++◌, ◌==◌, length, Option, Some, None, option_map, is_some, IfOk, OnOk, if◌then◌else◌};
ghost use Rattle.lrat_check.specs.Clauses.{lits_in, lits_at, AreWithin};

use crate::packing::{pack_leaps, pack_spans};
use crate::table::{Span, Table};
use lit_base::{Lit, NoMemory};
use std::alloc::Global;

/// So many places the table's array may have whatever comes, and so many for each clause that was ever put in: at most 64
/// bytes for each. Proofs that were trimmed leave many ids out.
const FIRST_PLACES: u64 = 4096;

const PLACES_FOR_A_CLAUSE: u64 = 8;

/// Room is taken back where so many literals are those of removed clauses, and more than half of all.
const LEAST_WASTE: usize = 65_536;

/// Clauses by id, their literals in one arena, in the order in which they were put in.
#[derive(Debug, Drop)]
pub(crate) struct Clauses {
    literals: Vec<Lit>,
    table: Table,
    /// How many clauses were put in; decides nothing but which ids are places.
    added: u64,
    /// How many literals are those of removed clauses; decides nothing but when room is taken back.
    waste: usize,
}

impl Clauses {
    /// No clauses; takes no memory.
    pub(crate) fn new(alloc: Global) -> Clauses
        ensures none { (id : ℕ) → lits_at result id ≡ None }
        ensures within { AreWithin result }
    {
        Clauses {
            literals: Vec::new(alloc),
            table: Table::new(alloc),
            added: 0,
            waste: 0,
        }
    }

    /// The literals of the clause with this id.
    #[inline(always)]
    pub(crate) fn lits(&self, id: u64) -> Option<&[Lit]>
        ensures { lits_at self.now id ≡ option_map (λ lits. lits.now) result }
    {
        match self.table.get(id) {
            Some(span) => part(&self.literals, span),
            None => None,
        }
    }

    /// Puts a clause under an id, in the place of one that has it. After `NoMemory` nothing is said of the clauses.
    pub(crate) fn put(&mut self, id: u64, lits: &[Lit]) -> Result<(), NoMemory>
        ensures put { AreWithin self.old → OnOk result ((n : ℕ) → lits_at self.new n ≡ (if id == n then Some lits.now else lits_at self.old n)) }
        ensures within { AreWithin self.old → OnOk result (AreWithin self.new) }
    {
        let span = put_literals(&mut self.literals, lits)?;
        self.added = self.added.saturating_add(1);
        let places = self.added.saturating_mul(PLACES_FOR_A_CLAUSE);
        self.table
            .put(id, span, places.saturating_add(FIRST_PLACES))
    }

    /// Takes the clause with this id out, and answers whether there was one.
    pub(crate) fn remove(&mut self, id: u64) -> bool
        ensures found { result ≡ is_some (lits_at self.old id) }
        ensures removed { (n : ℕ) → lits_at self.new n ≡ (if id == n then None else lits_at self.old n) }
        ensures within { AreWithin self.old → AreWithin self.new }
    {
        let count = match self.lits(id) {
            Some(lits) => lits.len(),
            None => return false,
        };
        self.waste = self.waste.saturating_add(count);
        self.table.remove(id);
        true
    }

    /// Takes back the room of removed clauses, where it is more than half of the arena, and there is memory for the other
    /// half. After `NoMemory` nothing is said of the clauses.
    pub(crate) fn pack(&mut self) -> Result<(), NoMemory>
        ensures same { AreWithin self.old → OnOk result ((n : ℕ) → lits_at self.new n ≡ lits_at self.old n) }
        ensures within { AreWithin self.old → OnOk result (AreWithin self.new) }
    {
        let size = self.literals.len();
        if self.waste < LEAST_WASTE || self.waste <= size / 2 {
            return Ok(());
        }
        let alloc = *self.literals.allocator();
        let Ok(mut packed) = Vec::with_capacity(alloc, size.saturating_sub(self.waste)) else {
            return Ok(());
        };
        pack_spans(&self.literals, &mut self.table.spans, &mut packed)?;
        pack_leaps(alloc, &self.literals, &mut self.table.leaps, &mut packed)?;
        self.literals = packed;
        self.waste = 0;
        Ok(())
    }
}

/// The literals of a part, where it lies within the arena.
#[inline(always)]
pub(crate) fn part(literals: &[Lit], span: Span) -> Option<&[Lit]>
    ensures { lits_in literals.now (Some span) ≡ option_map (λ lits. lits.now) result }
{
    literals.get(span.from..span.to)
}

/// Puts literals behind those of an arena, and answers where they stand.
pub(crate) fn put_literals(literals: &mut Vec<Lit>, lits: &[Lit]) -> Result<Span, NoMemory>
    ensures literals { OnOk result (literals.new.items ≡ literals.old.items ++ lits.now) }
    ensures from { IfOk result (λ span. span.from ≡ length literals.old.items) }
    ensures to { IfOk result (λ span. span.to ≡ length literals.old.items + length lits.now) }
{
    let from = literals.len();
    literals.extend_from_slice(lits)?;
    Ok(Span {
        from,
        to: literals.len(),
    })
}
