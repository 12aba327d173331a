ghost use Rattle.std.specs.Prelude.{◌≡◌, ◌↔◌, ◌+◌, ◌<◌, ◌≤◌, ◌^◌, [], ◌∷◌, is_some, IsTrue, IsSome, IfOk, Some, None, false, All, OnOk, OnErr};
ghost use Rattle.std.specs.Option.{ForSome};
ghost use Rattle.std.specs.List.{IsDistinct};
ghost use Rattle.std.specs.List.Sorted.{IsPermutation};
ghost use Rattle.lit_base.specs.Literal.{same};
ghost use Rattle.lit_base.specs.Rounds.{original};
ghost use Rattle.lit_base.specs.Named.{same_name, lits_at};
ghost use Rattle.lit_base.specs.Held.{clauses_of, is_original, with_clause, with_uses, without_names, clauses_without, volume_of};
ghost use Rattle.lit_base.specs.declared.name.Name.{Name};
ghost use Rattle.clause_pool.specs.Uses.{uses_of, cleared};
ghost use Rattle.clause_pool.specs.Tallies.{tallies_but};
ghost use Rattle.clause_pool.specs.Rising.{IsOrdered, HaveDistinctLits};
ghost use Rattle.clause_pool.specs.Pooled.{is_front};
ghost use Rattle.clause_pool.specs.Spans.{span_of};

use crate::originals::Originals;
use crate::span::Span;
use crate::steps::Steps;
use crate::table::Table;
use crate::tally::Tally;
use lit_base::{Lit, Name, NoMemory};
use std::alloc::Global;
use std::marker::Model;
use std::sync::ledger::Ledger;

/// The clauses that a core holds, each under its name, seen by contracts as their list by rising names and as their list in
/// the order of adding, which tells where the literals of each stand.
///
/// The literals of clauses stand in arenas, in the order of adding (as in MiniSat: Eén and Sörensson 2003). The originals
/// 0, 1, 2, .. are found by their index where they are added first and in this order, as long as they have fewer than 2^32
/// literals; every other clause is found by its name in constant time, and is packed together with the others at each drop.
/// The literals of the originals that are found by their index come first, and none is added to these while there is any
/// other clause: so a clause stands where it was put until clauses are dropped.
#[derive(Debug, Drop)]
pub struct Pool {
    originals: Originals,
    table: Table,
}

impl Model for Pool {
    ghost use Rattle.std.specs.Prelude.{◌++◌};
    ghost use Rattle.lit_base.specs.Held.{clauses_of};
    ghost use Rattle.clause_pool.specs.Spans.{PoolState};

    ghost Value = { PoolState };

    ghost use Rattle.clause_pool.specs.Pooled.{held_of, originals_of, IsPool};

    ghost view = { λ p. record { held = held_of (p.table ++ originals_of p.originals); added = clauses_of (p.table ++ originals_of p.originals) } };

    ghost invariant = { λ p. IsPool (p.table ++ originals_of p.originals) };
}

impl Pool {
    /// The pool without clauses; takes no memory.
    pub fn new(alloc: Global) -> Pool
        ensures { result ≡ record { held = []; added = [] } }
    {
        Pool {
            originals: Originals::new(alloc),
            table: Table::new(alloc),
        }
    }

    /// Adds a clause of distinct literals under a name that isn't held. After `NoMemory` the pool is unchanged.
    pub fn add(&mut self, name: Name, lits: &[Lit]) -> Result<(), NoMemory>
        requires free { lits_at (clauses_of self.old.held) name ≡ None }
        requires distinct { IsDistinct same lits.now }
        ensures held { OnOk result (self.new.held ≡ with_clause (record { name = name; lits = lits.now; uses = 0 }) self.old.held) }
        ensures added { OnOk result (self.new.added ≡ record { name = name; lits = lits.now } ∷ self.old.added) }
        ensures new { lits_at self.old.added name ≡ None }
        ensures err { OnErr result (self.new ≡ self.old) }
    {
        if is_original_at(name, self.originals.len())
            && self.table.is_empty()
            && self.originals.fits(lits.len())
        {
            self.originals.push(lits)?;
            return Ok(());
        }
        self.table.add(name, lits)?;
        Ok(())
    }

    /// The literals of a held clause, in order. This is the one step that is counted.
    pub fn lits<L: Ledger>(&self, name: Name, steps: &mut Steps<L>) -> &[Lit]
        requires { IsSome (lits_at (clauses_of self.now.held) name) }
        ensures lits { lits_at (clauses_of self.now.held) name ≡ Some result.now }
        ensures steps { steps.new ≡ steps.old + 1 }
    {
        self.lits_in(self.span(name).unwrap(), steps)
    }

    /// Where the clause of this name stands; None where none is held.
    pub fn span(&self, name: Name) -> Option<Span>
        ensures value { result ≡ span_of self.now.added name }
        ensures held { is_some result ≡ is_some (lits_at (clauses_of self.now.held) name) }
    {
        if is_front(name, self.originals.len()) {
            return Some(self.originals.span(name.index as usize));
        }
        let place = self.table.find(name)?;
        Some(behind(self.originals.width(), self.table.span(place)))
    }

    /// The literals of the held clause that stands here, as `lits` gives them, and with its step; no slot is looked at.
    pub fn lits_in<L: Ledger>(&self, span: Span, steps: &mut Steps<L>) -> &[Lit]
        requires { (name : Name) × span_of self.now.added name ≡ Some span }
        ensures lits { (name : Name) → span_of self.now.added name ≡ Some span → lits_at (clauses_of self.now.held) name ≡ Some result.now }
        ensures steps { steps.new ≡ steps.old + 1 }
    {
        steps.tick();
        let base = self.originals.width();
        if span.end <= base {
            return self.originals.part(span.start, span.end);
        }
        self.table.part(span.start - base, span.end - base)
    }

    /// Whether a clause of this name is held.
    pub fn held(&self, name: Name) -> bool
        ensures value { result ≡ is_some (lits_at (clauses_of self.now.held) name) }
        ensures ordered { IsOrdered self.now.held }
        ensures distinct { HaveDistinctLits (clauses_of self.now.held) }
    {
        is_front(name, self.originals.len()) || self.table.find(name).is_some()
    }

    /// The number of held clauses that are no originals.
    pub fn volume(&self) -> u64
        ensures value { result ≡ volume_of self.now.held }
        ensures ordered { IsOrdered self.now.held }
        ensures distinct { HaveDistinctLits (clauses_of self.now.held) }
    {
        let _ = &self.originals;
        self.table.volume()
    }

    /// The tallies of the held lemmas, each once, but of those with these names; `NoMemory` where there is no room.
    ///
    /// It takes a step for each name and each clause of the pool's table, and none for the originals that are found by index.
    pub fn tallies(&self, alloc: Global, but: &[Name]) -> Result<Vec<Tally>, NoMemory>
        ensures tallies { IfOk result (λ tallies. IsPermutation (tallies_but but.now self.now.held) tallies.items) }
        ensures ordered { IsOrdered self.now.held }
    {
        let _ = &self.originals;
        self.table.tallies(alloc, but)
    }

    /// How often a held clause was a hint since its uses were cleared.
    pub fn uses(&self, name: Name) -> u64
        requires { IsSome (lits_at (clauses_of self.now.held) name) }
        ensures { uses_of self.now.held name ≡ Some result }
    {
        if is_front(name, self.originals.len()) {
            return 0;
        }
        self.table.uses(self.table.place(name))
    }

    /// Counts a use of a held clause; uses of originals aren't counted.
    pub fn count_use(&mut self, name: Name)
        requires held { IsSome (lits_at (clauses_of self.old.held) name) }
        requires fits { ForSome (uses_of self.old.held name) (λ uses. uses + 1 < 2 ^ 64) }
        ensures held { self.new.held ≡ with_uses (name ∷ []) self.old.held }
        ensures added { self.new.added ≡ self.old.added }
    {
        if name.period == 0 {
            return;
        }
        let place = self.table.place(name);
        self.table.count_use(place);
    }

    /// Begins to count all uses anew. It passes over the originals, whose uses aren't counted.
    pub fn clear_uses(&mut self)
        ensures held { self.new.held ≡ cleared self.old.held }
        ensures added { self.new.added ≡ self.old.added }
    {
        let _ = &self.originals;
        self.table.clear_uses();
    }

    /// Drops the clauses of these names, which are distinct, held and no originals'; takes no memory.
    ///
    /// What is left is packed at once: a core drops clauses at a reduction, which looks at each of them anyway.
    pub fn drop_names(&mut self, names: &[Name])
        requires held { All (λ name. IsSome (lits_at (clauses_of self.old.held) name)) names.now }
        requires distinct { IsDistinct same_name names.now }
        requires lemmas { All (λ name. is_original name ≡ false) names.now }
        ensures held { self.new.held ≡ without_names names.now self.old.held }
        ensures added { self.new.added ≡ clauses_without names.now self.old.added }
    {
        let _ = &self.originals;
        self.table.drop_names(names);
    }
}

/// Where a clause of the table stands, behind so many literals of originals.
fn behind(base: usize, span: Span) -> Span
    requires order { span.start ≤ span.end }
    requires few { base + span.end < 2 ^ 64 }
    ensures { result ≡ record { start = base + span.start; end = base + span.end } }
{
    Span {
        start: base + span.start,
        end: base + span.end,
    }
}

/// Whether the name is that of one of so many originals.
fn is_front(name: Name, count: usize) -> bool
    ensures { result ≡ is_front count name }
{
    name.period == 0 && name.core == 0 && (name.index as usize) < count
}

/// Whether the name is that of the original with this index.
fn is_original_at(name: Name, index: usize) -> bool
    ensures { IsTrue result ↔ name ≡ original index }
{
    name.period == 0 && name.core == 0 && name.index as usize == index
}
