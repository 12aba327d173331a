ghost use Rattle.std.specs.Prelude.{◌≡◌, ◌≤◌, ◌+◌, ◌++◌, [], ◌∷◌, List, IsSome, Some, None, IfOk, OnOk, OnErr, length};
ghost use Rattle.lit_base.specs.Literal.{Literal};
ghost use Rattle.lit_base.specs.Named.{lits_at};
ghost use Rattle.lit_base.specs.Held.{clauses_of, with_named, names_without, clauses_without};
ghost use Rattle.lit_base.specs.Rounds.{NamedClause};
ghost use Rattle.lit_base.specs.declared.trail.Entry.{Entry};
ghost use Rattle.lit_base.specs.declared.name.Name.{Name};
ghost use Rattle.round_prop.specs.Attached.{IsAttached, IsNewTo, AreAttachedNames, IsSettled};
ghost use Rattle.round_prop.specs.Spanned.{IsPlacedIn};
ghost use Rattle.round_prop.specs.Pairs.{pairs_of};
ghost use Rattle.round_prop.specs.Propagation.{MayPropagate, HasPropagated};

use crate::begin::{begin_fresh, note_anew};
use crate::found::Found;
use crate::fresh::Fresh;
use crate::removal::is_among;
use crate::room::make_room;
use crate::round::run_rounds;
use crate::row::find_rows;
use crate::short::Short;
use crate::table::Table;
use clause_pool::{Pool, Steps};
use lit_base::{Name, NoMemory};
use std::alloc::Global;
use std::marker::Model;
use std::snapshot::Snapshot;
use std::sync::ledger::Ledger;
use trail_book::Trail;

/// The clauses that propagation goes over, with what it has seen of them and of the trail.
///
/// Propagation goes in rounds, each over one snapshot of the trail: it ends at the least name of a falsified clause, and
/// else implies the units in the order of names (unit propagation: Davis, Logemann and Loveland 1962; the order by rounds
/// and names is this product's own). A round looks only at clauses that are linked by a literal that became false (links of
/// two literals: Moskewicz, Madigan, Zhao, Zhang and Malik 2001).
///
/// `table` has a row for each clause of two literals or more, and `shorts` has the others. A clause that is attached stands
/// among `fresh`, the newest last, till the next propagation reads it; all that this takes is reserved when it is attached.
/// `seen` is the number of entries seen, which are the oldest of `trail`. `pool` is the pool as the last propagation saw it.
#[derive(Drop)]
pub struct Rounds {
    variables: u32,
    table: Table,
    shorts: Vec<Short>,
    fresh: Vec<Fresh>,
    pool: Snapshot<Pool>,
    seen: usize,
    trail: Snapshot<Trail>,
}

impl Model for Rounds {
    ghost use Rattle.std.specs.Prelude.{◌≡◌, length, vec_len, vec_capacity};
    ghost use Rattle.lit_base.specs.Held.{clauses_of};
    ghost use Rattle.lit_base.specs.Fits.{HasDistinctVariables};
    ghost use Rattle.round_prop.specs.Attached.{RoundsState, AreRoomy};
    ghost use Rattle.round_prop.specs.FreshClauses.{clauses_of_fresh};

    ghost Value = { RoundsState };

    ghost view = { λ r. record {
      variables = r.variables;
      table = r.table;
      shorts = r.shorts.items;
      fresh = clauses_of_fresh r.fresh.items;
      propagated = clauses_of r.pool.value.held;
      seen = r.trail.value.entries;
    } };

    ghost invariant = { λ r.
        AreRoomy r.variables r.table (vec_len r.shorts) (vec_capacity r.shorts) (vec_len r.fresh) × (r.seen ≡ length r.trail.value.entries)
        × HasDistinctVariables r.trail.value.entries };
}

impl Rounds {
    /// Nothing attached and no entry seen, for trails of so many variables.
    pub fn make(alloc: Global, variables: u32) -> Result<Rounds, NoMemory>
        ensures attached { IfOk result (λ rounds. IsAttached rounds [] [] []) }
        ensures placed { (added : List NamedClause) → IfOk result (λ rounds. IsPlacedIn rounds added) }
        ensures variables { IfOk result (λ rounds. rounds.variables ≡ variables) }
    {
        let none = Pool::new(alloc);
        let empty = Trail::with_room(alloc, 0)?;
        let table = Table::make(alloc, variables)?;
        Ok(Rounds {
            variables,
            table,
            shorts: Vec::new(alloc),
            fresh: Vec::new(alloc),
            pool: Snapshot::of(&none),
            seen: 0,
            trail: Snapshot::of(&empty),
        })
    }

    /// Attaches a held clause that isn't attached; its name is fresh until the next propagation ends. After `NoMemory`
    /// nothing is changed.
    pub fn attach(&mut self, pool: &Pool, trail: &Trail, name: Name) -> Result<(), NoMemory>
        requires held { IsSome (lits_at (clauses_of pool.now.held) name) }
        requires new { IsNewTo self.old name }
        ensures attached { OnOk result ((attached : List NamedClause) (fresh : List Name) (seen : List Entry)
            (lits : List Literal) → IsAttached self.old attached fresh seen →
            lits_at (clauses_of pool.now.held) name ≡ Some lits → lits_at attached name ≡ None →
            IsAttached self.new (with_named (record { name = name; lits = lits }) attached) (name ∷ fresh) seen) }
        ensures err { OnErr result ((attached : List NamedClause) (fresh : List Name) (seen : List Entry) →
            IsAttached self.old attached fresh seen → IsAttached self.new attached fresh seen) }
        ensures placed { (added : List NamedClause) → IsPlacedIn self.old added → IsPlacedIn self.new added }
        ensures variables { self.new.variables ≡ self.old.variables }
    {
        // the next propagation links it, so nothing of the trail is taken in here
        let _ = trail;
        make_room(&mut self.table, &mut self.shorts, &mut self.fresh)?;
        let pool = Snapshot::of(pool);
        self.fresh.push_reserved(Fresh { name, pool });
        Ok(())
    }

    /// Detaches the clauses of these names, which are attached and distinct, and finds where the others stand in the pool; so
    /// call it when the pool has dropped what it is to drop. It takes a step for each clause that is attached, with a search
    /// among these names.
    pub fn detach(&mut self, pool: &Pool, names: &[Name])
        requires attached { AreAttachedNames self.old names.now }
        ensures attached { (attached : List NamedClause) (fresh : List Name) (seen : List Entry) →
            IsAttached self.old attached fresh seen →
            IsAttached self.new (clauses_without names.now attached) (names_without names.now fresh) seen }
        ensures placed { IsPlacedIn self.new pool.now.added }
        ensures variables { self.new.variables ≡ self.old.variables }
    {
        self.table.remove(names);
        find_rows(&mut self.table.rows, pool);
        self.shorts.retain(|short| !is_among(names, short.name));
        self.fresh.retain(|fresh| !is_among(names, fresh.name));
    }

    /// Tells that the trail was cut; call it before the trail grows again. Where entries that were seen have left, those
    /// seen are then the trail's.
    ///
    /// A cut leaves the links as they are; it takes back what was noted, and notes the short clauses where no entry is left.
    pub fn jumped(&mut self, trail: &Trail)
        ensures cut { (attached : List NamedClause) (fresh : List Name) (seen more : List Entry) →
            IsAttached self.old attached fresh seen → seen ≡ more ++ trail.now.entries →
            IsSettled trail.now.entries attached fresh → IsAttached self.new attached fresh trail.now.entries }
        ensures above { (attached : List NamedClause) (fresh : List Name) (seen more : List Entry) →
            IsAttached self.old attached fresh seen → trail.now.entries ≡ more ++ seen →
            IsAttached self.new attached fresh seen }
        ensures placed { (added : List NamedClause) → IsPlacedIn self.old added → IsPlacedIn self.new added }
        ensures variables { self.new.variables ≡ self.old.variables }
    {
        let len = trail.len();
        if len >= self.seen {
            return;
        }
        self.table.noted.clear();
        note_anew(&mut self.table.noted, &self.shorts, len);
        self.seen = len;
        self.trail = Snapshot::of(trail);
    }

    /// Propagates over the held clauses, which are those that are attached, to a conflict or a fixed point; takes no memory.
    ///
    /// It reads each fresh clause once, and else at most each clause once for each of its literals that has become false
    /// since the last propagation ended.
    pub fn propagate<L: Ledger>(
        &mut self,
        pool: &Pool,
        trail: &mut Trail,
        steps: &mut Steps<L>,
    ) -> Found
        requires { MayPropagate self.old pool.now trail.old }
        ensures propagated { HasPropagated pool.now trail.old self.new trail.new result }
        ensures steps { steps.old ≤ steps.new }
        ensures few { (fresh : List Name) (seen newer : List Entry) → IsAttached self.old (clauses_of pool.now.held) fresh seen →
            trail.new.entries ≡ newer ++ seen →
            steps.new ≤ steps.old + pairs_of (clauses_of pool.now.held) newer + length fresh }
    {
        // for the checker alone: that the entries are over distinct variables, which their number tells
        let _ = trail.len();
        begin_fresh(
            &mut self.table,
            &mut self.shorts,
            &mut self.fresh,
            pool,
            trail,
            steps,
        );
        let found = run_rounds(&mut self.table, pool, trail, self.seen, steps);
        self.pool = Snapshot::of(pool);
        self.seen = trail.len();
        self.trail = Snapshot::of(trail);
        found
    }
}
