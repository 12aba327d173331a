ghost use Rattle.std.specs.Prelude.{◌≡◌, IfOk, length};
ghost use Rattle.lit_base.specs.Named.{lits_at};
ghost use Rattle.lit_base.specs.Held.{clauses_of};
ghost use Rattle.lit_base.specs.Fits.{FitsClauses, IsConflict};
ghost use Rattle.lit_base.specs.Analysis.{lesson_of};

use crate::walk::Walk;
use clause_pool::Pool;
use lit_base::{Lesson, Name, NoMemory};
use std::alloc::Global;
use std::marker::Model;
use trail_book::Trail;

/// What analyses of conflicts work with, made once and used for each: seen by contracts as its number of variables.
///
/// A mark for each variable, none of them set between calls, and room for all that an analysis gathers. So an analysis
/// takes no memory but for its lesson, and clears no more than it marked.
#[derive(Debug, Drop)]
pub struct Analyser {
    variables: u32,
    walk: Walk,
}

impl Model for Analyser {
    ghost use Rattle.std.specs.Prelude.{ℕ};
    ghost use Rattle.first_uip.specs.Room.{IsIdle};

    ghost Value = { ℕ };

    ghost view = { λ a. a.variables };

    ghost invariant = { λ a. IsIdle a.variables a.walk };
}

impl Analyser {
    /// For trails of so many variables. Takes some 30 bytes for each of them.
    pub fn make(alloc: Global, variables: u32) -> Result<Analyser, NoMemory>
        ensures { IfOk result (λ analyser. analyser ≡ variables) }
    {
        Ok(Analyser {
            variables,
            walk: Walk::new(alloc, variables)?,
        })
    }

    /// What a conflict on the trail teaches: the lemma of the first unique implication point, its hints, the level to
    /// jump back to, and the variables above level 0 that were met.
    ///
    /// The trail must fit the held clauses, and the conflict must be falsified on it. Takes a step for each literal of
    /// the clauses that become hints, and for each entry of the current level down to the last that is marked, and then
    /// sorts the places of the older entries that are marked. Memory is taken for the lesson alone.
    pub fn analyse(
        &mut self,
        pool: &Pool,
        trail: &Trail,
        conflict: Name,
    ) -> Result<Lesson, NoMemory>
        requires variables { length trail.now.saved ≡ self.old }
        requires conflict { IsConflict (lits_at (clauses_of pool.now.held)) trail.now.entries conflict }
        requires fits { FitsClauses (lits_at (clauses_of pool.now.held)) trail.now.entries }
        ensures lesson { IfOk result (λ lesson. lesson ≡ lesson_of (lits_at (clauses_of pool.now.held)) trail.now.entries conflict) }
        ensures variables { self.new ≡ self.old }
    {
        self.walk.walk(pool, trail, conflict);
        let lesson = self.walk.lesson();
        self.walk.marks.clear();
        lesson
    }
}

/// The same for one conflict: what it teaches, by an analyser of its own.
///
/// The trail must fit the held clauses, and the conflict must be falsified on it.
pub fn analyse(
    alloc: Global,
    pool: &Pool,
    trail: &Trail,
    conflict: Name,
) -> Result<Lesson, NoMemory>
    requires conflict { IsConflict (lits_at (clauses_of pool.now.held)) trail.now.entries conflict }
    requires fits { FitsClauses (lits_at (clauses_of pool.now.held)) trail.now.entries }
    ensures { IfOk result (λ lesson. lesson ≡ lesson_of (lits_at (clauses_of pool.now.held)) trail.now.entries conflict) }
{
    let mut analyser = Analyser::make(alloc, trail.variables())?;
    analyser.analyse(pool, trail, conflict)
}
