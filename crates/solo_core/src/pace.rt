//! Restarts, and the reductions that are made at them.
ghost use Rattle.std.specs.Prelude.{◌≡◌, ◌≤◌, ◌<◌, OnOk, List};
ghost use Rattle.lit_base.specs.Held.{clauses_of, without_names};
ghost use Rattle.lit_base.specs.Rounds.{NamedClause};
ghost use Rattle.lit_base.specs.declared.trail.Entry.{Entry};
ghost use Rattle.clause_pool.specs.Uses.{cleared};
ghost use Rattle.round_prop.specs.Attached.{IsAttachedTo};
ghost use Rattle.round_prop.specs.Spanned.{IsPlacedIn};
ghost use Rattle.trim_rule.specs.Laws.{MayBeDropped};
ghost use Rattle.solo_core.specs.Turn.{reduced, paced};
ghost use Rattle.solo_core.specs.Soundness.{IsSound};
ghost use Rattle.solo_core.specs.Searching.{IsJoined, IsSearchAt};

use crate::search::Search;
use clause_pool::Pool;
use lit_base::{Name, NoMemory};
use round_prop::Rounds;
use trim_rule::choose;

impl Search {
    /// Counts a conflict; where that makes a restart due, jumps to level 0 and drops clauses if that is due.
    ///
    /// After `NoMemory` the search may be in any state.
    pub(crate) fn pace(&mut self) -> Result<(), NoMemory>
        requires sound { (base : List NamedClause) × IsSound base self.old.frame self.old.state }
        requires joined { IsJoined self.old }
        requires restarts { self.old.state.tempo.t ≤ self.old.state.conflicts }
        ensures state { OnOk result (IsSearchAt self.old.frame (paced self.old.state) self.new) }
        ensures joined { OnOk result (IsJoined self.new) }
    {
        if !self.tempo.conflict() {
            return Ok(());
        }
        self.jump_to_root();
        self.reduce()
    }

    /// Makes a reduction, if more lemmas are held than 2000, and 500 for each reduction that was made.
    ///
    /// After `NoMemory` the search may be in any state.
    fn reduce(&mut self) -> Result<(), NoMemory>
        requires joined { IsJoined self.old }
        requires restarts { self.old.state.reductions < self.old.state.tempo.t }
        ensures state { OnOk result (IsSearchAt self.old.frame (reduced self.old.state) self.new) }
        ensures joined { OnOk result (IsJoined self.new) }
    {
        if self.pool.volume() <= 2000 + 500 * u64::from(self.reductions) {
            return Ok(());
        }
        let names = choose(self.alloc, &self.pool, &self.trail)?;
        drop_clauses(&mut self.pool, &mut self.rounds, names.as_slice());
        self.reductions += 1;
        Ok(())
    }
}

/// Drops the clauses of these names, which are held, distinct and no originals', and begins to count all uses anew.
fn drop_clauses(pool: &mut Pool, rounds: &mut Rounds, names: &[Name])
    requires names { MayBeDropped pool.old.held names.now }
    requires attached { (trail : List Entry) × IsAttachedTo rounds.old (clauses_of pool.old.held) trail }
    ensures pool { pool.new.held ≡ cleared (without_names names.now pool.old.held) }
    ensures attached { (trail : List Entry) → IsAttachedTo rounds.old (clauses_of pool.old.held) trail →
        IsAttachedTo rounds.new (clauses_of pool.new.held) trail }
    ensures placed { IsPlacedIn rounds.new pool.new.added }
    ensures variables { rounds.new.variables ≡ rounds.old.variables }
{
    pool.drop_names(names);
    pool.clear_uses();
    rounds.detach(pool, names);
}
