//! A core goes to its next period, and holds there what the others posted in the last.
ghost use Rattle.std.specs.Prelude.{◌≡◌, ◌<◌, ◌+◌, ◌^◌, map, OnOk};
ghost use Rattle.lit_base.specs.Held.{clauses_of};
ghost use Rattle.round_prop.specs.Attached.{IsAttachedTo};
ghost use Rattle.round_prop.specs.Spanned.{IsPlacedIn};
ghost use Rattle.solo_core.specs.Period.{AreNewTo, clauses_posted, core_after_import, posted_clause, with_unused};
ghost use Rattle.solo_core.specs.Searching.{IsJoined, IsSearchAt};

use crate::holding::hold_clause;
use crate::search::Search;
use crate::sheet::{Mail, Posted};
use clause_pool::Pool;
use lit_base::NoMemory;
use round_prop::Rounds;
use trail_book::Trail;

impl Search {
    /// Goes to the next period, and holds and attaches the clauses that these mails post.
    ///
    /// After `NoMemory` the search may be in any state.
    pub(crate) fn import(&mut self, mails: &[Mail]) -> Result<(), NoMemory>
        requires joined { IsJoined self.old }
        requires new { AreNewTo self.old.state.clauses (clauses_posted mails.now) }
        requires period { self.old.state.period + 1 < 2 ^ 32 }
        ensures state { OnOk result (IsSearchAt self.old.frame (core_after_import mails.now self.old.state) self.new) }
        ensures joined { OnOk result (IsJoined self.new) }
    {
        self.period += 1;
        self.period_conflicts = 0;
        self.lemmas.clear();
        hold_mails(&mut self.pool, &mut self.rounds, &self.trail, mails)?;
        Ok(())
    }
}

/// Holds and attaches the clauses that these mails post, mail by mail.
fn hold_mails(
    pool: &mut Pool,
    rounds: &mut Rounds,
    trail: &Trail,
    mails: &[Mail],
) -> Result<(), NoMemory>
    requires new { AreNewTo pool.old.held (clauses_posted mails.now) }
    requires attached { IsAttachedTo rounds.old (clauses_of pool.old.held) trail.now.entries }
    requires placed { IsPlacedIn rounds.old pool.old.added }
    ensures held { OnOk result (pool.new.held ≡ with_unused (clauses_posted mails.now) pool.old.held) }
    ensures attached { OnOk result (IsAttachedTo rounds.new (clauses_of pool.new.held) trail.now.entries) }
    ensures placed { OnOk result (IsPlacedIn rounds.new pool.new.added) }
    ensures variables { rounds.new.variables ≡ rounds.old.variables }
{
    for mail in mails {
        hold_posts(pool, rounds, trail, mail.posted.as_slice())?;
    }
    Ok(())
}

/// Holds and attaches posted clauses, one after the other.
fn hold_posts(
    pool: &mut Pool,
    rounds: &mut Rounds,
    trail: &Trail,
    posts: &[Posted],
) -> Result<(), NoMemory>
    requires new { AreNewTo pool.old.held (map posted_clause posts.now) }
    requires attached { IsAttachedTo rounds.old (clauses_of pool.old.held) trail.now.entries }
    requires placed { IsPlacedIn rounds.old pool.old.added }
    ensures held { OnOk result (pool.new.held ≡ with_unused (map posted_clause posts.now) pool.old.held) }
    ensures attached { OnOk result (IsAttachedTo rounds.new (clauses_of pool.new.held) trail.now.entries) }
    ensures placed { OnOk result (IsPlacedIn rounds.new pool.new.added) }
    ensures variables { rounds.new.variables ≡ rounds.old.variables }
{
    for post in posts {
        hold_clause(pool, rounds, trail, post.name, post.lits.as_slice())?;
    }
    Ok(())
}
