ghost use Rattle.std.specs.Prelude.{◌≡◌, ◌≢◌, ◌<◌, ◌≤◌, ◌+◌, IfOk, OnOk, Option, Some, None, List, unwrap_or};
ghost use Rattle.lit_base.specs.Backjump.{last_value};
ghost use Rattle.lit_base.specs.Held.{clauses_of};
ghost use Rattle.lit_base.specs.Quiet.{AreQuietBelow};
ghost use Rattle.lit_base.specs.Rounds.{NamedClause};
ghost use Rattle.round_prop.specs.Found.{found_of};
ghost use Rattle.solo_core.specs.Turn.{propagated, picked, chosen, turn, jumped};
ghost use Rattle.solo_core.specs.Changes.{after_propagation};
ghost use Rattle.solo_core.specs.Stretch.{search_to_conflict, search_to_quota, stretch};
ghost use Rattle.solo_core.specs.State.{SearchState};
ghost use Rattle.solo_core.specs.Searching.{IsJoined, IsReady, IsSearchAt, FollowsSearch};
ghost use Rattle.solo_core.specs.Soundness.{IsSound};
ghost use Rattle.solo_core.specs.declared.turn.TurnEnd.TheVariants.{Refuted};

use crate::jump::jump_back;
use crate::lemma::Lemma;
use crate::propagation::propagate;
use crate::sheet::End;
use crate::turn::TurnEnd;
use clause_pool::Pool;
use core_rows::Row;
use first_uip::Analyser;
use lit_base::{List, Lit, NoMemory};
use round_prop::{Found, Rounds};
use std::alloc::Global;
use std::marker::Model;
use tempo::Tempo;
use trail_book::Trail;
use var_order::Order;

/// What a core searches with.
#[derive(Drop)]
pub(crate) struct Search {
    /// The variables of the formula.
    pub(crate) variables: u32,
    /// The number of the core, from 0.
    pub(crate) core: u32,
    /// The literals that a clause which the core posts has at most.
    pub(crate) share: u32,
    /// The conflicts that the core may have in the whole run.
    pub(crate) limit: u32,
    /// By what the core differs from the others.
    pub(crate) row: Row,
    /// The period, from 1.
    pub(crate) period: u32,
    /// The conflicts in the whole run so far.
    pub(crate) conflicts: u32,
    /// Those of them in this period.
    pub(crate) period_conflicts: u32,
    /// The clauses that are held.
    pub(crate) pool: Pool,
    /// The literals that are true, and why.
    pub(crate) trail: Trail,
    /// The variables by activity, with each that is free on the trail.
    pub(crate) order: Order,
    /// When the core restarts.
    pub(crate) tempo: Tempo,
    /// The reductions that were made.
    pub(crate) reductions: u32,
    /// What propagation keeps of the held clauses.
    pub(crate) rounds: Rounds,
    /// What conflict analysis works with, made once for all conflicts.
    pub(crate) analyser: Analyser,
    /// The lemmas of this period.
    pub(crate) lemmas: List<Lemma>,
    /// Where new lists take their memory: kept, so that the calls of a period need nobody who has it.
    pub(crate) alloc: Global,
}

impl Model for Search {
    ghost use Rattle.solo_core.specs.State.{SearchState};

    ghost Value = { SearchState };

    ghost view = { λ s. record {
      frame = record { variables = s.variables; core = s.core; share = s.share; limit = s.limit; row = s.row };
      state = record {
        period = s.period;
        clauses = s.pool.held;
        trail = s.trail.entries;
        saved = s.trail.saved;
        conflicts = s.conflicts;
        period_conflicts = s.period_conflicts;
        lemmas = s.lemmas;
        activities = s.order.activities;
        tempo = s.tempo;
        reductions = s.reductions;
      };
      added = s.pool.added;
      rounds = s.rounds;
      analyser = s.analyser;
      present = s.order.present;
    } };
}

impl Search {
    /// Propagates over the held clauses.
    fn propagate(&mut self) -> Found
        requires { IsReady self.old }
        ensures state { IsSearchAt self.old.frame (after_propagation self.old.frame self.old.state) self.new }
        ensures found { result ≡ found_of (propagated self.old.frame self.old.state).conflict }
        ensures joined { IsJoined self.new }
    {
        propagate(&mut self.rounds, &self.pool, &mut self.trail)
    }

    /// Decides the variable that is picked, with its last value, or the row's phase where it never had one; where no
    /// variable is free the trail is a model.
    fn choose(&mut self) -> TurnEnd
        requires { IsJoined self.old }
        ensures state { IsSearchAt self.old.frame (chosen self.old.state (picked self.old.frame self.old.state)).state self.new }
        ensures end { result ≡ (chosen self.old.state (picked self.old.frame self.old.state)).came_to }
        ensures joined { IsJoined self.new }
    {
        match self.order.pick(&self.trail) {
            Some(var) => {
                let lit = last_literal(&self.trail, var, self.row.phase);
                self.trail.decide(lit);
                TurnEnd::Decided
            }
            None => TurnEnd::Modelled,
        }
    }

    /// One turn: propagation, and then a decision, or what its conflict teaches.
    ///
    /// After `NoMemory` the search may be in any state.
    fn turn(&mut self) -> Result<TurnEnd, NoMemory>
        requires { IsReady self.old }
        ensures state { OnOk result (IsSearchAt self.old.frame (turn self.old.frame self.old.state).state self.new) }
        ensures end { IfOk result (λ end. end ≡ (turn self.old.frame self.old.state).came_to) }
        ensures joined { OnOk result (IsJoined self.new) }
    {
        match self.propagate() {
            Found::Fix => Ok(self.choose()),
            Found::Conflict(conflict) => self.teach(conflict),
        }
    }

    /// Turns up to the first that comes to no decision; one turn more than there are variables always suffices.
    ///
    /// After `NoMemory` the search may be in any state.
    fn search_to_conflict(&mut self) -> Result<TurnEnd, NoMemory>
        requires { IsReady self.old }
        ensures state { OnOk result (IsSearchAt self.old.frame (search_to_conflict (self.old.frame.variables + 1) self.old.frame self.old.state).state self.new) }
        ensures end { IfOk result (λ end. end ≡ (search_to_conflict (self.old.frame.variables + 1) self.old.frame self.old.state).came_to) }
        ensures joined { OnOk result (IsJoined self.new) }
    {
        let most = self.variables + 1;
        for _ in 0..most {
            match self.turn()? {
                TurnEnd::Decided => {}
                end => return Ok(end),
            }
        }
        Ok(TurnEnd::Decided)
    }

    /// Searches for each conflict of the quota, up to an answer or the limit. Without an answer it ends at level 0.
    ///
    /// After `NoMemory` the search may be in any state.
    pub(crate) fn stretch(&mut self, quota: u32) -> Result<End, NoMemory>
        requires sound { (base : List NamedClause) × IsSound base self.old.frame self.old.state }
        requires joined { IsJoined self.old }
        ensures state { OnOk result (IsSearchAt self.old.frame (stretch self.old.frame quota self.old.state).state self.new) }
        ensures end { IfOk result (λ ended. ended ≡ (stretch self.old.frame quota self.old.state).ended) }
        ensures joined { OnOk result (IsJoined self.new) }
    {
        if self.conflicts == self.limit {
            return Ok(End::Spent);
        }
        self.search_to_quota(quota)
    }

    /// A search for each conflict of the quota, below the limit.
    fn search_to_quota(&mut self, quota: u32) -> Result<End, NoMemory>
        requires { IsReady self.old }
        ensures state { OnOk result (IsSearchAt self.old.frame (search_to_quota quota self.old.frame self.old.state).state self.new) }
        ensures end { IfOk result (λ ended. ended ≡ (search_to_quota quota self.old.frame self.old.state).ended) }
        ensures joined { OnOk result (IsJoined self.new) }
    {
        for _ in 0..quota {
            let end = self.search_to_conflict()?;
            if let Some(ended) = self.after_search(end) {
                return Ok(ended);
            }
        }
        self.jump_to_root();
        Ok(End::Quota)
    }

    /// How a search ends the stretch; None where a lemma was learnt and the limit isn't reached.
    fn after_search(&mut self, end: TurnEnd) -> Option<End>
        requires joined { IsJoined self.old }
        requires quiet { end ≢ Refuted → AreQuietBelow self.old.state.trail (clauses_of self.old.state.clauses) }
        ensures follows { FollowsSearch self.old.frame self.old.state end self.new result }
        ensures joined { IsJoined self.new }
    {
        match end {
            TurnEnd::Modelled => Some(End::Sat),
            TurnEnd::Refuted => Some(End::Unsat),
            TurnEnd::Decided => {
                self.jump_to_root();
                Some(End::Spent)
            }
            TurnEnd::Learnt => {
                if self.conflicts < self.limit {
                    return None;
                }
                self.jump_to_root();
                Some(End::Spent)
            }
        }
    }

    /// Jumps back to level 0.
    pub(crate) fn jump_to_root(&mut self)
        requires joined { IsJoined self.old }
        requires quiet { AreQuietBelow self.old.state.trail (clauses_of self.old.state.clauses) }
        ensures state { IsSearchAt self.old.frame (jumped 0 self.old.state) self.new }
        ensures joined { IsJoined self.new }
    {
        jump_back(&mut self.trail, &mut self.rounds, &mut self.order, 0);
    }
}

/// The literal of a variable with the value that it last had, and with this one where it never had one.
fn last_literal(trail: &Trail, var: u32, phase: bool) -> Lit
    requires low { 1 ≤ var }
    requires high { var ≤ 1000000 }
    ensures { result ≡ record { variable = var; positive = unwrap_or (last_value trail.now.entries trail.now.saved var) phase } }
{
    Lit::of(var, trail.last(var).unwrap_or(phase))
}
