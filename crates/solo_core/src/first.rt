ghost use Rattle.std.specs.Prelude.{◌≡◌, ◌≤◌, ◌<◌, ◌^◌, [], map, length, IfOk, OnOk, None};
ghost use Rattle.lit_base.specs.Cnf.{IsFormula};
ghost use Rattle.lit_base.specs.Rounds.{original, named_from};
ghost use Rattle.lit_base.specs.Named.{lits_at};
ghost use Rattle.lit_base.specs.Held.{clauses_of, unused, with_clause};
ghost use Rattle.round_prop.specs.Attached.{IsAttachedTo};
ghost use Rattle.round_prop.specs.Spanned.{IsPlacedIn};
ghost use Rattle.solo_core.specs.First.{AreInRange, frame_of, first_state, starts_from};
ghost use Rattle.solo_core.specs.Searching.{AreActivitiesUpTo, IsJoined, IsSearchAt};

use crate::holding::hold_clause;
use crate::posting::share_of_core;
use crate::search::Search;
use crate::sheet::Settings;
use clause_pool::Pool;
use core_rows::{Row, shipped, start_activity};
use first_uip::Analyser;
use lit_base::{Clause, Formula, List, Name, NoMemory};
use round_prop::Rounds;
use std::alloc::Global;
use tempo::Tempo;
use trail_book::Trail;
use var_order::Order;

/// The search that a core begins with: it holds the clauses of the formula, its trail is empty, and its row is the one of
/// its number.
pub(crate) fn first_search(
    alloc: Global,
    formula: &Formula,
    settings: &Settings,
    core: u32,
) -> Result<Search, NoMemory>
    requires settings { AreInRange settings.now }
    requires core { core < settings.now.cores }
    ensures state { IfOk result (IsSearchAt (frame_of formula.now settings.now core) (first_state formula.now settings.now core)) }
    ensures joined { IfOk result (λ search. IsJoined search) }
    ensures formula { IsFormula formula.now }
{
    let variables = formula.variables();
    let row = shipped().row(core as usize);
    let starts = start_activities(alloc, &row, settings.seed, core, variables)?;
    let order = Order::make(alloc, starts)?;
    let trail = Trail::with_room(alloc, variables)?;
    let mut pool = Pool::new(alloc);
    let mut rounds = Rounds::make(alloc, variables)?;
    let analyser = Analyser::make(alloc, variables)?;
    hold_originals(&mut pool, &mut rounds, &trail, formula.clauses())?;
    Ok(Search {
        variables,
        core,
        share: share_of_core(settings, core),
        limit: settings.limit,
        row,
        period: 1,
        conflicts: 0,
        period_conflicts: 0,
        pool,
        trail,
        order,
        tempo: Tempo::new(row.unit),
        reductions: 0,
        rounds,
        analyser,
        lemmas: List::new(alloc),
        alloc,
    })
}

/// Holds the clauses, under the names of originals from 0 on, and attaches them.
fn hold_originals(
    pool: &mut Pool,
    rounds: &mut Rounds,
    trail: &Trail,
    clauses: &[Clause],
) -> Result<(), NoMemory>
    requires few { length clauses.now ≤ 4000000 }
    requires empty { pool.old ≡ record { held = []; added = [] } }
    requires attached { IsAttachedTo rounds.old (clauses_of pool.old.held) trail.now.entries }
    requires placed { IsPlacedIn rounds.old pool.old.added }
    ensures held { OnOk result (pool.new.held ≡ map unused (named_from 0 clauses.now)) }
    ensures attached { OnOk result (IsAttachedTo rounds.new (clauses_of pool.new.held) trail.now.entries) }
    ensures placed { OnOk result (IsPlacedIn rounds.new pool.new.added) }
    ensures variables { rounds.new.variables ≡ rounds.old.variables }
{
    for (index, clause) in clauses.iter().enumerate() {
        let name = Name::original(index as u32);
        hold_clause(pool, rounds, trail, name, clause.lits())?;
    }
    Ok(())
}

/// The activities with which this core begins the variables from 1 on.
fn start_activities(
    alloc: Global,
    row: &Row,
    seed: u64,
    core: u32,
    variables: u32,
) -> Result<List<u64>, NoMemory>
    requires { row.now.noise ≤ 16 }
    ensures starts { IfOk result (λ starts. starts ≡ starts_from row.now.noise seed core variables 1) }
    ensures below { IfOk result (λ starts. AreActivitiesUpTo (2 ^ 16) starts) }
    ensures each { IfOk result (λ starts. length starts ≡ variables) }
{
    let mut starts = List::new(alloc);
    for index in 0..variables {
        let var = u64::from(index) + 1;
        starts.push(start_activity(row, seed, u64::from(core), var))?;
    }
    Ok(starts)
}
