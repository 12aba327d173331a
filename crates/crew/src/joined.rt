//! The cores side by side: in each era every group of them in a thread of its own.
ghost use Rattle.std.specs.Prelude.{◌≡◌, ◌≤◌, length, All, IfOk, OnOk};
ghost use Rattle.solo_core.specs.First.{AreInRange};
ghost use Rattle.crew.specs.Groups.{AreEach, list_of, lists_of};
ghost use Rattle.crew.specs.Log.{log_text};
ghost use Rattle.crew.specs.Outcome.{outcome_of};
ghost use Rattle.crew.specs.Turns.{MayWork, HasWorked, without_outcome, WritesLog};

use crate::dealing::{deal, gather};
use crate::era::stretch_all;
use crate::outcome::Outcome;
use crate::searcher::Searcher;
use crate::turns::{make_all, run_eras};
use crossbeam_utils::CachePadded;
use desk_io::{Gate, Outputs};
use lit_base::{Formula, NoMemory};
use log_merge::Stop;
use solo_core::Settings;
use std::alloc::Global;
use std::marker::Sync;
use std::thread;
use std::thread::Threads;

/// Runs the cores side by side, and where `log` is true writes the log to its port.
///
/// In each period the cores are dealt in turn to so many workers, or to one each where there are fewer cores. Each worker
/// passes the gate and makes the stretch for each of its cores, and all are joined; the rest is done on the caller's thread.
/// Where a thread can't be started, the caller's does its work.
///
/// There is a worker, and each setting is in its range. Outcome, log and errors are those of `run_turns`.
pub fn run_joined<R: Threads + Sync, O: Outputs, G: Gate>(
    rt: &R,
    alloc: Global,
    formula: &Formula,
    settings: &Settings,
    workers: u32,
    log: bool,
    outputs: &mut O,
    gate: &G,
) -> Result<Outcome, Stop>
    requires settings { AreInRange settings.now }
    requires workers { 1 ≤ workers }
    ensures outcome { IfOk result (λ outcome. outcome ≡ outcome_of formula.now settings.now) }
    ensures writes { WritesLog log (log_text formula.now settings.now) (O.told outputs.old) (O.told outputs.new) (without_outcome result) }
{
    let workers = workers.min(settings.cores) as usize;
    let mut searchers = make_all(alloc, formula, settings)?;
    run_eras(
        alloc,
        &mut searchers,
        formula,
        settings,
        log,
        outputs,
        |searchers: &mut Vec<Searcher>, _past: u32| -> Result<(), NoMemory>
            requires { (1 ≤ workers) × All MayWork searchers.old.items }
            ensures { OnOk result (AreEach HasWorked searchers.old.items searchers.new.items) }
        { stretch_dealt(rt, alloc, searchers, workers, gate) },
    )
}

/// Makes the stretch of each core, dealt in turn to so many workers, and gives the cores back in their order.
fn stretch_dealt<R: Threads + Sync, G: Gate>(
    rt: &R,
    alloc: Global,
    searchers: &mut Vec<Searcher>,
    workers: usize,
    gate: &G,
) -> Result<(), NoMemory>
    requires workers { 1 ≤ workers }
    requires begun { All MayWork searchers.old.items }
    ensures { OnOk result (AreEach HasWorked searchers.old.items searchers.new.items) }
{
    let cores = searchers.len();
    let mut groups = deal(alloc, searchers, workers)?;
    stretch_groups(rt, groups.as_mut_slice(), gate);
    gather(groups.as_mut_slice(), searchers, cores)
}

/// Makes the stretches of the cores of each group in a thread of its own.
fn stretch_groups<G: Gate, R: Threads + Sync>(
    rt: &R,
    groups: &mut [CachePadded<Vec<Searcher>>],
    gate: &G,
)
    requires some { 1 ≤ length groups.old }
    requires begun { All (λ group. All MayWork (list_of group)) groups.old }
    ensures { AreEach (AreEach HasWorked) (lists_of groups.old) (lists_of groups.new) }
{
    let workers = groups.len();
    thread::for_each_mut(
        rt,
        groups,
        workers,
        &|_, group: &mut CachePadded<Vec<Searcher>>|
            requires { All MayWork (list_of group.old) }
            ensures { AreEach HasWorked (list_of group.old) (list_of group.new) }
        { stretch_all(group.as_mut_slice(), gate) },
    );
}
