//! The cores in long-lived workers on a board, and the scribe on the caller's thread.
ghost use Rattle.std.specs.Prelude.{◌≡◌, ◌≤◌, IfOk};
ghost use Rattle.solo_core.specs.First.{AreInRange};
ghost use Rattle.crew.specs.Log.{log_text};
ghost use Rattle.crew.specs.Outcome.{outcome_of};
ghost use Rattle.crew.specs.Groups.{AreEach};
ghost use Rattle.crew.specs.Turns.{without_outcome, WritesLog};
ghost use Rattle.crew.specs.Passes.{ArePassesOf, IsUsed, without_passes};

use crate::caller::run_groups;
use crate::outcome::Outcome;
use crate::passes::{hand_back, prepare};
use crate::post::Post;
use desk_io::{Gate, Outputs};
use era_board::{Board, Pass};
use lit_base::Formula;
use log_merge::Stop;
use solo_core::Settings;
use std::alloc::Global;
use std::marker::Sync;
use std::sync::Wait;
use std::thread::Threads;

/// Runs the cores on a board, in long-lived workers, and where `log` is true writes the log to its port.
///
/// The cores are dealt in turn to so many workers, or to one each where there are fewer cores. The caller's thread is the
/// scribe, the party after the cores, and works for the cores of each worker whose thread can't be started. The board has a
/// party for each core and one for the scribe, its occasion is the formula and the settings, and `passes` are all its passes
/// as `Board::make` gave them. They are given back in their order: each has arrived once in each era, and taken as many posts
/// from each other party. After an error they are dropped. It may wait for ever.
///
/// There is a worker, and each setting is in its range. Outcome, log and errors are those of `run_turns`.
pub fn run_crew<R: Threads + Wait + Sync, O: Outputs, G: Gate>(
    rt: &R,
    alloc: Global,
    board: &Board<Post>,
    passes: Vec<Pass<Post>>,
    formula: &Formula,
    settings: &Settings,
    workers: u32,
    log: bool,
    outputs: &mut O,
    gate: &G,
) -> Result<(Outcome, Vec<Pass<Post>>), Stop>
    requires settings { AreInRange settings.now }
    requires workers { 1 ≤ workers }
    requires passes { ArePassesOf board.now formula.now settings.now passes.items }
    ensures outcome { IfOk result (λ run. run.0 ≡ outcome_of formula.now settings.now) }
    ensures writes { WritesLog log (log_text formula.now settings.now) (O.told outputs.old) (O.told outputs.new) (without_outcome (without_passes result)) }
    ensures passes { IfOk result (λ run. AreEach (IsUsed board.now run.0.eras) passes.items run.1.items) }
{
    let ready = prepare(alloc, passes, board, formula, settings, workers, log)?;
    let ran = run_groups(
        rt,
        alloc,
        board,
        ready.groups,
        ready.scribe,
        formula,
        settings,
        log,
        outputs,
        gate,
    )?;
    let passes = hand_back(
        ran.groups,
        ran.scribe,
        ready.parties,
        ready.passes,
        settings.cores,
    )?;
    Ok((ran.outcome, passes))
}
