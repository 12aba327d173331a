//! What the caller's thread does in a run on a board: it is the scribe, and it works for the cores whose thread could not be
//! started.
ghost use Rattle.std.specs.Prelude.{◌≡◌, ◌+◌, None, map, All, IfOk, OnOk};
ghost use Rattle.desk_io.specs.Told.{OutputsTold};
ghost use Rattle.lit_base.specs.Cnf.{IsFormula};
ghost use Rattle.solo_core.specs.First.{AreInRange};
ghost use Rattle.crew.specs.Run.{last_era};
ghost use Rattle.crew.specs.Log.{log_text};
ghost use Rattle.crew.specs.Outcome.{outcome_of};
ghost use Rattle.crew.specs.Groups.{list_of, lists_of};
ghost use Rattle.crew.specs.Turns.{IsEra, without_outcome, WritesLog};
ghost use Rattle.crew.specs.Parties.{PartyAt, PartyDone};
ghost use Rattle.crew.specs.Scribing.{ScribeAt, ScribeDone, LogStands, LogLeft};
ghost use Rattle.crew.specs.Working.{numbers_of, numbers_at, PlaceAt};
ghost use Rattle.crew.specs.Places.{agreed_of, EraEnds, HasRun, without_value};

use crate::outcome::Outcome;
use crate::party::{Party, Step};
use crate::places::{begin_all, finish_all, receive_here, send_here};
use crate::post::Post;
use crate::scribe::{Scribe, Written, scribe_receive, scribe_send};
use crate::worker::Place;
use crossbeam_utils::CachePadded;
use desk_io::{Gate, Outputs};
use era_board::Board;
use lit_base::{Formula, NoMemory};
use log_merge::Stop;
use solo_core::Settings;
use std::alloc::Global;
use std::marker::Sync;
use std::sync::Wait;
use std::sync::atomic::AtomicBool;
use std::thread;
use std::thread::{Scope, Threads};

/// What a run comes to, with the cores and the scribe that ran it.
#[derive(Drop)]
pub(crate) struct Ran {
    pub(crate) outcome: Outcome,
    pub(crate) groups: Vec<CachePadded<Vec<Party>>>,
    pub(crate) scribe: Scribe,
}

/// How an era ended for the scribe and the cores beside it. The scribe leads: they can disagree only where one has stopped.
fn agreed(came: Option<Step>, stop: Option<Stop>, written: Written) -> Written
    ensures { result ≡ agreed_of came stop written }
{
    match written {
        Written::GoesOn => match came {
            None | Some(Step::GoesOn) => Written::GoesOn,
            Some(Step::Over | Step::Broken) => Written::Stopped(stop.unwrap_or(Stop::NoMemory)),
        },
        Written::Over(outcome) => match came {
            None | Some(Step::Over) => Written::Over(outcome),
            Some(Step::GoesOn | Step::Broken) => Written::Stopped(Stop::NoMemory),
        },
        Written::Stopped(why) => Written::Stopped(why),
    }
}

/// An era of all that the caller's thread works for. It may wait for ever.
fn era_here<R: Wait, O: Outputs, G: Gate>(
    rt: &R,
    alloc: Global,
    board: &Board<Post>,
    places: &mut Vec<Place>,
    scribe: &mut Scribe,
    log: bool,
    outputs: &mut O,
    formula: &Formula,
    settings: &Settings,
    past: u32,
    gate: &G,
) -> Written
    requires era { IsEra formula.now settings.now past }
    requires places { All (PlaceAt board.now formula.now settings.now (PartyAt board.now formula.now settings.now past)) places.old.items }
    requires scribe { ScribeAt board.now formula.now settings.now log past scribe.old }
    ensures ends { EraEnds board.now formula.now settings.now log past places.new.items scribe.new result }
    ensures numbers { map numbers_at places.new.items ≡ map numbers_at places.old.items }
    ensures writes { (start : OutputsTold) → LogStands log formula.now settings.now past start (O.told outputs.old) scribe.old.stop
        → LogLeft log formula.now settings.now past start (O.told outputs.new) scribe.new.stop result }
{
    send_here(alloc, board, places, formula, settings, past, gate);
    scribe_send(board, scribe, log, formula, settings, past);
    let came = receive_here(rt, board, places, formula, settings, past);
    let written = scribe_receive(
        rt, alloc, board, scribe, log, outputs, formula, settings, past,
    );
    agreed(came, scribe.stop, written)
}

/// The eras of a run, for the scribe and for the cores whose thread could not be started. It may wait for ever.
fn work_here<R: Wait, O: Outputs, G: Gate>(
    rt: &R,
    alloc: Global,
    board: &Board<Post>,
    places: &mut Vec<Place>,
    scribe: &mut Scribe,
    log: bool,
    outputs: &mut O,
    formula: &Formula,
    settings: &Settings,
    gate: &G,
) -> Result<Outcome, Stop>
    requires range { AreInRange settings.now }
    requires formula { IsFormula formula.now }
    requires places { All (PlaceAt board.now formula.now settings.now (PartyAt board.now formula.now settings.now 0)) places.old.items }
    requires scribe { ScribeAt board.now formula.now settings.now log 0 scribe.old }
    requires runs { scribe.old.stop ≡ None }
    ensures outcome { IfOk result (λ outcome. outcome ≡ outcome_of formula.now settings.now) }
    ensures writes { WritesLog log (log_text formula.now settings.now) (O.told outputs.old) (O.told outputs.new) (without_outcome result) }
    ensures places { OnOk result (All (PlaceAt board.now formula.now settings.now (PartyDone board.now formula.now settings.now (last_era formula.now settings.now))) places.new.items) }
    ensures scribe { OnOk result (ScribeDone board.now formula.now settings.now (last_era formula.now settings.now) scribe.new) }
    ensures numbers { map numbers_at places.new.items ≡ map numbers_at places.old.items }
{
    for past in 0..settings.limit {
        match era_here(
            rt, alloc, board, places, scribe, log, outputs, formula, settings, past, gate,
        ) {
            Written::GoesOn => {}
            Written::Over(outcome) => return Ok(outcome),
            Written::Stopped(why) => return Err(why),
        }
    }
    unreachable!()
}

/// A run in a scope: its workers are started, the scribe does its eras, and the workers are joined. It may wait for ever.
fn run_in<'s, E, R: Threads + Wait + Sync, O: Outputs, G: Gate>(
    scope: &Scope<'s, E>,
    rt: &'s R,
    alloc: Global,
    board: &'s Board<Post>,
    groups: Vec<CachePadded<Vec<Party>>>,
    scribe: Scribe,
    formula: &'s Formula,
    settings: &'s Settings,
    log: bool,
    outputs: &mut O,
    gate: &'s G,
    flags: &'s [AtomicBool],
) -> Result<Ran, Stop>
    requires range { AreInRange settings.now }
    requires formula { IsFormula formula.now }
    requires parties { All (λ group. All (PartyAt board.now formula.now settings.now 0) (list_of group)) groups.items }
    requires scribe { ScribeAt board.now formula.now settings.now log 0 scribe }
    requires runs { scribe.stop ≡ None }
    ensures ran { IfOk result (HasRun board.now formula.now settings.now (map numbers_of (lists_of groups.items))) }
    ensures writes { WritesLog log (log_text formula.now settings.now) (O.told outputs.old) (O.told outputs.new) (without_value result) }
{
    let mut scribe = scribe;
    let mut places = begin_all(
        scope, rt, alloc, board, groups, formula, settings, gate, flags,
    )?;
    let outcome = work_here(
        rt,
        alloc,
        board,
        &mut places,
        &mut scribe,
        log,
        outputs,
        formula,
        settings,
        gate,
    )?;
    let groups = finish_all(rt, alloc, places, board, formula, settings)?;
    Ok(Ran {
        outcome,
        groups,
        scribe,
    })
}

/// So many flags, none of which is set.
fn flags_of(alloc: Global, count: usize) -> Result<Vec<AtomicBool>, NoMemory> {
    let mut flags = Vec::with_capacity(alloc, count)?;
    for _ in 0..count {
        flags.push(AtomicBool::new(false))?;
    }
    Ok(flags)
}

/// Does nothing, but this use of a returned reference ties it to the parameter that lent it.
fn take_back<T>(x: &mut T)
    ensures { x.new ≡ x.old }
{}

/// A run of these groups and this scribe, from the start of their threads to the end of all. It may wait for ever.
pub(crate) fn run_groups<R: Threads + Wait + Sync, O: Outputs, G: Gate>(
    rt: &R,
    alloc: Global,
    board: &Board<Post>,
    groups: Vec<CachePadded<Vec<Party>>>,
    scribe: Scribe,
    formula: &Formula,
    settings: &Settings,
    log: bool,
    outputs: &mut O,
    gate: &G,
) -> Result<Ran, Stop>
    requires range { AreInRange settings.now }
    requires formula { IsFormula formula.now }
    requires parties { All (λ group. All (PartyAt board.now formula.now settings.now 0) (list_of group)) groups.items }
    requires scribe { ScribeAt board.now formula.now settings.now log 0 scribe }
    requires runs { scribe.stop ≡ None }
    ensures ran { IfOk result (HasRun board.now formula.now settings.now (map numbers_of (lists_of groups.items))) }
    ensures writes { WritesLog log (log_text formula.now settings.now) (O.told outputs.old) (O.told outputs.new) (without_value result) }
{
    let flags = flags_of(alloc, groups.len())?;
    let flags = flags.as_slice();
    let (back, ran) = thread::scope(
        thread::scope_env(),
        rt,
        move |scope| -> (&mut O, Result<Ran, Stop>)
            requires { AreInRange settings.now × IsFormula formula.now
                × All (λ group. All (PartyAt board.now formula.now settings.now 0) (list_of group)) groups.items
                × ScribeAt board.now formula.now settings.now log 0 scribe × (scribe.stop ≡ None) }
            ensures { (result.0.ghost_name ≡ outputs.entry.ghost_name)
                × IfOk result.1 (HasRun board.entry.now formula.entry.now settings.entry.now (map numbers_of (lists_of groups.items)))
                × WritesLog log (log_text formula.entry.now settings.entry.now) (O.told outputs.entry.now) (O.told result.0.now) (without_value result.1) }
        {
            let ran = run_in(
                scope, rt, alloc, board, groups, scribe, formula, settings, log, outputs, gate,
                flags,
            );
            (outputs, ran)
        },
    );
    take_back(back);
    ran
}
