//! A worker: some cores of a board, and the thread that works for them from the first era to the last.
ghost use Rattle.std.specs.Prelude.{◌≡◌, ◌+◌, map, All, IfOk};
ghost use Rattle.lit_base.specs.Cnf.{IsFormula};
ghost use Rattle.solo_core.specs.First.{AreInRange};
ghost use Rattle.crew.specs.Run.{last_era};
ghost use Rattle.crew.specs.Turns.{IsEra};
ghost use Rattle.crew.specs.Groups.{list_of};
ghost use Rattle.crew.specs.Parties.{PartyAt, PartySent, PartyDone};
ghost use Rattle.crew.specs.Working.{joint_of, numbers_of, numbers_at, AllReceive, EndsWell, PlaceAt};

use crate::party::{Party, Step, receive, send};
use crate::post::Post;
use crossbeam_utils::CachePadded;
use desk_io::Gate;
use era_board::Board;
use lit_base::{Formula, NoMemory};
use solo_core::Settings;
use std::alloc::Global;
use std::marker::Sync;
use std::snapshot::Snapshot;
use std::sync::Wait;
use std::sync::atomic::{AtomicBool, Ordering};
use std::thread::{Promise, PromisedHandle, Scope, Threads};

/// How the work for some cores ends.
#[derive(Drop)]
pub(crate) enum Ended {
    /// It was not begun.
    Back(CachePadded<Vec<Party>>),
    /// The run is over.
    Done(CachePadded<Vec<Party>>),
    /// Memory was refused to a party, or the scribe has stopped.
    Stopped,
}

/// What the work for some cores is of. Contracts alone read it.
#[derive(Drop)]
pub(crate) struct Served {
    pub(crate) board: Snapshot<Board<Post>>,
    pub(crate) formula: Snapshot<Formula>,
    pub(crate) settings: Settings,
    pub(crate) group: Snapshot<CachePadded<Vec<Party>>>,
}

impl Promise<Ended> for Served {
    ghost kept_by = { λ p r. EndsWell p.board.value p.formula.value p.settings (list_of p.group.value) r };
}

/// Where some cores are.
#[derive(Drop)]
pub(crate) enum Place {
    /// A thread works for them.
    Away(PromisedHandle<Ended, Served>),
    /// The thread could not be started, so the caller's works for them.
    Here(CachePadded<Vec<Party>>),
    /// The run is over.
    Through(CachePadded<Vec<Party>>),
}

/// The first half of an era of some cores, one after the other.
fn send_each<G: Gate>(
    alloc: Global,
    board: &Board<Post>,
    parties: &mut [Party],
    formula: &Formula,
    settings: &Settings,
    past: u32,
    gate: &G,
)
    requires era { IsEra formula.now settings.now past }
    requires parties { All (PartyAt board.now formula.now settings.now past) parties.old }
    ensures sent { All (PartySent board.now formula.now settings.now past) parties.new }
    ensures numbers { numbers_of parties.new ≡ numbers_of parties.old }
{
    for i in 0..parties.len() {
        send(alloc, board, &mut parties[i], formula, settings, past, gate);
    }
}

/// How an era ended for some cores and for one more.
pub(crate) fn joint(came: Option<Step>, step: Step) -> Step
    ensures { result ≡ joint_of came step }
{
    match came {
        Some(before) => match before {
            Step::Broken => Step::Broken,
            Step::GoesOn | Step::Over => step,
        },
        None => step,
    }
}

/// The second half of an era of some cores; None if there are none. It may wait for ever.
fn receive_each<R: Wait>(
    rt: &R,
    board: &Board<Post>,
    parties: &mut [Party],
    formula: &Formula,
    settings: &Settings,
    past: u32,
) -> Option<Step>
    requires era { IsEra formula.now settings.now past }
    requires sent { All (PartySent board.now formula.now settings.now past) parties.old }
    ensures receives { AllReceive board.now formula.now settings.now past parties.new result }
    ensures numbers { numbers_of parties.new ≡ numbers_of parties.old }
{
    let mut came = None;
    for i in 0..parties.len() {
        let step = receive(rt, board, &mut parties[i], formula, settings, past);
        came = Some(joint(came, step));
    }
    came
}

/// The first half of an era of a group.
pub(crate) fn send_group<G: Gate>(
    alloc: Global,
    board: &Board<Post>,
    group: &mut CachePadded<Vec<Party>>,
    formula: &Formula,
    settings: &Settings,
    past: u32,
    gate: &G,
)
    requires era { IsEra formula.now settings.now past }
    requires parties { All (PartyAt board.now formula.now settings.now past) (list_of group.old) }
    ensures sent { All (PartySent board.now formula.now settings.now past) (list_of group.new) }
    ensures numbers { numbers_of (list_of group.new) ≡ numbers_of (list_of group.old) }
{
    send_each(
        alloc,
        board,
        group.as_mut_slice(),
        formula,
        settings,
        past,
        gate,
    );
}

/// The second half of an era of a group. It may wait for ever.
pub(crate) fn receive_group<R: Wait>(
    rt: &R,
    board: &Board<Post>,
    group: &mut CachePadded<Vec<Party>>,
    formula: &Formula,
    settings: &Settings,
    past: u32,
) -> Option<Step>
    requires era { IsEra formula.now settings.now past }
    requires sent { All (PartySent board.now formula.now settings.now past) (list_of group.old) }
    ensures receives { AllReceive board.now formula.now settings.now past (list_of group.new) result }
    ensures numbers { numbers_of (list_of group.new) ≡ numbers_of (list_of group.old) }
{
    receive_each(rt, board, group.as_mut_slice(), formula, settings, past)
}

/// Works for some cores, era by era, until the run is over. It may wait for ever.
fn serve<R: Wait, G: Gate>(
    rt: &R,
    alloc: Global,
    board: &Board<Post>,
    group: CachePadded<Vec<Party>>,
    formula: &Formula,
    settings: &Settings,
    gate: &G,
) -> Ended
    requires range { AreInRange settings.now }
    requires formula { IsFormula formula.now }
    requires parties { All (PartyAt board.now formula.now settings.now 0) (list_of group) }
    ensures { EndsWell board.now formula.now settings.now (list_of group) result }
{
    let mut group = group;
    for past in 0..settings.limit {
        send_group(alloc, board, &mut group, formula, settings, past, gate);
        match receive_group(rt, board, &mut group, formula, settings, past) {
            Some(step) => match step {
                Step::GoesOn => {}
                Step::Over => return Ended::Done(group),
                Step::Broken => return Ended::Stopped,
            },
            None => return Ended::Stopped,
        }
    }
    Ended::Stopped
}

/// Starts the thread that works for some cores, or keeps them where it can't be started.
pub(crate) fn begin<'s, E, R: Threads + Wait + Sync, G: Gate>(
    scope: &Scope<'s, E>,
    rt: &'s R,
    alloc: Global,
    board: &'s Board<Post>,
    group: CachePadded<Vec<Party>>,
    formula: &'s Formula,
    settings: &'s Settings,
    gate: &'s G,
    refused: &'s AtomicBool,
) -> Result<Place, NoMemory>
    requires range { AreInRange settings.now }
    requires formula { IsFormula formula.now }
    requires parties { All (PartyAt board.now formula.now settings.now 0) (list_of group) }
    ensures place { IfOk result (λ place. PlaceAt board.now formula.now settings.now (PartyAt board.now formula.now settings.now 0) place) }
    ensures numbers { IfOk result (λ place. numbers_at place ≡ numbers_of (list_of group)) }
{
    let promise = Served {
        board: Snapshot::of(board),
        formula: Snapshot::of(formula),
        settings: *settings,
        group: Snapshot::of(&group),
    };
    // A closure that is given back can only be called. The flag tells it not to begin.
    match scope.spawn_with(
        promise,
        move || -> Ended
            requires { AreInRange settings.now × IsFormula formula.now × All (PartyAt board.now formula.now settings.now 0) (list_of group) }
            ensures { EndsWell board.entry.now formula.entry.now settings.entry.now (list_of group) result }
        {
            if refused.load(Ordering::SeqCst) {
                return Ended::Back(group);
            }
            serve(rt, alloc, board, group, formula, settings, gate)
        },
    ) {
        Ok(handle) => Ok(Place::Away(handle)),
        Err(back) => {
            refused.store(true, Ordering::SeqCst);
            match (back.value)() {
                Ended::Back(group) => Ok(Place::Here(group)),
                Ended::Done(group) => Ok(Place::Through(group)),
                Ended::Stopped => Err(NoMemory),
            }
        }
    }
}

/// Waits for the thread that works for some cores, and gives them back after the run.
pub(crate) fn finish<R: Threads>(
    rt: &R,
    place: Place,
    _board: &Board<Post>,
    _formula: &Formula,
    _settings: &Settings,
) -> Result<CachePadded<Vec<Party>>, NoMemory>
    requires { PlaceAt _board.now _formula.now _settings.now (PartyDone _board.now _formula.now _settings.now (last_era _formula.now _settings.now)) place }
    ensures done { IfOk result (λ group. All (PartyDone _board.now _formula.now _settings.now (last_era _formula.now _settings.now)) (list_of group)) }
    ensures numbers { IfOk result (λ group. numbers_of (list_of group) ≡ numbers_at place) }
{
    match place {
        Place::Away(handle) => match handle.join(rt) {
            Ended::Done(group) => Ok(group),
            Ended::Back(_) | Ended::Stopped => Err(NoMemory),
        },
        Place::Here(group) | Place::Through(group) => Ok(group),
    }
}
