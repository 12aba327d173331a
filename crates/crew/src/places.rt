//! The workers of a run, as the caller's thread sees them: it starts their threads, does the work of those whose thread could
//! not be started, era by era, and waits for the others at the end.
ghost use Rattle.std.specs.Prelude.{◌≡◌, ◌+◌, map, All, IfOk};
ghost use Rattle.lit_base.specs.Cnf.{IsFormula};
ghost use Rattle.solo_core.specs.First.{AreInRange};
ghost use Rattle.crew.specs.Run.{last_era};
ghost use Rattle.crew.specs.Groups.{list_of, lists_of};
ghost use Rattle.crew.specs.Turns.{IsEra};
ghost use Rattle.crew.specs.Parties.{PartyAt, PartySent, PartyDone};
ghost use Rattle.crew.specs.Working.{numbers_of, numbers_at, PlaceAt};
ghost use Rattle.crew.specs.Places.{joint_place, PlaceReceives, PlacesReceive};

use crate::party::{Party, Step};
use crate::post::Post;
use crate::worker::{Place, begin, finish, joint, receive_group, send_group};
use crossbeam_utils::CachePadded;
use desk_io::Gate;
use era_board::Board;
use lit_base::{Formula, NoMemory};
use solo_core::Settings;
use std::alloc::Global;
use std::marker::Sync;
use std::sync::Wait;
use std::sync::atomic::AtomicBool;
use std::thread::{Scope, Threads};

/// Starts a worker for each group. Each needs a flag of its own, which tells that its thread could not be started.
pub(crate) fn begin_all<'s, E, R: Threads + Wait + Sync, G: Gate>(
    scope: &Scope<'s, E>,
    rt: &'s R,
    alloc: Global,
    board: &'s Board<Post>,
    groups: Vec<CachePadded<Vec<Party>>>,
    formula: &'s Formula,
    settings: &'s Settings,
    gate: &'s G,
    flags: &'s [AtomicBool],
) -> Result<Vec<Place>, NoMemory>
    requires range { AreInRange settings.now }
    requires formula { IsFormula formula.now }
    requires parties { All (λ group. All (PartyAt board.now formula.now settings.now 0) (list_of group)) groups.items }
    ensures places { IfOk result (λ places. All (PlaceAt board.now formula.now settings.now (PartyAt board.now formula.now settings.now 0)) places.items) }
    ensures numbers { IfOk result (λ places. map numbers_at places.items ≡ map numbers_of (lists_of groups.items)) }
{
    let mut places = Vec::with_capacity(alloc, groups.len())?;
    for group in groups {
        let Some(refused) = flags.get(places.len()) else {
            return Err(NoMemory);
        };
        let place = begin(
            scope, rt, alloc, board, group, formula, settings, gate, refused,
        )?;
        places.push(place)?;
    }
    Ok(places)
}

/// The first half of an era at one place, where the caller's thread works for its cores.
fn send_place<G: Gate>(
    alloc: Global,
    board: &Board<Post>,
    place: &mut Place,
    formula: &Formula,
    settings: &Settings,
    past: u32,
    gate: &G,
)
    requires era { IsEra formula.now settings.now past }
    requires place { PlaceAt board.now formula.now settings.now (PartyAt board.now formula.now settings.now past) place.old }
    ensures place { PlaceAt board.now formula.now settings.now (PartySent board.now formula.now settings.now past) place.new }
    ensures numbers { numbers_at place.new ≡ numbers_at place.old }
{
    match place {
        Place::Here(group) => send_group(alloc, board, group, formula, settings, past, gate),
        Place::Away(_) | Place::Through(_) => {}
    }
}

/// The first half of an era at all places.
fn send_places<G: Gate>(
    alloc: Global,
    board: &Board<Post>,
    places: &mut [Place],
    formula: &Formula,
    settings: &Settings,
    past: u32,
    gate: &G,
)
    requires era { IsEra formula.now settings.now past }
    requires places { All (PlaceAt board.now formula.now settings.now (PartyAt board.now formula.now settings.now past)) places.old }
    ensures places { All (PlaceAt board.now formula.now settings.now (PartySent board.now formula.now settings.now past)) places.new }
    ensures numbers { map numbers_at places.new ≡ map numbers_at places.old }
{
    for i in 0..places.len() {
        send_place(alloc, board, &mut places[i], formula, settings, past, gate);
    }
}

/// The first half of an era of all cores for which the caller's thread works.
pub(crate) fn send_here<G: Gate>(
    alloc: Global,
    board: &Board<Post>,
    places: &mut Vec<Place>,
    formula: &Formula,
    settings: &Settings,
    past: u32,
    gate: &G,
)
    requires era { IsEra formula.now settings.now past }
    requires places { All (PlaceAt board.now formula.now settings.now (PartyAt board.now formula.now settings.now past)) places.old.items }
    ensures places { All (PlaceAt board.now formula.now settings.now (PartySent board.now formula.now settings.now past)) places.new.items }
    ensures numbers { map numbers_at places.new.items ≡ map numbers_at places.old.items }
{
    send_places(
        alloc,
        board,
        places.as_mut_slice(),
        formula,
        settings,
        past,
        gate,
    );
}

/// The second half of an era at one place; None where the caller's thread works for none of its cores. It may wait for ever.
fn receive_place<R: Wait>(
    rt: &R,
    board: &Board<Post>,
    place: &mut Place,
    formula: &Formula,
    settings: &Settings,
    past: u32,
) -> Option<Step>
    requires era { IsEra formula.now settings.now past }
    requires place { PlaceAt board.now formula.now settings.now (PartySent board.now formula.now settings.now past) place.old }
    ensures receives { PlaceReceives board.now formula.now settings.now past place.new result }
    ensures numbers { numbers_at place.new ≡ numbers_at place.old }
{
    match place {
        Place::Here(group) => match receive_group(rt, board, group, formula, settings, past) {
            Some(step) => Some(step),
            None => Some(Step::Broken),
        },
        Place::Away(_) | Place::Through(_) => None,
    }
}

/// How an era ended at some places and at one more.
fn joint_places(came: Option<Step>, step: Option<Step>) -> Option<Step>
    ensures { result ≡ joint_place came step }
{
    match step {
        Some(step) => Some(joint(came, step)),
        None => came,
    }
}

/// The second half of an era at all places; None where the caller's thread works for no cores. It may wait for ever.
fn receive_places<R: Wait>(
    rt: &R,
    board: &Board<Post>,
    places: &mut [Place],
    formula: &Formula,
    settings: &Settings,
    past: u32,
) -> Option<Step>
    requires era { IsEra formula.now settings.now past }
    requires places { All (PlaceAt board.now formula.now settings.now (PartySent board.now formula.now settings.now past)) places.old }
    ensures receives { PlacesReceive board.now formula.now settings.now past places.new result }
    ensures numbers { map numbers_at places.new ≡ map numbers_at places.old }
{
    let mut came = None;
    for i in 0..places.len() {
        let step = receive_place(rt, board, &mut places[i], formula, settings, past);
        came = joint_places(came, step);
    }
    came
}

/// The second half of an era of all cores for which the caller's thread works; None if there are none. It may wait for ever.
pub(crate) fn receive_here<R: Wait>(
    rt: &R,
    board: &Board<Post>,
    places: &mut Vec<Place>,
    formula: &Formula,
    settings: &Settings,
    past: u32,
) -> Option<Step>
    requires era { IsEra formula.now settings.now past }
    requires places { All (PlaceAt board.now formula.now settings.now (PartySent board.now formula.now settings.now past)) places.old.items }
    ensures receives { PlacesReceive board.now formula.now settings.now past places.new.items result }
    ensures numbers { map numbers_at places.new.items ≡ map numbers_at places.old.items }
{
    receive_places(rt, board, places.as_mut_slice(), formula, settings, past)
}

/// Waits for all threads after the run, and gives the groups back in their order.
pub(crate) fn finish_all<R: Threads>(
    rt: &R,
    alloc: Global,
    places: Vec<Place>,
    board: &Board<Post>,
    formula: &Formula,
    settings: &Settings,
) -> Result<Vec<CachePadded<Vec<Party>>>, NoMemory>
    requires places { All (PlaceAt board.now formula.now settings.now (PartyDone board.now formula.now settings.now (last_era formula.now settings.now))) places.items }
    ensures groups { IfOk result (λ groups. All (λ group. All (PartyDone board.now formula.now settings.now (last_era formula.now settings.now)) (list_of group)) groups.items) }
    ensures numbers { IfOk result (λ groups. map numbers_of (lists_of groups.items) ≡ map numbers_at places.items) }
{
    let mut groups = Vec::with_capacity(alloc, places.len())?;
    for place in places {
        groups.push(finish(rt, place, board, formula, settings)?)?;
    }
    Ok(groups)
}
