//! From the passes of a board to its parties, and back after the run.
ghost use Rattle.std.specs.Prelude.{◌≡◌, ◌+◌, ◌++◌, ◌∷◌, [], ℕ, ◌<◌, ◌≤◌, List, None, Some, length, map, slice_get, All, IfOk, OnOk};
ghost use Rattle.lit_base.specs.Cnf.{IsFormula};
ghost use Rattle.solo_core.specs.First.{AreInRange};
ghost use Rattle.crew.specs.Groups.{AreDealt, lists_of};
ghost use Rattle.crew.specs.Parties.{PassOf, PartyAt, number_of};
ghost use Rattle.crew.specs.Scribing.{ScribeAt};
ghost use Rattle.crew.specs.declared.party.Party.{Party};
ghost use Rattle.crew.specs.Passes.{IsMadeFor, ArePassesOf, IsReady, pass_of};

use crate::dealing::{deal, gather};
use crate::logged::Logged;
use crate::party::Party;
use crate::post::{Brief, Post};
use crate::scribe::Scribe;
use crate::turns::make_one;
use crossbeam_utils::CachePadded;
use era_board::{Board, Pass};
use lit_base::{Formula, List, NoMemory};
use log_merge::Numbers;
use solo_core::Settings;
use std::alloc::Global;
use std::snapshot::Snapshot;

/// The board of a run, with a party for each core and one for the scribe, and its passes in their order.
///
/// Its occasion is the formula, of which nothing is copied, and the settings. Each setting is in its range.
pub fn make_board(
    alloc: Global,
    formula: &Formula,
    settings: &Settings,
) -> Result<(Board<Post>, Vec<Pass<Post>>), NoMemory>
    requires { AreInRange settings.now }
    ensures { IfOk result (λ made. ArePassesOf made.0 formula.now settings.now made.1.items) }
{
    let brief = Brief {
        formula: Snapshot::of(formula),
        settings: *settings,
    };
    let made = Board::make(alloc, settings.cores + 1, &brief)?;
    Ok(made)
}

/// What a run on a board begins with, and room for what it leaves.
#[derive(Drop)]
pub(crate) struct Ready {
    /// The cores, dealt to the workers.
    pub(crate) groups: Vec<CachePadded<Vec<Party>>>,
    pub(crate) scribe: Scribe,
    /// Empty, with room for the cores.
    pub(crate) parties: Vec<Party>,
    /// Empty, with room for all passes.
    pub(crate) passes: Vec<Pass<Post>>,
}

/// The scribe at the start of a run, with room for the sheets of an era.
fn scribe_of(
    alloc: Global,
    pass: Pass<Post>,
    _board: &Board<Post>,
    formula: &Formula,
    settings: &Settings,
    _log: bool,
) -> Result<Scribe, NoMemory>
    requires parties { _board.now.parties ≡ settings.now.cores + 1 }
    requires pass { IsMadeFor _board.now formula.now settings.now settings.now.cores pass }
    ensures formula { IfOk result (λ _. IsFormula formula.now) }
    ensures scribe { IfOk result (λ scribe. ScribeAt _board.now formula.now settings.now _log 0 scribe) }
    ensures runs { IfOk result (λ scribe. scribe.stop ≡ None) }
    ensures pass { IfOk result (λ scribe. scribe.pass ≡ pass) }
{
    Ok(Scribe {
        pass,
        logged: Logged {
            numbers: Numbers::new(alloc, formula.len() as u64, settings.cores),
            lemmas: 0,
            trace: List::new(alloc),
        },
        sheets: Vec::with_capacity(alloc, settings.cores as usize)?,
        stop: None,
    })
}

/// The core of a pass at the start of a run, with room for the mails of an era.
fn party_of(
    alloc: Global,
    pass: Pass<Post>,
    _board: &Board<Post>,
    formula: &Formula,
    settings: &Settings,
    _number: u32,
) -> Result<Party, NoMemory>
    requires range { AreInRange settings.now }
    requires parties { _board.now.parties ≡ settings.now.cores + 1 }
    requires core { _number < settings.now.cores }
    requires pass { IsMadeFor _board.now formula.now settings.now _number pass }
    ensures party { IfOk result (λ party. PartyAt _board.now formula.now settings.now 0 party) }
    ensures pass { IfOk result (λ party. party.pass ≡ pass) }
{
    let core = pass.number();
    let searcher = make_one(alloc, formula, settings, core)?;
    let mails = Vec::with_capacity(alloc, settings.cores as usize)?;
    Ok(Party {
        searcher,
        pass,
        own: None,
        mails,
        is_broken: false,
    })
}

/// The cores of the passes, in their order, at the start of a run.
fn parties_of(
    alloc: Global,
    passes: Vec<Pass<Post>>,
    board: &Board<Post>,
    formula: &Formula,
    settings: &Settings,
) -> Result<Vec<Party>, NoMemory>
    requires range { AreInRange settings.now }
    requires parties { board.now.parties ≡ settings.now.cores + 1 }
    requires all { length passes.items ≡ settings.now.cores }
    requires each { (i : ℕ) → (pass : PassOf) → slice_get passes.items i ≡ Some pass → IsMadeFor board.now formula.now settings.now i pass }
    ensures parties { IfOk result (λ parties. All (PartyAt board.now formula.now settings.now 0) parties.items) }
    ensures passes { IfOk result (λ parties. map pass_of parties.items ≡ passes.items) }
{
    let mut parties = Vec::with_capacity(alloc, passes.len())?;
    for pass in passes {
        let number = parties.len() as u32;
        parties.push(party_of(alloc, pass, board, formula, settings, number)?)?;
    }
    Ok(parties)
}

/// Makes a scribe of the last pass and a core of each other one, and deals the cores in turn to so many workers, or to one each
/// where there are fewer cores.
pub(crate) fn prepare(
    alloc: Global,
    passes: Vec<Pass<Post>>,
    board: &Board<Post>,
    formula: &Formula,
    settings: &Settings,
    workers: u32,
    log: bool,
) -> Result<Ready, NoMemory>
    requires range { AreInRange settings.now }
    requires workers { 1 ≤ workers }
    requires passes { ArePassesOf board.now formula.now settings.now passes.items }
    ensures { IfOk result (IsReady board.now formula.now settings.now log passes.items) }
{
    let room = room_for(alloc, passes.len())?;
    let mut passes = passes;
    let Some(last) = passes.pop() else {
        unreachable!();
    };
    let scribe = scribe_of(alloc, last, board, formula, settings, log)?;
    let mut parties = parties_of(alloc, passes, board, formula, settings)?;
    let groups = deal(alloc, &mut parties, workers.min(settings.cores) as usize)?;
    Ok(Ready {
        groups,
        scribe,
        parties,
        passes: room,
    })
}

/// An empty list with room for so many passes.
fn room_for(alloc: Global, count: usize) -> Result<Vec<Pass<Post>>, NoMemory>
    ensures { IfOk result (λ passes. passes.items ≡ []) }
{
    Ok(Vec::with_capacity(alloc, count)?)
}

/// Gives the passes of the cores back, and behind them the scribe's. No memory is taken where the list has the room.
fn give_back(
    passes: &mut Vec<Pass<Post>>,
    parties: Vec<Party>,
    scribe: Scribe,
) -> Result<(), NoMemory>
    requires { passes.old.items ≡ [] }
    ensures { OnOk result (passes.new.items ≡ map pass_of parties.items ++ scribe.pass ∷ []) }
{
    for party in parties {
        passes.push(party.pass)?;
    }
    passes.push(scribe.pass)?;
    Ok(())
}

/// Gathers so many cores that were dealt to the groups, and gives their passes and behind them the scribe's. No memory is taken
/// where the lists, which are empty, have the room.
pub(crate) fn hand_back(
    groups: Vec<CachePadded<Vec<Party>>>,
    scribe: Scribe,
    parties: Vec<Party>,
    passes: Vec<Pass<Post>>,
    cores: u32,
) -> Result<Vec<Pass<Post>>, NoMemory>
    requires some { 1 ≤ length groups.items }
    requires parties { parties.items ≡ [] }
    requires passes { passes.items ≡ [] }
    ensures { IfOk result (λ given. (dealt : List Party) → length dealt ≡ cores → AreDealt 0 dealt (lists_of groups.items) → given.items ≡ map pass_of dealt ++ scribe.pass ∷ []) }
{
    let mut groups = groups;
    let mut parties = parties;
    let mut passes = passes;
    gather(groups.as_mut_slice(), &mut parties, cores as usize)?;
    give_back(&mut passes, parties, scribe)?;
    Ok(passes)
}
