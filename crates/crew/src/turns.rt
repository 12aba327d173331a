ghost use Rattle.std.specs.Prelude.{◌≡◌, ◌<◌, map, All, IfOk, OnOk};
ghost use Rattle.lit_base.specs.Cnf.{IsFormula};
ghost use Rattle.solo_core.specs.First.{AreInRange};
ghost use Rattle.crew.specs.Run.{first_member, first_quota, members_at};
ghost use Rattle.crew.specs.Log.{log_text};
ghost use Rattle.crew.specs.Outcome.{outcome_of};
ghost use Rattle.crew.specs.Groups.{AreEach};
ghost use Rattle.crew.specs.Turns.{MayWork, HasWorked, Stretches, without_outcome, WritesLog, begun};

use crate::era::{end_era, stretch_all};
use crate::logged::Logged;
use crate::outcome::Outcome;
use crate::searcher::Searcher;
use desk_io::{NoGate, Outputs};
use lit_base::{Formula, List, NoMemory};
use log_merge::{Numbers, Stop};
use solo_core::{Core, Settings};
use std::alloc::Global;

/// Runs the cores in turn on the caller's thread, and where `log` is true writes the log to its port.
///
/// Each setting is in its range. `WriteFault` says that the log could not be written, and `NoMemory` that
/// memory ran out; a front of the log has then been written. Where `log` is false the outputs stay as they
/// are.
pub fn run_turns<O: Outputs>(
    alloc: Global,
    formula: &Formula,
    settings: &Settings,
    log: bool,
    outputs: &mut O,
) -> Result<Outcome, Stop>
    requires { AreInRange settings.now }
    ensures outcome { IfOk result (λ outcome. outcome ≡ outcome_of formula.now settings.now) }
    ensures writes { WritesLog log (log_text formula.now settings.now) (O.told outputs.old) (O.told outputs.new) (without_outcome result) }
{
    let mut searchers = make_all(alloc, formula, settings)?;
    run_eras(
        alloc,
        &mut searchers,
        formula,
        settings,
        log,
        outputs,
        |searchers: &mut Vec<Searcher>, past: u32| -> Result<(), NoMemory>
            requires { All MayWork searchers.old.items }
            ensures { OnOk result (AreEach HasWorked searchers.old.items searchers.new.items) }
        {
            stretch_all(searchers.as_mut_slice(), &NoGate);
            Ok(())
        },
    )
}

/// The eras of a run, up to one that ends it, from the cores at its start. `stretch` makes the stretches of an era, and is told how many are past.
pub(crate) fn run_eras<O: Outputs, F: Fn(&mut Vec<Searcher>, u32) -> Result<(), NoMemory>>(
    alloc: Global,
    searchers: &mut Vec<Searcher>,
    formula: &Formula,
    settings: &Settings,
    log: bool,
    outputs: &mut O,
    stretch: F,
) -> Result<Outcome, Stop>
    requires settings { AreInRange settings.now }
    requires begun { searchers.old.items ≡ map begun (members_at formula.now settings.now 0) }
    requires stretches { Stretches formula.now settings.now (F.pre stretch) (F.post stretch) }
    ensures outcome { IfOk result (λ outcome. outcome ≡ outcome_of formula.now settings.now) }
    ensures writes { WritesLog log (log_text formula.now settings.now) (O.told outputs.old) (O.told outputs.new) (without_outcome result) }
{
    let mut logged = Logged {
        numbers: Numbers::new(alloc, formula.len() as u64, settings.cores),
        lemmas: 0,
        trace: List::new(alloc),
    };
    for past in 0..settings.limit {
        stretch(searchers, past)?;
        let ended = end_era(
            alloc,
            searchers.as_mut_slice(),
            &mut logged,
            log,
            formula,
            settings,
            past,
            outputs,
        )?;
        if let Some(outcome) = ended {
            return Ok(outcome);
        }
    }
    unreachable!()
}

/// The core of this number at the start of the run.
pub(crate) fn make_one(
    alloc: Global,
    formula: &Formula,
    settings: &Settings,
    number: u32,
) -> Result<Searcher, NoMemory>
    requires range { AreInRange settings.now }
    requires number { number < settings.now.cores }
    ensures { IfOk result (λ searcher. searcher ≡ begun (first_member formula.now settings.now number)) }
{
    Ok(Searcher {
        number,
        core: Core::make(alloc, formula, settings, number)?,
        quota: settings.period,
    })
}

/// The cores at the start of the run.
pub(crate) fn make_all(
    alloc: Global,
    formula: &Formula,
    settings: &Settings,
) -> Result<Vec<Searcher>, NoMemory>
    requires { AreInRange settings.now }
    ensures { IfOk result (λ searchers. searchers.items ≡ map begun (members_at formula.now settings.now 0)) }
{
    let mut searchers = Vec::with_capacity(alloc, settings.cores as usize)?;
    for number in 0..settings.cores {
        searchers.push(make_one(alloc, formula, settings, number)?)?;
    }
    Ok(searchers)
}
