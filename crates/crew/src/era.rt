//! An era of the cores.
ghost use Rattle.std.specs.Prelude.{◌≡◌, ◌+◌, ◌<◌, true, false, map, All, Some, None, IfOk, OnOk, if◌then◌else◌};
ghost use Rattle.crew.specs.Era.{is_over, largest_volume};
ghost use Rattle.crew.specs.Run.{members_at, mails_at, sheets_at};
ghost use Rattle.crew.specs.Outcome.{outcome_at};
ghost use Rattle.crew.specs.Groups.{AreEach};
ghost use Rattle.crew.specs.Turns.{IsEra, MayWork, HasWorked, HaveWorked, WritesLog, era_text, begun, at_rest, logged_before, logged_at, without_answer};

use crate::logged::{Logged, log_era};
use crate::outcome::{Outcome, outcome_from};
use crate::searcher::{Searcher, import_one, sheet_one, stretch_one};
use crate::sheets::{is_over, largest_volume, mails_in};
use crate::trace::add_rows;
use desk_io::{Gate, Outputs};
use lit_base::{Formula, List, NoMemory};
use log_merge::Stop;
use solo_core::{Settings, Sheet};
use std::alloc::Global;
use std::mem;

/// Makes the stretch of each core, one after the other. A core to which memory is refused is broken.
pub(crate) fn stretch_all<G: Gate>(searchers: &mut [Searcher], gate: &G)
    requires { All MayWork searchers.old }
    ensures { AreEach HasWorked searchers.old searchers.new }
{
    for i in 0..searchers.len() {
        stretch_one(&mut searchers[i], gate);
    }
}

/// What each core leaves of an era, if none is broken.
fn take_sheets(
    alloc: Global,
    searchers: &mut [Searcher],
    formula: &Formula,
    settings: &Settings,
    past: u32,
) -> Result<Vec<Sheet>, NoMemory>
    requires worked { HaveWorked formula.now settings.now past searchers.old }
    ensures sheets { IfOk result (λ sheets. sheets.items ≡ sheets_at formula.now settings.now past) }
    ensures rest { OnOk result (searchers.new ≡ map at_rest (members_at formula.now settings.now past)) }
{
    let mut sheets = Vec::with_capacity(alloc, searchers.len())?;
    for i in 0..searchers.len() {
        sheets.push(sheet_one(&mut searchers[i], i, formula, settings, past)?)?;
    }
    Ok(sheets)
}

/// Brings all cores to the next era. `largest` is how much the fullest of them holds.
fn import_all(
    alloc: Global,
    searchers: &mut [Searcher],
    sheets: Vec<Sheet>,
    largest: u64,
    formula: &Formula,
    settings: &Settings,
    past: u32,
) -> Result<(), NoMemory>
    requires era { IsEra formula.now settings.now past }
    requires goes_on { is_over (mails_at formula.now settings.now past) ≡ false }
    requires rest { searchers.old ≡ map at_rest (members_at formula.now settings.now past) }
    requires sheets { sheets.items ≡ sheets_at formula.now settings.now past }
    requires largest { largest ≡ largest_volume (mails_at formula.now settings.now past) }
    ensures { OnOk result (searchers.new ≡ map begun (members_at formula.now settings.now (past + 1))) }
{
    let mut mails = mails_in(alloc, sheets)?;
    for i in 0..searchers.len() {
        import_one(
            &mut searchers[i],
            &mut mails,
            i,
            largest,
            formula,
            settings,
            past,
        )?;
    }
    Ok(())
}

/// Adds the sheets of an era to the log and to the trace, and gives the outcome where the run is over; then the sheets are
/// used up, else they stay.
pub(crate) fn conclude<O: Outputs>(
    alloc: Global,
    logged: &mut Logged,
    sheets: &mut Vec<Sheet>,
    log: bool,
    formula: &Formula,
    settings: &Settings,
    past: u32,
    outputs: &mut O,
) -> Result<Option<Outcome>, Stop>
    requires era { IsEra formula.now settings.now past }
    requires sheets { sheets.old.items ≡ sheets_at formula.now settings.now past }
    requires logged { logged.old ≡ logged_before formula.now settings.now log past }
    ensures outcome { IfOk result (λ outcome. outcome ≡ (if is_over (mails_at formula.now settings.now past) then Some (outcome_at formula.now settings.now past) else None)) }
    ensures sheets { OnOk result (is_over (mails_at formula.now settings.now past) ≡ false → sheets.new.items ≡ sheets_at formula.now settings.now past) }
    ensures logged { OnOk result (is_over (mails_at formula.now settings.now past) ≡ false → logged.new ≡ logged_before formula.now settings.now log (past + 1)) }
    ensures writes { WritesLog log (era_text formula.now settings.now past) (O.told outputs.old) (O.told outputs.new) (without_answer result) }
{
    log_era(
        alloc,
        logged,
        sheets.as_slice(),
        log,
        formula,
        settings,
        past,
        outputs,
    )?;
    let over = is_over(sheets.as_slice());
    let largest = largest_volume(sheets.as_slice());
    add_rows(
        &mut logged.trace,
        sheets.as_slice(),
        settings.period,
        over,
        largest,
    )?;
    if over {
        let trace = mem::replace(&mut logged.trace, List::new(alloc));
        let sheets = mem::replace(sheets, Vec::new(alloc));
        return Ok(Some(outcome_from(past + 1, logged.lemmas, trace, sheets)));
    }
    Ok(None)
}

/// Ends an era in which each core has made its stretch: its part of the log is written, its rows are added to the trace, and
/// either the run is over and has this outcome, or the cores are brought to the next era.
pub(crate) fn end_era<O: Outputs>(
    alloc: Global,
    searchers: &mut [Searcher],
    logged: &mut Logged,
    log: bool,
    formula: &Formula,
    settings: &Settings,
    past: u32,
    outputs: &mut O,
) -> Result<Option<Outcome>, Stop>
    requires era { IsEra formula.now settings.now past }
    requires worked { HaveWorked formula.now settings.now past searchers.old }
    requires logged { logged.old ≡ logged_before formula.now settings.now log past }
    ensures outcome { IfOk result (λ outcome. outcome ≡ (if is_over (mails_at formula.now settings.now past) then Some (outcome_at formula.now settings.now past) else None)) }
    ensures next { OnOk result (is_over (mails_at formula.now settings.now past) ≡ false → searchers.new ≡ map begun (members_at formula.now settings.now (past + 1))) }
    ensures logged { OnOk result (is_over (mails_at formula.now settings.now past) ≡ false → logged.new ≡ logged_before formula.now settings.now log (past + 1)) }
    ensures writes { WritesLog log (era_text formula.now settings.now past) (O.told outputs.old) (O.told outputs.new) (without_answer result) }
{
    let mut sheets = take_sheets(alloc, searchers, formula, settings, past)?;
    let ended = conclude(
        alloc,
        logged,
        &mut sheets,
        log,
        formula,
        settings,
        past,
        outputs,
    )?;
    if let Some(outcome) = ended {
        return Ok(Some(outcome));
    }
    let largest = largest_volume(sheets.as_slice());
    import_all(alloc, searchers, sheets, largest, formula, settings, past)?;
    Ok(None)
}
