//! The log, part by part.
ghost use Rattle.std.specs.Prelude.{◌≡◌, ◌+◌, ◌<◌, ◌≤◌, ◌^◌, length, map, IfOk, OnOk, if◌then◌else◌, []};
ghost use Rattle.log_merge.specs.Numbering.{lemmas_in};
ghost use Rattle.log_merge.specs.Part.{part_text, AllHaveNumbers};
ghost use Rattle.log_merge.specs.Writing.{WritesPart};
ghost use Rattle.crew.specs.Run.{sheets_at};
ghost use Rattle.crew.specs.Log.{stands, standing_parts, joined};
ghost use Rattle.crew.specs.Turns.{IsEra, WritesLog, era_text, logged_before, logged_at};

use crate::sheets::{standing_part, winner_in};
use crate::trace::TraceRow;
use desk_io::Outputs;
use lit_base::{Formula, List, NoMemory};
use log_merge::{Numbers, Stop, write_part};
use solo_core::{Settings, Sheet};
use std::alloc::Global;

/// What is kept of the eras past: of the log the numbers of its lemmas, where it is wanted, and how many lemmas there are; and
/// the rows of the trace.
#[derive(Drop)]
pub(crate) struct Logged {
    pub(crate) numbers: Numbers,
    pub(crate) lemmas: u64,
    pub(crate) trace: List<TraceRow>,
}

/// Adds to the log what stands of an era, from its sheets, and writes it where the log is wanted.
pub(crate) fn log_era<O: Outputs>(
    alloc: Global,
    logged: &mut Logged,
    sheets: &[Sheet],
    log: bool,
    formula: &Formula,
    settings: &Settings,
    past: u32,
    outputs: &mut O,
) -> Result<(), Stop>
    requires era { IsEra formula.now settings.now past }
    requires sheets { sheets.now ≡ sheets_at formula.now settings.now past }
    requires logged { logged.old ≡ logged_before formula.now settings.now log past }
    ensures logged { OnOk result (logged.new ≡ logged_at formula.now settings.now log past) }
    ensures writes { WritesLog log (era_text formula.now settings.now past) (O.told outputs.old) (O.told outputs.new) result }
{
    let winner = winner_in(sheets);
    logged.lemmas += count_standing(sheets, winner);
    if !log {
        return Ok(());
    }
    let counts = counts_of(alloc, sheets, winner)?;
    logged.numbers.end_period(counts.as_slice())?;
    write_parts(alloc, &logged.numbers, sheets, winner, outputs)
}

/// How many lemmas of an era stand in the log.
fn count_standing(sheets: &[Sheet], winner: Option<u32>) -> u64
    requires { length (joined (standing_parts winner sheets.now)) < 2 ^ 63 }
    ensures { result ≡ length (joined (standing_parts winner sheets.now)) }
{
    let mut count = 0;
    for sheet in sheets {
        count += standing_part(sheet, winner).len() as u64;
    }
    count
}

/// How many lemmas of each core stand in the log of an era.
fn counts_of(alloc: Global, sheets: &[Sheet], winner: Option<u32>) -> Result<Vec<u64>, NoMemory>
    ensures { IfOk result (λ counts. counts.items ≡ map length (standing_parts winner sheets.now)) }
{
    let mut counts = Vec::with_capacity(alloc, sheets.len())?;
    for sheet in sheets {
        counts.push(standing_part(sheet, winner).len() as u64)?;
    }
    Ok(counts)
}

/// Writes the parts of an era that stand, core by core.
fn write_parts<O: Outputs>(
    alloc: Global,
    numbers: &Numbers,
    sheets: &[Sheet],
    winner: Option<u32>,
    outputs: &mut O,
) -> Result<(), Stop>
    requires { AllHaveNumbers numbers.now (joined (standing_parts winner sheets.now)) }
    ensures { WritesPart (part_text numbers.now (joined (standing_parts winner sheets.now))) (O.told outputs.old) (O.told outputs.new) result }
{
    for sheet in sheets {
        write_standing(alloc, numbers, sheet, winner, outputs)?;
    }
    Ok(())
}

/// Writes the lemmas of a sheet, where they stand. Where there are none no memory is taken.
fn write_standing<O: Outputs>(
    alloc: Global,
    numbers: &Numbers,
    sheet: &Sheet,
    winner: Option<u32>,
    outputs: &mut O,
) -> Result<(), Stop>
    requires { AllHaveNumbers numbers.now (if stands winner sheet.now.mail.core then sheet.now.lemmas else []) }
    ensures { WritesPart (part_text numbers.now (if stands winner sheet.now.mail.core then sheet.now.lemmas else [])) (O.told outputs.old) (O.told outputs.new) result }
{
    let part = standing_part(sheet, winner);
    if part.is_empty() {
        return Ok(());
    }
    write_part(alloc, numbers, part, outputs)
}
