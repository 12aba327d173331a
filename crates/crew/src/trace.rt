//! The trace of a run: what each core did in each era.
ghost use Rattle.std.specs.Prelude.{◌≡◌, ◌≤◌, ◌<◌, ◌^◌, ◌++◌, length, All, OnOk, if◌then◌else◌};
ghost use Rattle.period_rule.specs.Period.{next_period};
ghost use Rattle.crew.specs.Era.{mails_in, is_over, largest_volume};
ghost use Rattle.crew.specs.Trace.{rows_of};

use lit_base::{List, NoMemory};
use period_rule::next_period;
use solo_core::{Mail, Sheet};

/// What a core did in an era.
///
/// `period` is the number of the era, from 1, and `core` that of the core, from 0. `conflicts` is how many conflicts the core
/// had in this period, from 0 to the limit. `volume` is how many clauses that are no originals it held at the period's end,
/// at most 10^12. `posted` is how many clauses it posted to the others, at most `conflicts`. `next` is how many conflicts it
/// may have in its next period, from 1 to twice the first period; in the last era, which no period follows, it is 0.
#[derive(Clone, Copy, Debug, PartialEq, Eq)]
pub struct TraceRow {
    pub period: u32,
    pub core: u32,
    pub conflicts: u32,
    pub volume: u64,
    pub posted: u32,
    pub next: u32,
}

/// Adds the rows of an era, from its sheets: of one that is over, or after which the cores go on by the largest volume.
pub(crate) fn add_rows(
    trace: &mut List<TraceRow>,
    sheets: &[Sheet],
    base: u32,
    over: bool,
    largest: u64,
) -> Result<(), NoMemory>
    requires base { (1 ≤ base) × (base ≤ 100000) }
    requires over { over ≡ is_over (mails_in sheets.now) }
    requires largest { largest ≡ largest_volume (mails_in sheets.now) }
    requires fits { largest ≤ 2 ^ 40 }
    requires few { All (λ sheet. length sheet.mail.posted < 2 ^ 32) sheets.now }
    ensures { OnOk result (trace.new ≡ trace.old ++ rows_of base (mails_in sheets.now)) }
{
    for sheet in sheets {
        trace.push(row_of(&sheet.mail, base, over, largest))?;
    }
    Ok(())
}

/// The row of a mail.
fn row_of(mail: &Mail, base: u32, over: bool, largest: u64) -> TraceRow
    requires base { (1 ≤ base) × (base ≤ 100000) }
    requires within { mail.now.volume ≤ largest }
    requires fits { largest ≤ 2 ^ 40 }
    requires few { length mail.now.posted < 2 ^ 32 }
    ensures { result ≡ record {
      period = mail.now.period;
      core = mail.now.core;
      conflicts = mail.now.conflicts;
      volume = mail.now.volume;
      posted = length mail.now.posted;
      next = if over then 0 else next_period base mail.now.volume largest;
    } }
{
    TraceRow {
        period: mail.period,
        core: mail.core,
        conflicts: mail.conflicts,
        volume: mail.volume,
        posted: mail.posted.len() as u32,
        next: if over {
            0
        } else {
            next_period(base, mail.volume, largest)
        },
    }
}
