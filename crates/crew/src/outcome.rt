ghost use Rattle.std.specs.Prelude.{◌≡◌};
ghost use Rattle.crew.specs.Outcome.{verdict_at, outcome_from};

use crate::sheets::winning_sheet;
use crate::trace::TraceRow;
use lit_base::{List, Model};
use solo_core::{End, Sheet};

/// What a run says of its formula.
#[derive(Clone, Copy, Debug, PartialEq, Eq)]
pub enum Verdict {
    /// A model satisfies it.
    Sat,
    /// No model satisfies it.
    Unsat,
    /// Each core has had all conflicts that it may have.
    Unknown,
}

/// What a run comes to.
///
/// `eras` is the number of its eras, from 1. `winner` is the number of the core whose answer the verdict
/// is, None at `Unknown`. `model` is there exactly where the verdict is `Sat`. `lemmas` is the number of
/// lines of the log. `trace` has a row for each core and era: era by era, and in each era by the cores' numbers.
#[derive(Debug, Drop)]
pub struct Outcome {
    pub verdict: Verdict,
    pub eras: u32,
    pub winner: Option<u32>,
    pub model: Option<Model>,
    pub lemmas: u64,
    pub trace: List<TraceRow>,
}

/// The outcome of a run of so many eras, with so many lemmas in its log and this trace, whose last era left these sheets.
pub(crate) fn outcome_from(
    eras: u32,
    lemmas: u64,
    trace: List<TraceRow>,
    sheets: Vec<Sheet>,
) -> Outcome
    ensures { result ≡ outcome_from eras lemmas trace sheets.items }
{
    match winning_sheet(sheets) {
        Some(sheet) => Outcome {
            verdict: verdict_at(sheet.mail.end),
            eras,
            winner: Some(sheet.mail.core),
            model: sheet.model,
            lemmas,
            trace,
        },
        None => Outcome {
            verdict: Verdict::Unknown,
            eras,
            winner: None,
            model: None,
            lemmas,
            trace,
        },
    }
}

/// What the end of a stretch says of the formula.
fn verdict_at(end: End) -> Verdict
    ensures { result ≡ verdict_at end }
{
    match end {
        End::Sat => Verdict::Sat,
        End::Unsat => Verdict::Unsat,
        End::Quota | End::Spent => Verdict::Unknown,
    }
}
