//! What the sheets of an era say.
ghost use Rattle.std.specs.Prelude.{◌≡◌, ◌||◌, is_some, length, map, IfOk, if◌then◌else◌, []};
ghost use Rattle.std.specs.List.{list_all};
ghost use Rattle.crew.specs.Era.{is_answer, is_spent, mails_in, winning_core, largest_volume, is_over};
ghost use Rattle.crew.specs.Log.{stands};
ghost use Rattle.crew.specs.Outcome.{winning_sheet};

use lit_base::NoMemory;
use solo_core::{End, Lemma, Mail, Sheet};
use std::alloc::Global;

/// Whether a stretch ended with an answer to the formula.
pub(crate) fn is_answer(end: End) -> bool
    ensures { result ≡ is_answer end }
{
    match end {
        End::Sat | End::Unsat => true,
        End::Quota | End::Spent => false,
    }
}

/// Whether it ended since the core has had all conflicts that it may have in the run.
pub(crate) fn is_spent(end: End) -> bool
    ensures { result ≡ is_spent end }
{
    match end {
        End::Spent => true,
        End::Sat | End::Unsat | End::Quota => false,
    }
}

/// The number of the first core that has an answer.
pub(crate) fn winner_in(sheets: &[Sheet]) -> Option<u32>
    ensures { result ≡ winning_core (mails_in sheets.now) }
{
    for sheet in sheets {
        if is_answer(sheet.mail.end) {
            return Some(sheet.mail.core);
        }
    }
    None
}

/// The sheet of the first core that has an answer.
pub(crate) fn winning_sheet(sheets: Vec<Sheet>) -> Option<Sheet>
    ensures { result ≡ winning_sheet sheets.items }
{
    for sheet in sheets {
        if is_answer(sheet.mail.end) {
            return Some(sheet);
        }
    }
    None
}

/// Whether all cores have spent their limit.
fn are_all_spent(sheets: &[Sheet]) -> bool
    ensures { result ≡ list_all (λ mail. is_spent mail.end) (mails_in sheets.now) }
{
    for sheet in sheets {
        if !is_spent(sheet.mail.end) {
            return false;
        }
    }
    true
}

/// Whether the run is over: a core has an answer, or all have spent their limit.
pub(crate) fn is_over(sheets: &[Sheet]) -> bool
    ensures { result ≡ is_over (mails_in sheets.now) }
{
    winner_in(sheets).is_some() || are_all_spent(sheets)
}

/// How much the fullest core holds.
pub(crate) fn largest_volume(sheets: &[Sheet]) -> u64
    ensures { result ≡ largest_volume (mails_in sheets.now) }
{
    let mut largest = 0;
    for sheet in sheets {
        largest = largest.max(sheet.mail.volume);
    }
    largest
}

/// The mails of the sheets.
pub(crate) fn mails_in(alloc: Global, sheets: Vec<Sheet>) -> Result<Vec<Mail>, NoMemory>
    ensures { IfOk result (λ mails. mails.items ≡ mails_in sheets.items) }
{
    let mut mails = Vec::with_capacity(alloc, sheets.len())?;
    for sheet in sheets {
        mails.push(sheet.mail)?;
    }
    Ok(mails)
}

/// Whether the lemmas of this core stand in the log of an era with this winner.
fn stands(winner: Option<u32>, core: u32) -> bool
    ensures { result ≡ stands winner core }
{
    match winner {
        Some(number) => number == core,
        None => true,
    }
}

/// The lemmas of a sheet, where they stand in the log.
pub(crate) fn standing_part(sheet: &Sheet, winner: Option<u32>) -> &[Lemma]
    ensures { result.now ≡ (if stands winner sheet.now.mail.core then sheet.now.lemmas else []) }
{
    if stands(winner, sheet.mail.core) {
        sheet.lemmas.as_slice()
    } else {
        &[]
    }
}
