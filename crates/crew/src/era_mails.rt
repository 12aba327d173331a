//! What the mails of an era say.
ghost use Rattle.std.specs.Prelude.{◌≡◌, is_some};
ghost use Rattle.std.specs.List.{list_all};
ghost use Rattle.crew.specs.Era.{is_spent, winner_of, largest_volume, is_over};

use crate::sheets::{is_answer, is_spent};
use solo_core::Mail;

/// Whether a core has an answer.
fn has_winner(mails: &[Mail]) -> bool
    ensures { result ≡ is_some (winner_of mails.now) }
{
    for mail in mails {
        if is_answer(mail.end) {
            return true;
        }
    }
    false
}

/// Whether all cores have spent their limit.
fn are_all_spent(mails: &[Mail]) -> bool
    ensures { result ≡ list_all (λ mail. is_spent mail.end) mails.now }
{
    for mail in mails {
        if !is_spent(mail.end) {
            return false;
        }
    }
    true
}

/// Whether the run is over: a core has an answer, or all have spent their limit.
pub(crate) fn is_over(mails: &[Mail]) -> bool
    ensures { result ≡ is_over mails.now }
{
    has_winner(mails) || are_all_spent(mails)
}

/// How much the fullest core holds.
pub(crate) fn largest_volume(mails: &[Mail]) -> u64
    ensures { result ≡ largest_volume mails.now }
{
    let mut largest = 0;
    for mail in mails {
        largest = largest.max(mail.volume);
    }
    largest
}
