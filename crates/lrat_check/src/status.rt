ghost use Rattle.std.specs.Prelude.{◌≡◌};
ghost use Rattle.std.specs.List.{list_any};
ghost use Rattle.lit_base.specs.Walk.{holds, status_of};
ghost use Rattle.lrat_check.specs.Status.{open_status, late_status};

use crate::known::Known;
use lit_base::{ClauseStatus, Lit};

/// The status of a clause, where these literals are held true.
pub(crate) fn status_of(known: &Known, lits: &[Lit]) -> ClauseStatus
    ensures { result ≡ status_of known.now lits.now }
{
    for (place, lit) in lits.iter().enumerate() {
        if known.is_true(*lit) {
            return ClauseStatus::Satisfied;
        }
        if !known.is_true(lit.negated()) {
            return open_status(known, *lit, &lits[place + 1..]);
        }
    }
    ClauseStatus::Falsified
}

/// The status by the literals behind the first free one.
fn open_status(known: &Known, first: Lit, lits: &[Lit]) -> ClauseStatus
    ensures { result ≡ open_status known.now first lits.now }
{
    for (place, lit) in lits.iter().enumerate() {
        if known.is_true(*lit) {
            return ClauseStatus::Satisfied;
        }
        if *lit != first && !known.is_true(lit.negated()) {
            return late_status(known, &lits[place + 1..]);
        }
    }
    ClauseStatus::Implies(first)
}

/// The status by the literals behind the second free one.
fn late_status(known: &Known, lits: &[Lit]) -> ClauseStatus
    ensures { result ≡ late_status known.now lits.now }
{
    if has_true(known, lits) {
        ClauseStatus::Satisfied
    } else {
        ClauseStatus::Unresolved
    }
}

/// Whether one of the literals is held true.
pub(crate) fn has_true(known: &Known, lits: &[Lit]) -> bool
    ensures { result ≡ list_any (holds known.now) lits.now }
{
    lits.iter().any(|lit| known.is_true(*lit))
}
