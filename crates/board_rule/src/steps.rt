//! What each step tells the seat that makes it. These types are for the proofs alone.
ghost use Rattle.board_rule.specs.Accounts.{next_maker, next_party};
ghost use Rattle.board_rule.specs.Steps.{arrived, looked, lifted_to_fill, laid_down, lifted_to_take, emptied};

use crate::told::Told;
use crate::views::View;
use atomic_table::{Play, Split};

/// A party arrives, by 1 on word 0.
pub struct Arrived;

impl<T, O> Play<Option<T>, View<O>> for Arrived {
    ghost then = { arrived };
}

/// A party looks whether all have arrived, by a load of word 0.
pub struct Looked;

impl<T, O> Play<Option<T>, View<O>> for Looked {
    ghost then = { looked };
}

/// A sender lifts an empty slot, by 1 on the mailbox's word.
pub struct LiftedToFill;

impl<T, O> Play<Option<T>, View<O>> for LiftedToFill {
    ghost then = { lifted_to_fill };
}

/// A sender lays the slot down with a mail in it, by 1 on the mailbox's word.
pub struct LaidDown;

impl<T, O> Play<Option<T>, View<O>> for LaidDown {
    ghost then = { laid_down };
}

/// A receiver lifts a slot with a mail in it, by 1 on the mailbox's word.
pub struct LiftedToTake;

impl<T: Told> Play<Option<T>, View<T::Occasion>> for LiftedToTake {
    ghost then = { lifted_to_take T.fits };
}

/// A receiver lays the empty slot down, by 1 on the mailbox's word.
pub struct Emptied;

impl<T, O> Play<Option<T>, View<O>> for Emptied {
    ghost then = { emptied };
}

/// The maker gives the first party without a seat its seat.
pub struct SeatGiven;

impl<O> Split<View<O>> for SeatGiven {
    ghost left = { next_maker };

    ghost right = { next_party };
}
