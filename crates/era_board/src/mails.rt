//! To put a mail, and to take one.
ghost use Rattle.std.specs.Prelude.{◌≡◌, ◌≢◌, ◌+◌, ◌<◌, slice_index, slice_set};
ghost use Rattle.era_board.specs.Boards.{IsPassOf};
ghost use Rattle.era_board.specs.Passes.{account};

use crate::board::Board;
use crate::mailbox::{slot, word};
use crate::pass::Pass;
use board_rule::{
    Emptied, LaidDown, LiftedToFill, LiftedToTake, Told, law_emptied, law_laid, law_lift_fill,
    law_lift_take,
};

impl<T: Told> Board<T> {
    /// Puts the mail of the period after the pass's arrivals for another party.
    ///
    /// The pass knows its last period complete, has put no mail for this party in this period, and the value fits. It
    /// waits for nobody: the mailbox of this period is empty, since the receiver has taken the mail of two periods ago.
    pub fn put(&self, pass: &mut Pass<T>, to: u32, value: T)
        requires board { IsPassOf self.now pass.old }
        requires other { (to < self.now.parties) × (to ≢ (account pass.old).number) }
        requires complete { (account pass.old).known ≡ (account pass.old).arrivals }
        requires not_yet { slice_index (account pass.old).laid to ≡ (account pass.old).arrivals }
        requires fits { T.fits (account pass.old).occasion (account pass.old).number to ((account pass.old).arrivals + 1) value }
        ensures board { IsPassOf self.now pass.new }
        ensures account { account pass.new
            ≡ record (account pass.old) { laid = slice_set (account pass.old).laid to ((account pass.old).arrivals + 1) } }
    {
        let table = &self.table.shared;
        let place = slot(pass.number, to, pass.arrivals + 1);
        let mailbox = word(place);
        law_lift_fill::<T>();
        law_laid::<T>();
        table.fetch_add::<LiftedToFill>(&mut pass.seat, mailbox, 1);
        table.exchange(&mut pass.seat, place, Some(value));
        table.fetch_add::<LaidDown>(&mut pass.seat, mailbox, 1);
    }

    /// Takes the mail that another party has put for this one in the period of the pass's arrivals.
    ///
    /// The pass knows that period complete, and has not taken this mail. It waits for nobody, and the mail fits.
    pub fn take(&self, pass: &mut Pass<T>, from: u32) -> T
        requires board { IsPassOf self.now pass.old }
        requires other { (from < self.now.parties) × (from ≢ (account pass.old).number) }
        requires complete { (account pass.old).known ≡ (account pass.old).arrivals }
        requires not_yet { slice_index (account pass.old).taken from + 1 ≡ (account pass.old).arrivals }
        ensures board { IsPassOf self.now pass.new }
        ensures account { account pass.new
            ≡ record (account pass.old) { taken = slice_set (account pass.old).taken from (account pass.old).arrivals } }
        ensures fits { T.fits (account pass.old).occasion from (account pass.old).number (account pass.old).arrivals result }
    {
        let table = &self.table.shared;
        let place = slot(from, pass.number, pass.arrivals);
        let mailbox = word(place);
        law_lift_take::<T>();
        law_emptied::<T>();
        table.fetch_add::<LiftedToTake>(&mut pass.seat, mailbox, 1);
        let item = table.exchange(&mut pass.seat, place, None);
        table.fetch_add::<Emptied>(&mut pass.seat, mailbox, 1);
        match item {
            Some(value) => value,
            None => unreachable!(),
        }
    }
}
