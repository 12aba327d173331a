//! The barrier at the end of a period: to arrive, to look whether all have, and to wait until they have.
ghost use Rattle.std.specs.Prelude.{◌≡◌, ◌≢◌, ℕ, ◌+◌, ◌^◌, ◌<◌, slice_index};
ghost use Rattle.era_board.specs.Boards.{IsPassOf};
ghost use Rattle.era_board.specs.Looks.{HasWaited, LookTells};
ghost use Rattle.era_board.specs.Passes.{account};

use crate::board::Board;
use crate::look::Look;
use crate::mailbox::ARRIVALS;
use crate::pass::Pass;
use board_rule::{Arrived, Looked, Told, law_arrive, law_look};
use std::sync::Wait;

impl<T: Told> Board<T> {
    /// Arrives at the end of the period whose mails are put. The arrival that is the last of a period wakes each other
    /// party once.
    ///
    /// The pass knows its last period complete, has put all its mails of the next one, taken all of the last one, and has
    /// arrived fewer than 2^40 times.
    pub fn arrive(&self, pass: &mut Pass<T>)
        requires board { IsPassOf self.now pass.old }
        requires complete { (account pass.old).known ≡ (account pass.old).arrivals }
        requires all_laid { (to : ℕ) → to < self.now.parties → to ≢ (account pass.old).number
            → slice_index (account pass.old).laid to ≡ (account pass.old).arrivals + 1 }
        requires all_taken { (from : ℕ) → from < self.now.parties → from ≢ (account pass.old).number
            → slice_index (account pass.old).taken from ≡ (account pass.old).arrivals }
        requires few { (account pass.old).arrivals < 2 ^ 40 }
        ensures board { IsPassOf self.now pass.new }
        ensures account { account pass.new ≡ record (account pass.old) { arrivals = (account pass.old).arrivals + 1 } }
    {
        law_arrive::<T>();
        let found = self
            .table
            .shared
            .fetch_add::<Arrived>(&mut pass.seat, ARRIVALS, 1);
        pass.arrivals += 1;
        if found == u64::from(self.parties) * pass.arrivals - 1 {
            self.wake_others();
        }
    }

    fn wake_others(&self) {
        for _ in 1..self.parties {
            self.table.shared.wake_one(ARRIVALS);
        }
    }

    /// Looks once whether all parties have arrived as often as this one, which has arrived at a period that it does not
    /// know complete. After `Ready` it knows it complete. `NotYet` tells the arrivals of all parties together.
    pub fn look(&self, pass: &mut Pass<T>) -> Look
        requires board { IsPassOf self.now pass.old }
        requires arrived { (account pass.old).known < (account pass.old).arrivals }
        ensures board { IsPassOf self.now pass.new }
        ensures told { LookTells (account pass.old) (account pass.new) result }
    {
        law_look::<T>();
        let found = self.table.shared.load::<Looked>(&mut pass.seat, ARRIVALS);
        if found < u64::from(self.parties) * pass.arrivals {
            Look::NotYet(found)
        } else {
            Look::Ready
        }
    }

    /// Looks until all have arrived, and sleeps between while no one arrives. It may wait for ever: that others arrive, and
    /// that a sleeper wakes, is not claimed.
    pub fn wait_ready<R: Wait>(&self, rt: &R, pass: &mut Pass<T>)
        requires board { IsPassOf self.now pass.old }
        requires arrived { (account pass.old).known < (account pass.old).arrivals }
        ensures board { IsPassOf self.now pass.new }
        ensures waited { HasWaited (account pass.old) (account pass.new) }
    {
        for _ in rt.forever() {
            match self.look(pass) {
                Look::Ready => return,
                Look::NotYet(seen) => self
                    .table
                    .shared
                    .park(rt, ARRIVALS, (seen % (1 << 32)) as u32),
            }
        }
    }
}
