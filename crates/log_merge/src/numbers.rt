ghost use Rattle.std.specs.Prelude.{◌≡◌, ◌+◌, ◌-◌, ◌*◌, ◌<◌, ◌≤◌, ◌^◌, length, sum, OnOk, OnErr};
ghost use Rattle.log_merge.specs.Numbering.{first_numbering, with_period, lemmas_in, number_of, kept_row, HasNumber};

use crate::sums::Sums;
use lit_base::{Name, NoMemory};
use std::alloc::Global;
use std::marker::Model;

/// The numbers that originals and lemmas have in the log.
///
/// Originals have the numbers from 1 on, and after them the lemmas of the log theirs, by period, core
/// and index. `sums` has the counts of lemmas of each core, period by period, and its length says how
/// many periods have ended: memory alone bounds them.
#[derive(Debug, Drop)]
pub struct Numbers {
    cores: u32,
    sums: Sums,
}

impl Model for Numbers {
    ghost use Rattle.log_merge.specs.Numbering.{Numbering, numbering_of, periods_in, AreWholePeriods};

    ghost Value = { Numbering };

    ghost view = { λ n. numbering_of n.cores (periods_in n.cores n.sums.counts) n.sums };

    ghost invariant = { λ n. AreWholePeriods n.cores n.sums.counts };
}

impl Numbers {
    /// The numbers of a log of so many originals and cores before any period has ended. Takes no memory.
    pub fn new(alloc: Global, originals: u64, cores: u32) -> Numbers
        ensures { result ≡ first_numbering originals cores }
    {
        Numbers {
            cores,
            sums: Sums::new(alloc, originals),
        }
    }

    /// Ends the next period, of which so many lemmas of each core stand in the log.
    ///
    /// All lemmas and originals together have to be fewer than 2^63. After `NoMemory` nothing has
    /// changed.
    pub fn end_period(&mut self, counts: &[u64]) -> Result<(), NoMemory>
        requires cores { length counts.now ≡ self.old.cores }
        requires fits { self.old.originals + lemmas_in self.old.periods + sum counts.now < 2 ^ 63 }
        ensures ok { OnOk result (self.new ≡ with_period counts.now self.old) }
        ensures err { OnErr result (self.new ≡ self.old) }
    {
        self.sums.extend(row_of(counts))?;
        Ok(())
    }

    /// The number of an original, or of a lemma that stands in an ended period, from 1. Takes constant
    /// time and no memory.
    pub fn number(&self, name: Name) -> u64
        requires { HasNumber self.now name }
        ensures { result ≡ number_of self.now name }
    {
        let within = u64::from(name.index) + 1;
        if name.period == 0 {
            return within;
        }
        let place = place_in_sums(self.cores, name);
        self.sums.before(place) + within
    }
}

/// The counts of a period as they are kept. Where there is no core a 0 is kept, so that each period
/// takes a place.
fn row_of(counts: &[u64]) -> &[u64]
    ensures { result.now ≡ kept_row counts.now }
{
    if counts.is_empty() {
        return &[0];
    }
    counts
}

/// The place of a lemma's core and period, where so many cores of each period stand one after the other.
fn place_in_sums(cores: u32, name: Name) -> usize
    requires { 1 ≤ name.period }
    ensures { result ≡ (name.period - 1) * cores + name.core }
{
    (name.period - 1) as usize * cores as usize + name.core as usize
}
