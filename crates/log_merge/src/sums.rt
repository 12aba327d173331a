ghost use Rattle.std.specs.Prelude.{◌≡◌, ◌+◌, ◌<◌, ◌≤◌, ◌^◌, [], ◌++◌, length, take, sum, slice_index, vec_len, vec_capacity, OnOk, OnErr};
ghost use Rattle.log_merge.specs.Sums.{next_start, counts_between, AreRising};

use lit_base::NoMemory;
use std::alloc::Global;
use std::marker::Model;

/// Counts and the number before the first of them, as running sums.
///
/// `starts` has for each count the number before it, and `end` is the number after the last.
#[derive(Debug, Drop)]
pub(crate) struct Sums {
    starts: Vec<u64>,
    end: u64,
}

impl Model for Sums {
    ghost use Rattle.log_merge.specs.Sums.{Counted, counted, AreSums};

    ghost Value = { Counted };

    ghost view = { λ s. counted s.starts.items s.end };

    ghost invariant = { λ s. AreSums s.starts.items s.end };
}

impl Sums {
    /// No counts; takes no memory.
    pub(crate) fn new(alloc: Global, first: u64) -> Sums
        ensures { result ≡ record { first = first; counts = [] } }
    {
        Sums {
            starts: Vec::new(alloc),
            end: first,
        }
    }

    /// Adds counts behind those that are there. After `NoMemory` none are added.
    pub(crate) fn extend(&mut self, counts: &[u64]) -> Result<(), NoMemory>
        requires { self.old.first + sum self.old.counts + sum counts.now < 2 ^ 63 }
        ensures ok { OnOk result (self.new ≡ record { first = self.old.first; counts = self.old.counts ++ counts.now }) }
        ensures err { OnErr result (self.new ≡ self.old) }
    {
        self.starts.reserve(counts.len())?;
        self.end = push_starts(&mut self.starts, self.end, counts);
        Ok(())
    }

    /// The number before the count at a place, counted from 0.
    pub(crate) fn before(&self, place: usize) -> u64
        requires { place < length self.now.counts }
        ensures sum { result ≡ self.now.first + sum (take place self.now.counts) }
        ensures fits { result + slice_index self.now.counts place < 2 ^ 64 }
    {
        self.starts[place]
    }
}

/// Adds the starts of counts that begin at `end`, and answers where they end.
fn push_starts(starts: &mut Vec<u64>, end: u64, counts: &[u64]) -> u64
    requires room { vec_len starts.old + length counts.now ≤ vec_capacity starts.old }
    requires fits { end + sum counts.now < 2 ^ 63 }
    requires rising { AreRising starts.old.items end }
    ensures first { next_start starts.new.items result ≡ next_start starts.old.items end }
    ensures counts { counts_between starts.new.items result ≡ counts_between starts.old.items end ++ counts.now }
    ensures rising { AreRising starts.new.items result }
{
    let mut next = end;
    for count in counts {
        starts.push_reserved(next);
        next += *count;
    }
    next
}
