ghost use Rattle.std.specs.Prelude.{◌≡◌, ℕ, ◌≤◌, IfOk, Some, replicate, slice_get, vec_len};
ghost use Rattle.board_rule.specs.Accounts.{fresh};
ghost use Rattle.era_board.specs.Boards.{IsPassOf};
ghost use Rattle.era_board.specs.Passes.{account};

use crate::board::Board;
use crate::mailbox::{SLOTS, WORDS};
use crate::pass::{Pass, Seated};
use atomic_table::Table;
use board_rule::{SeatGiven, Terms, Told, law_split, law_start};
use lit_base::NoMemory;
use std::alloc::{AllocError, Global};
use std::snapshot::Snapshot;

impl<T: Told> Board<T> {
    /// A board of so many parties, from 1 to 33, and its passes: the i-th, counted from 0, is that of party i.
    ///
    /// Every party works on `occasion`, which contracts alone read. All the memory that a board needs is had here.
    pub fn make(
        alloc: Global,
        parties: u32,
        occasion: &T::Occasion,
    ) -> Result<(Board<T>, Vec<Pass<T>>), NoMemory>
        requires some_party { 1 ≤ parties }
        requires few_parties { parties ≤ 33 }
        ensures parties { IfOk result (λ r. r.0.parties ≡ parties) }
        ensures passes { IfOk result (λ r. vec_len r.1 ≡ parties) }
        ensures each { IfOk result
            (λ r. (i : ℕ) (p : _) → slice_get r.1.items i ≡ Some p → IsPassOf r.0 p × (account p ≡ fresh occasion.now parties i)) }
    {
        let words = zeros(alloc, WORDS)?;
        let terms = Terms {
            parties,
            occasion: Snapshot::of(occasion),
        };
        law_start::<T>();
        let (table, mut maker) = Table::vacant(alloc, words.as_slice(), SLOTS, &terms)?;
        let mut passes = Vec::with_capacity(alloc, parties as usize)?;
        law_split::<T>();
        for number in 0..parties {
            let seat = table.shared.split_seat::<SeatGiven>(&mut maker);
            passes.push(Seated {
                seat,
                number,
                arrivals: 0,
            })?;
        }
        Ok((Board { table, parties }, passes))
    }

    /// How many parties the board has.
    pub fn parties(&self) -> u32
        ensures { result ≡ self.now.parties }
    {
        self.parties
    }
}

fn zeros(alloc: Global, count: usize) -> Result<Vec<u64>, AllocError>
    ensures { IfOk result (λ words. words.items ≡ replicate count 0) }
{
    vec![in alloc; 0; count]
}
