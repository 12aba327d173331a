ghost use Rattle.std.specs.Prelude.{◌≡◌, ◌<◌};
ghost use Rattle.round_prop.specs.Propagation.{MayPropagate, HasPropagated};

use clause_pool::{Pool, Steps};
use round_prop::{Found, Rounds};
use std::marker::Brand;
use std::sync::ledger::{Blank, Ledger};
use trail_book::Trail;

/// Propagates over the clauses of the pool; nobody counts the reads.
pub(crate) fn propagate(rounds: &mut Rounds, pool: &Pool, trail: &mut Trail) -> Found
    requires { MayPropagate rounds.old pool.now trail.old }
    ensures { HasPropagated pool.now trail.old rounds.new trail.new result }
{
    count_on::<Brand>(Blank::new(1), rounds, pool, trail)
}

/// The same, with the reads counted on a ledger of its own.
fn count_on<L: Ledger>(blank: Blank, rounds: &mut Rounds, pool: &Pool, trail: &mut Trail) -> Found
    requires name { blank.name ≡ L.name }
    requires parts { blank.parts ≡ L.parts }
    requires some { 0 < blank.parts }
    requires may { MayPropagate rounds.old pool.now trail.old }
    ensures { HasPropagated pool.now trail.old rounds.new trail.new result }
{
    let mut steps = Steps::<L>::new(blank);
    rounds.propagate(pool, trail, &mut steps)
}
