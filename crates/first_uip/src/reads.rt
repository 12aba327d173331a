ghost use Rattle.std.specs.Prelude.{◌≡◌, ◌<◌, IsSome, Some};
ghost use Rattle.lit_base.specs.Named.{lits_at};
ghost use Rattle.lit_base.specs.Held.{clauses_of};

use clause_pool::{Pool, Steps};
use lit_base::{Lit, Name};
use std::marker::Brand;
use std::sync::ledger::{Blank, Ledger};

/// The literals of a held clause; nobody counts this read.
pub(crate) fn lits_of(pool: &Pool, name: Name) -> &[Lit]
    requires { IsSome (lits_at (clauses_of pool.now.held) name) }
    ensures { lits_at (clauses_of pool.now.held) name ≡ Some result.now }
{
    read::<Brand>(Blank::new(1), pool, name)
}

/// The literals of a held clause, counted on a ledger of its own.
fn read<L: Ledger>(blank: Blank, pool: &Pool, name: Name) -> &[Lit]
    requires name { blank.name ≡ L.name }
    requires parts { blank.parts ≡ L.parts }
    requires some { 0 < blank.parts }
    requires held { IsSome (lits_at (clauses_of pool.now.held) name) }
    ensures { lits_at (clauses_of pool.now.held) name ≡ Some result.now }
{
    let mut steps = Steps::<L>::new(blank);
    pool.lits(name, &mut steps)
}
