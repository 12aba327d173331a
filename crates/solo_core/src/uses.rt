ghost use Rattle.std.specs.Prelude.{◌≡◌, ◌^◌, IsSome};
ghost use Rattle.std.specs.List.{AllByRecursion, IsDistinct};
ghost use Rattle.lit_base.specs.Named.{lits_at, same_name};
ghost use Rattle.lit_base.specs.Held.{clauses_of, with_uses};
ghost use Rattle.solo_core.specs.Searching.{AreFewUses};

use clause_pool::Pool;
use lit_base::Name;

/// Counts a use of each of these clauses, which are held and distinct; uses of originals aren't counted.
pub(crate) fn count_uses(pool: &mut Pool, hints: &[Name])
    requires held { AllByRecursion (λ hint. IsSome (lits_at (clauses_of pool.old.held) hint)) hints.now }
    requires distinct { IsDistinct same_name hints.now }
    requires few { AreFewUses (2 ^ 32) pool.old.held }
    ensures held { pool.new.held ≡ with_uses hints.now pool.old.held }
    ensures added { pool.new.added ≡ pool.old.added }
{
    for hint in hints {
        pool.count_use(*hint);
    }
}
