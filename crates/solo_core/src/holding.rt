//! Clauses that a core holds and attaches.
ghost use Rattle.std.specs.Prelude.{◌≡◌, ◌^◌, OnOk, IsSome, None};
ghost use Rattle.std.specs.List.{AllByRecursion, IsDistinct};
ghost use Rattle.lit_base.specs.Literal.{same};
ghost use Rattle.lit_base.specs.Named.{lits_at, same_name};
ghost use Rattle.lit_base.specs.Held.{clauses_of, unused, with_clause, with_uses};
ghost use Rattle.round_prop.specs.Attached.{IsAttachedTo};
ghost use Rattle.round_prop.specs.Spanned.{IsPlacedIn};
ghost use Rattle.solo_core.specs.State.{lemma_clause};
ghost use Rattle.solo_core.specs.Searching.{AreFewUses};

use crate::lemma::Lemma;
use crate::uses::count_uses;
use clause_pool::Pool;
use lit_base::{Lit, Name, NoMemory};
use round_prop::Rounds;
use trail_book::Trail;

/// Holds a clause under a name that isn't held, without uses, and attaches it.
pub(crate) fn hold_clause(
    pool: &mut Pool,
    rounds: &mut Rounds,
    trail: &Trail,
    name: Name,
    lits: &[Lit],
) -> Result<(), NoMemory>
    requires free { lits_at (clauses_of pool.old.held) name ≡ None }
    requires distinct { IsDistinct same lits.now }
    requires attached { IsAttachedTo rounds.old (clauses_of pool.old.held) trail.now.entries }
    requires placed { IsPlacedIn rounds.old pool.old.added }
    ensures held { OnOk result (pool.new.held ≡ with_clause (unused (record { name = name; lits = lits.now })) pool.old.held) }
    ensures attached { OnOk result (IsAttachedTo rounds.new (clauses_of pool.new.held) trail.now.entries) }
    ensures placed { OnOk result (IsPlacedIn rounds.new pool.new.added) }
    ensures variables { rounds.new.variables ≡ rounds.old.variables }
{
    pool.add(name, lits)?;
    rounds.attach(pool, trail, name)
}

/// Holds and attaches a lemma, and counts a use of each of its hints.
pub(crate) fn hold_lemma(
    pool: &mut Pool,
    rounds: &mut Rounds,
    trail: &Trail,
    lemma: &Lemma,
) -> Result<(), NoMemory>
    requires free { lits_at (clauses_of pool.old.held) lemma.now.name ≡ None }
    requires held { AllByRecursion (λ hint. IsSome (lits_at (clauses_of pool.old.held) hint)) lemma.now.hints }
    requires distinct { IsDistinct same lemma.now.lits }
    requires hints_distinct { IsDistinct same_name lemma.now.hints }
    requires few { AreFewUses (2 ^ 32) pool.old.held }
    requires attached { IsAttachedTo rounds.old (clauses_of pool.old.held) trail.now.entries }
    requires placed { IsPlacedIn rounds.old pool.old.added }
    ensures pool { OnOk result (pool.new.held ≡ with_uses lemma.now.hints (with_clause (unused (lemma_clause lemma.now)) pool.old.held)) }
    ensures attached { OnOk result (IsAttachedTo rounds.new (clauses_of pool.new.held) trail.now.entries) }
    ensures placed { OnOk result (IsPlacedIn rounds.new pool.new.added) }
    ensures variables { rounds.new.variables ≡ rounds.old.variables }
{
    hold_clause(pool, rounds, trail, lemma.name, lemma.lits.as_slice())?;
    count_uses(pool, lemma.hints.as_slice());
    Ok(())
}
