ghost use Rattle.std.specs.Prelude.{◌≡◌, ◌<◌, ◌↔◌, ℕ, ◌==◌, true, false, not, slice_index_or, if◌then◌else◌, vec_len, All, IfOk, IsTrue};
ghost use Rattle.std.specs.List.{IsDistinct};
ghost use Rattle.lit_base.specs.Literal.{IsWithin, same};
ghost use Rattle.lit_base.specs.Distinct.{distinct};
ghost use Rattle.lit_base.specs.Truth.{is_clause_true};

use crate::lit::Lit;
use crate::lit_set::LitSet;
use crate::memory::NoMemory;
use smallvec::SmallVec;
use std::alloc::Global;
use std::collections::BTreeSet;
use std::marker::Model;

/// Up to this many literals each is sought among those kept: for few that is faster than any set.
const SHORT: usize = 32;

/// How many literals lie in the clause itself; more than that have an allocation of their own.
const INLINE: usize = 4;

/// A clause: the disjunction of its literals, each of which it holds once.
#[derive(Debug, Drop)]
pub struct Clause {
    lits: SmallVec<Lit, INLINE>,
}

impl Model for Clause {
    ghost use Rattle.std.specs.Prelude.{List};
    ghost use Rattle.lit_base.specs.Literal.{Literal};

    ghost Value = { List Literal };

    ghost view = { λ c. c.lits.items };

    ghost use Rattle.std.specs.List.{IsDistinct};
    ghost use Rattle.lit_base.specs.Literal.{same};

    ghost invariant = { λ c. IsDistinct same c.lits.items };
}

impl Clause {
    /// The clause of these literals, each kept once, in the order of first occurrence.
    ///
    /// Takes at most some n log n steps for n literals.
    pub fn of(alloc: Global, lits: &[Lit]) -> Result<Clause, NoMemory>
        ensures { IfOk result (λ clause. clause ≡ distinct lits.now) }
    {
        let lits = if lits.len() <= SHORT {
            distinct_by_search(alloc, lits)?
        } else {
            distinct_by_tree(alloc, lits)?
        };
        Ok(Clause { lits })
    }

    /// What `of` makes, in a step for each literal, by a set that may be used for clause after clause.
    pub fn with_set(alloc: Global, lits: &[Lit], set: &mut LitSet) -> Result<Clause, NoMemory>
        requires { All (IsWithin set.old.variables) lits.now }
        ensures value { IfOk result (λ clause. clause ≡ distinct lits.now) }
        ensures variables { set.new.variables ≡ set.old.variables }
    {
        if lits.len() <= SHORT {
            return Clause::of(alloc, lits);
        }
        set.keep(lits)?;
        Ok(Clause {
            lits: SmallVec::from_slice(alloc, set.as_slice())?,
        })
    }

    /// Whether a literal of the clause is true in the model.
    pub(crate) fn is_true_in(&self, model: &crate::Model) -> bool
        ensures { result ≡ is_clause_true model.now self.now }
    {
        self.lits.as_slice().iter().any(|lit| model.is_true(*lit))
    }

    /// The literals of the clause, in order, each of them once.
    pub fn lits(&self) -> &[Lit]
        ensures value { result.now ≡ self.now }
        ensures distinct { IsDistinct same result.now }
    {
        self.lits.as_slice()
    }

    /// Whether the clause is over the variables from 1 to this one.
    pub fn is_within(&self, variables: u32) -> bool
        ensures { IsTrue result ↔ All (IsWithin variables) self.now }
    {
        self.lits
            .as_slice()
            .iter()
            .all(|lit| lit.var() <= variables)
    }
}

fn distinct_by_search(alloc: Global, lits: &[Lit]) -> Result<SmallVec<Lit, INLINE>, NoMemory>
    ensures { IfOk result (λ kept. kept.items ≡ distinct lits.now) }
{
    let mut kept = SmallVec::new(alloc);
    for lit in lits {
        if !kept.as_slice().contains(lit) {
            kept.push(*lit)?;
        }
    }
    Ok(kept)
}

fn distinct_by_tree(alloc: Global, lits: &[Lit]) -> Result<SmallVec<Lit, INLINE>, NoMemory>
    ensures { IfOk result (λ kept. kept.items ≡ distinct lits.now) }
{
    let mut kept = SmallVec::new(alloc);
    let mut met = BTreeSet::new(alloc);
    for lit in lits {
        if met.insert(lit.index())? {
            kept.push(*lit)?;
        }
    }
    Ok(kept)
}
