ghost use Rattle.std.specs.Prelude.{◌≡◌, [], IfOk, OnOk};
ghost use Rattle.lit_base.specs.LitSet.{with_lit};
ghost use Rattle.lit_base.specs.Walk.{holds};

use lit_base::{Lit, LitSet, MOST_VARIABLES, NoMemory};
use std::alloc::Global;
use std::marker::Model;

/// The literals that are held true while a lemma is judged, seen by contracts as their list.
///
/// One flag for each of the 2,000,000 literals that there may be tells in a step whether a literal is true.
#[derive(Debug, Drop)]
pub(crate) struct Known {
    lits: LitSet,
}

impl Model for Known {
    ghost use Rattle.std.specs.Prelude.{◌≡◌, List};
    ghost use Rattle.lit_base.specs.Literal.{Literal};

    ghost Value = { List Literal };

    ghost view = { λ k. k.lits.lits };

    ghost invariant = { λ k. k.lits.variables ≡ 1000000 };
}

impl Known {
    /// No literal is held true; takes 2 MB.
    pub(crate) fn new(alloc: Global) -> Result<Known, NoMemory>
        ensures { IfOk result (λ known. known ≡ []) }
    {
        Ok(Known {
            lits: LitSet::new(alloc, MOST_VARIABLES)?,
        })
    }

    /// Whether the literal is held true.
    #[inline(always)]
    pub(crate) fn is_true(&self, lit: Lit) -> bool
        ensures { result ≡ holds self.now lit }
    {
        let _variable = lit.var();
        self.lits.contains(lit)
    }

    /// Holds the literal true.
    pub(crate) fn make_true(&mut self, lit: Lit) -> Result<(), NoMemory>
        ensures { OnOk result (self.new ≡ with_lit self.old lit) }
    {
        let _variable = lit.var();
        self.lits.insert(lit)
    }

    /// Holds none true any more.
    pub(crate) fn clear(&mut self)
        ensures { self.new ≡ [] }
    {
        self.lits.clear();
    }
}
