ghost use Rattle.std.specs.Prelude.{◌≡◌, ◌<◌, ◌≤◌, ◌+◌, ◌*◌, ℕ, ◌==◌, [], true, false, slice_index_or, if◌then◌else◌, vec_len, All, IfOk, OnOk, OnErr};
ghost use Rattle.std.specs.List.{list_any};
ghost use Rattle.lit_base.specs.Literal.{IsWithin, same};
ghost use Rattle.lit_base.specs.Distinct.{distinct};
ghost use Rattle.lit_base.specs.LitSet.{with_lit, index_of};

use crate::lit::Lit;
use crate::memory::NoMemory;
use std::alloc::Global;
use std::marker::Model;

/// A set of literals of so many variables, in the order in which they were put in.
///
/// It is made once and used for list after list: a flag for each literal that there may be tells in one step whether
/// it was met, and only the flags that were set are cleared.
#[derive(Debug, Drop)]
pub struct LitSet {
    variables: u32,
    flags: Vec<bool>,
    lits: Vec<Lit>,
}

impl Model for LitSet {
    ghost use Rattle.std.specs.Prelude.{vec_len};
    ghost use Rattle.lit_base.specs.LitSet.{LitSetState, IsFlagged};

    ghost Value = { LitSetState };

    ghost view = { λ s. record { variables = s.variables; lits = s.lits.items } };

    ghost invariant = { λ s. IsFlagged s.variables (vec_len s.flags) s.flags.items s.lits.items };
}

impl LitSet {
    /// The empty set over no variable; takes no memory.
    pub fn empty(alloc: Global) -> LitSet
        ensures { result ≡ record { variables = 0; lits = [] } }
    {
        LitSet {
            variables: 0,
            flags: Vec::new(alloc),
            lits: Vec::new(alloc),
        }
    }

    /// The empty set over the variables from 1 to this one, at most 1,000,000; takes two bytes for each.
    pub fn new(alloc: Global, variables: u32) -> Result<LitSet, NoMemory>
        requires { variables ≤ 1000000 }
        ensures { IfOk result (λ set. set ≡ record { variables = variables; lits = [] }) }
    {
        Ok(LitSet {
            variables,
            flags: clear_flags(alloc, 2 * variables as usize + 2)?,
            lits: Vec::new(alloc),
        })
    }

    /// The literals of the set, in the order in which they were put in.
    pub fn as_slice(&self) -> &[Lit]
        ensures { result.now ≡ self.now.lits }
    {
        self.lits.as_slice()
    }

    /// Whether the literal is in the set.
    pub fn contains(&self, lit: Lit) -> bool
        requires { IsWithin self.now.variables lit }
        ensures { result ≡ list_any (λ m. same m lit) self.now.lits }
    {
        let _ = &self.lits;
        self.flags[lit.index()]
    }

    /// Takes just the distinct literals of the list, in the order of first occurrence, in place of those that it has.
    ///
    /// After `NoMemory` it has some of them.
    pub fn keep(&mut self, lits: &[Lit]) -> Result<(), NoMemory>
        requires { All (IsWithin self.old.variables) lits.now }
        ensures variables { self.new.variables ≡ self.old.variables }
        ensures ok { OnOk result (self.new.lits ≡ distinct lits.now) }
    {
        self.clear();
        for lit in lits {
            self.insert(*lit)?;
        }
        Ok(())
    }

    /// Takes all literals out, in a step for each.
    pub fn clear(&mut self)
        ensures { self.new ≡ record self.old { lits = [] } }
    {
        unset_flags(&mut self.flags, self.lits.as_slice());
        self.lits.clear();
    }

    /// Puts the literal in at the end, where it isn't there. After `NoMemory` the set is unchanged.
    pub fn insert(&mut self, lit: Lit) -> Result<(), NoMemory>
        requires { IsWithin self.old.variables lit }
        ensures ok { OnOk result (self.new ≡ record self.old { lits = with_lit self.old.lits lit }) }
        ensures err { OnErr result (self.new ≡ self.old) }
    {
        let place = lit.index();
        if !self.flags[place] {
            self.lits.push(lit)?;
            self.flags[place] = true;
        }
        Ok(())
    }
}

/// So many flags, none of them set.
fn clear_flags(alloc: Global, count: usize) -> Result<Vec<bool>, NoMemory>
    ensures len { IfOk result (λ flags. vec_len flags ≡ count) }
    ensures clear { IfOk result (λ flags. (k : ℕ) → slice_index_or flags.items k false ≡ false) }
{
    Ok(vec![in alloc; false; count]?)
}

/// Clears the flags, of which only those of these literals may be set.
fn unset_flags(flags: &mut Vec<bool>, lits: &[Lit])
    requires { (k : ℕ) → slice_index_or flags.old.items k false ≡ list_any (λ l. index_of l == k) lits.now }
    ensures len { vec_len flags.new ≡ vec_len flags.old }
    ensures clear { (k : ℕ) → slice_index_or flags.new.items k false ≡ false }
{
    for lit in lits {
        flags[lit.index()] = false;
    }
}
