ghost use Rattle.std.specs.Prelude.{◌≡◌, ℕ, ◌≤◌, ◌<◌, [], ◌∷◌, ◌++◌, length, All, OnOk, OnErr, slice_get, Some};
ghost use Rattle.lit_base.specs.Literal.{IsWithin};
ghost use Rattle.lit_base.specs.Cnf.{Cnf, IsFormula};
ghost use Rattle.lit_base.specs.Truth.{satisfies};

use crate::clause::Clause;
use crate::list::List;
use crate::memory::NoMemory;
use std::alloc::Global;
use std::marker::Model;

/// A formula in conjunctive normal form: at most 1,000,000 variables and 4,000,000 clauses over them.
#[derive(Debug, Drop)]
pub struct Formula {
    variables: u32,
    clauses: List<Clause>,
}

impl Model for Formula {
    ghost use Rattle.lit_base.specs.Cnf.{Cnf, IsFormula};

    ghost Value = { Cnf };

    ghost view = { λ f. record { variables = f.variables; clauses = f.clauses } };

    ghost invariant = { λ f. IsFormula (record { variables = f.variables; clauses = f.clauses }) };
}

impl Formula {
    /// The formula of so many variables, at most 1,000,000, and no clause; takes no memory.
    pub fn new(alloc: Global, variables: u32) -> Formula
        requires { variables ≤ 1000000 }
        ensures { result ≡ record { variables = variables; clauses = [] } }
    {
        Formula {
            variables,
            clauses: List::new(alloc),
        }
    }

    /// Adds a clause at the end. After `NoMemory` the formula is unchanged, and the clause is dropped.
    pub fn push(&mut self, clause: Clause) -> Result<(), NoMemory>
        requires within { All (IsWithin self.old.variables) clause }
        requires few { length self.old.clauses < 4000000 }
        ensures ok { OnOk result (self.new ≡ record self.old { clauses = self.old.clauses ++ clause ∷ [] }) }
        ensures err { OnErr result (self.new ≡ self.old) }
    {
        self.clauses.push(clause)
    }

    /// The number of variables, at most 1,000,000.
    pub fn variables(&self) -> u32
        ensures value { result ≡ self.now.variables }
        ensures formula { IsFormula self.now }
    {
        self.variables
    }

    /// The number of clauses, at most 4,000,000.
    pub fn len(&self) -> usize
        ensures value { result ≡ length self.now.clauses }
        ensures formula { IsFormula self.now }
    {
        let _ = &self.variables;
        self.clauses.len()
    }

    /// The clause at `i`, counted from 0.
    pub fn clause(&self, i: usize) -> &Clause
        requires { i < length self.now.clauses }
        ensures { slice_get self.now.clauses i ≡ Some result.now }
    {
        self.clauses.get(i)
    }

    /// The clauses, in order.
    pub fn clauses(&self) -> &[Clause]
        ensures value { result.now ≡ self.now.clauses }
        ensures formula { IsFormula self.now }
    {
        let _ = &self.variables;
        self.clauses.as_slice()
    }

    /// Whether each clause has a literal that is true in the model.
    pub fn satisfied(&self, model: &crate::Model) -> bool
        requires { length model.now ≡ self.now.variables }
        ensures { result ≡ satisfies model.now self.now }
    {
        self.clauses
            .as_slice()
            .iter()
            .all(|clause| clause.is_true_in(model))
    }
}
