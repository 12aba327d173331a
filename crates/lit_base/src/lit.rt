ghost use Rattle.std.specs.Prelude.{◌≡◌, ℕ, ◌+◌, ◌*◌, ◌≤◌, ◌⊎◌, ◌==◌, ◌<◌, ◌/◌, ◌%◌, ◌↔◌, Bool, IsNone, IfSome, IsTrue, unsigned_abs, if◌then◌else◌};
ghost use Rattle.lit_base.specs.Literal.{Literal, negation, dimacs_number};

use std::alloc::Global;
use std::default::MadeWith;
use std::marker::Model;

/// The largest variable.
pub const MOST_VARIABLES: u32 = 1_000_000;

/// A literal in one word: twice its variable, and one more where it is negated.
///
/// The variable is from 1 to 1,000,000. `index` numbers literals for arrays by literal.
#[derive(Clone, Copy, Debug, PartialEq, Eq)]
pub struct Lit {
    code: u32,
}

impl Model for Lit {
    ghost use Rattle.std.specs.Prelude.{ℕ, ◌+◌, ◌*◌, ◌/◌, ◌%◌, ◌≤◌, ◌==◌, if◌then◌else◌};
    ghost use Rattle.lit_base.specs.Literal.{Literal};

    ghost Value = { Literal };

    ghost view = { λ l. record { variable = l.code / 2; positive = l.code % 2 == 0 } };

    ghost invariant = { λ l. (2 ≤ l.code) × (l.code ≤ 2000001) };

    ghost inverse = { λ l. record { code = 2 * l.variable + (if l.positive then 0 else 1) } };
}

/// What stands in the unused places of a short clause.
impl MadeWith<Global> for Lit {
    fn made_with(_alloc: Global) -> Lit {
        Lit { code: 2 }
    }
}

impl Lit {
    /// The literal that DIMACS writes as `n`: variable `n`, or the negation of variable `-n`.
    ///
    /// None where `n` is 0 or its magnitude is above 1,000,000.
    pub fn new(n: i32) -> Option<Lit>
        ensures none { IsNone result ↔ ((unsigned_abs n ≡ 0) ⊎ (1000000 < unsigned_abs n)) }
        ensures number { IfSome result (λ l. dimacs_number l ≡ n) }
    {
        let variable = n.unsigned_abs();
        if variable == 0 || variable > MOST_VARIABLES {
            return None;
        }
        Some(Lit::of(variable, n > 0))
    }

    /// The literal of this variable, from 1 to 1,000,000, with this sign.
    pub fn of(variable: u32, positive: bool) -> Lit
        requires low { 1 ≤ variable }
        requires high { variable ≤ 1000000 }
        ensures { result ≡ record { variable = variable; positive = positive } }
    {
        Lit {
            code: if positive {
                2 * variable
            } else {
                2 * variable + 1
            },
        }
    }

    /// The number that DIMACS writes for the literal, from -1,000,000 to 1,000,000 and never 0.
    pub fn number(self) -> i32
        ensures { result ≡ dimacs_number self }
    {
        let variable = self.var() as i32;
        if self.is_positive() {
            variable
        } else {
            -variable
        }
    }

    /// The literal's variable, from 1 to 1,000,000.
    pub fn var(self) -> u32
        ensures value { result ≡ self.variable }
        ensures low { 1 ≤ result }
        ensures high { result ≤ 1000000 }
    {
        self.code / 2
    }

    /// Whether the literal is its variable, and not the negation of it.
    pub fn is_positive(self) -> bool
        ensures { result ≡ self.positive }
    {
        self.code % 2 == 0
    }

    /// The literal of the same variable and the other sign.
    pub fn negated(self) -> Lit
        ensures { result ≡ negation self }
    {
        Lit {
            code: self.code ^ 1,
        }
    }

    /// The literal's place in an array by literal: from 2 to 2,000,001, each literal beside its negation.
    pub fn index(self) -> usize
        ensures value { result ≡ 2 * self.variable + (if self.positive then 0 else 1) }
        ensures low { 2 ≤ result }
        ensures high { result ≤ 2000001 }
    {
        self.code as usize
    }
}
