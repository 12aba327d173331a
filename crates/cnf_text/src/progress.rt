ghost use Rattle.std.specs.Prelude.{◌≡◌, ℕ, ◌≤◌, ◌<◌, nat_le, All, IfOk, length};
ghost use Rattle.lit_base.specs.Cnf.{IsFormula};
ghost use Rattle.cnf_text.specs.Faults.{Judges, Gives};
ghost use Rattle.cnf_text.specs.Judge.{nothing, judge_magic, judge_format, judge_variables, judge_clauses, judge_end, judge_literal, judge_number, judge_body, is_body, judge_at, judge_token, judge_line_end, finish};

use crate::class::{Class, class_of};
use crate::fault::{CnfFault, Which};
use crate::literals::Literals;
use crate::stage::Stage;
use lit_base::{Clause, Formula, Lit, LitSet, MOST_VARIABLES};
use std::alloc::Global;
use std::marker::Model;

/// The most clauses of a formula.
const MOST_CLAUSES: u32 = 4_000_000;

/// The most literals of a text.
const MOST_LITERALS: u32 = 8_000_000;

/// What was taken of the tokens so far.
///
/// Each call judges what it is given, and after a fault nothing is said of it.
#[derive(Debug, Drop)]
pub(crate) struct Progress {
    alloc: Global,
    stage: Stage,
    limit: u32,
    formula: Formula,
    literals: Literals,
    count: u32,
    /// Made with the header, for all clauses: so a clause takes a step for each literal, however wide it is.
    set: LitSet,
}

impl Model for Progress {
    ghost use Rattle.cnf_text.specs.Progress.{ProgressState, IsSound};

    ghost Value = { ProgressState };

    ghost view = { λ p. record { stage = p.stage; limit = p.limit; formula = p.formula; literals = p.literals; count = p.count } };

    ghost invariant = { λ p. IsSound p.limit p.formula.variables p.set.variables p.literals };
}

impl Progress {
    /// Nothing was taken yet; takes no memory.
    pub(crate) fn new(alloc: Global) -> Progress
        ensures { result ≡ nothing }
    {
        Progress {
            alloc,
            stage: Stage::Start,
            limit: 0,
            formula: Formula::new(alloc, 0),
            literals: Literals::new(alloc),
            count: 0,
            set: LitSet::empty(alloc),
        }
    }

    /// Takes a whole token; an empty one means nothing.
    pub(crate) fn take_token(&mut self, token: &[u8], line: u64) -> Result<(), CnfFault>
        ensures { Judges result self.new (judge_token self.old token.now line) }
    {
        if token.is_empty() {
            return Ok(());
        }
        self.take(class_of(token), line)
    }

    /// Whether the header line stands behind: only literals and ends of clauses follow.
    pub(crate) fn is_body(&self) -> bool
        ensures { result ≡ is_body self.now.stage }
    {
        match self.stage {
            Stage::Start => false,
            Stage::AfterMagic => false,
            Stage::AfterFormat => false,
            Stage::AfterVariables => false,
            Stage::AfterClauses => false,
            Stage::Body => true,
        }
    }

    /// Takes a token of this class.
    fn take(&mut self, class: Class, line: u64) -> Result<(), CnfFault>
        ensures judged { Judges result self.new (judge_at self.old.stage self.old class line) }
        ensures few { self.old.formula.variables ≤ 1000000 }
    {
        match self.stage {
            Stage::Start => self.take_magic(class, line),
            Stage::AfterMagic => self.take_format(class, line),
            Stage::AfterFormat => self.take_variables(class, line),
            Stage::AfterVariables => self.take_clauses(class, line),
            Stage::AfterClauses => Err(CnfFault::BadHeader(line)),
            Stage::Body => self.take_body(class, line),
        }
    }

    fn take_magic(&mut self, class: Class, line: u64) -> Result<(), CnfFault>
        ensures { Judges result self.new (judge_magic self.old class line) }
    {
        match class {
            Class::Magic => {
                self.stage = Stage::AfterMagic;
                Ok(())
            }
            _ => Err(CnfFault::NoHeader(line)),
        }
    }

    fn take_format(&mut self, class: Class, line: u64) -> Result<(), CnfFault>
        ensures { Judges result self.new (judge_format self.old class line) }
    {
        match class {
            Class::Format => {
                self.stage = Stage::AfterFormat;
                Ok(())
            }
            _ => Err(CnfFault::BadHeader(line)),
        }
    }

    fn take_variables(&mut self, class: Class, line: u64) -> Result<(), CnfFault>
        ensures { Judges result self.new (judge_variables self.old class line) }
    {
        match class {
            Class::Number {
                positive: true,
                value,
            } => {
                if value > MOST_VARIABLES {
                    return Err(CnfFault::OverLimit(Which::Variables, line));
                }
                self.set = LitSet::new(self.alloc, value)?;
                self.stage = Stage::AfterVariables;
                self.limit = 0;
                self.literals.clear();
                self.formula = Formula::new(self.alloc, value);
                self.count = 0;
                Ok(())
            }
            _ => Err(CnfFault::BadHeader(line)),
        }
    }

    fn take_clauses(&mut self, class: Class, line: u64) -> Result<(), CnfFault>
        ensures { Judges result self.new (judge_clauses self.old class line) }
    {
        match class {
            Class::Number {
                positive: true,
                value,
            } => {
                if value > MOST_CLAUSES {
                    return Err(CnfFault::OverLimit(Which::Clauses, line));
                }
                self.stage = Stage::AfterClauses;
                self.limit = value;
                Ok(())
            }
            _ => Err(CnfFault::BadHeader(line)),
        }
    }

    fn take_body(&mut self, class: Class, line: u64) -> Result<(), CnfFault>
        ensures { Judges result self.new (judge_body self.old class line) }
    {
        match class {
            Class::Number { positive, value } => self.take_number(positive, value, line),
            _ => Err(CnfFault::BadNumber(line)),
        }
    }

    /// Takes a number after the header: a literal, or the end of a clause.
    pub(crate) fn take_number(
        &mut self,
        positive: bool,
        value: u32,
        line: u64,
    ) -> Result<(), CnfFault>
        ensures { Judges result self.new (judge_number self.old positive value line) }
    {
        if value != 0 {
            self.take_literal(positive, value, line)
        } else if positive {
            self.take_end(line)
        } else {
            Err(CnfFault::BadNumber(line))
        }
    }

    fn take_literal(&mut self, positive: bool, variable: u32, line: u64) -> Result<(), CnfFault>
        requires { 1 ≤ variable }
        ensures { Judges result self.new (judge_literal self.old positive variable line) }
    {
        if variable > self.formula.variables() {
            return Err(CnfFault::VariableAbove(line));
        }
        if self.has_all_clauses() {
            return Err(CnfFault::TooManyClauses(line));
        }
        if self.count >= MOST_LITERALS {
            return Err(CnfFault::OverLimit(Which::Literals, line));
        }
        self.literals.push(Lit::of(variable, positive))?;
        self.count += 1;
        Ok(())
    }

    fn take_end(&mut self, line: u64) -> Result<(), CnfFault>
        ensures { Judges result self.new (judge_end self.old line) }
    {
        if self.has_all_clauses() {
            return Err(CnfFault::TooManyClauses(line));
        }
        let clause = Clause::with_set(self.alloc, self.literals.as_slice(), &mut self.set)?;
        self.formula.push(clause)?;
        self.literals.clear();
        Ok(())
    }

    /// Whether as many clauses are closed as the header says.
    fn has_all_clauses(&self) -> bool
        ensures value { result ≡ nat_le self.now.limit (length self.now.formula.clauses) }
        ensures few { self.now.limit ≤ 4000000 }
    {
        self.formula.len() >= self.limit as usize
    }

    /// Takes the end of a line.
    pub(crate) fn take_line_end(&mut self, line: u64) -> Result<(), CnfFault>
        ensures { Judges result self.new (judge_line_end self.old.stage self.old line) }
    {
        match self.stage {
            Stage::Start => Ok(()),
            Stage::AfterMagic => Err(CnfFault::BadHeader(line)),
            Stage::AfterFormat => Err(CnfFault::BadHeader(line)),
            Stage::AfterVariables => Err(CnfFault::BadHeader(line)),
            Stage::AfterClauses => {
                self.stage = Stage::Body;
                Ok(())
            }
            Stage::Body => Ok(()),
        }
    }

    /// The formula, where the text ends in this line.
    pub(crate) fn finish(self, line: u64) -> Result<Formula, CnfFault>
        ensures value { Gives result (finish self line) }
        ensures formula { IfOk result IsFormula }
    {
        let Stage::Body = self.stage else {
            return Err(CnfFault::NoHeader(line));
        };
        if !self.literals.is_empty() {
            return Err(CnfFault::Unclosed(line));
        }
        if self.formula.len() < self.limit as usize {
            return Err(CnfFault::TooFewClauses(line));
        }
        Ok(self.formula)
    }
}
