ghost use Rattle.std.specs.Prelude.{◌≡◌, ℕ, [], ◌∷◌, ◌++◌, List, Some, Ok, Err, IfOk, IfErr, IfSome};
ghost use Rattle.lit_base.specs.Cnf.{Cnf};
ghost use Rattle.lit_base.specs.Judgement.{Live, numbered_from, live_lits, judged_step, deleted, Checks, HasNoModel};
ghost use Rattle.lit_base.specs.declared.proof.Line.{Line};
ghost use Rattle.lit_base.specs.declared.proof.LineStep.TheVariants.{Add};
ghost use Rattle.lrat_check.specs.declared.checker.Step.TheVariants.{Empty};
ghost use Rattle.lrat_check.specs.Clauses.{lits_at, AreWithin};
ghost use Rattle.lrat_check.specs.Checking.{step_of, fault_of, Holds, GivesLive, HasJudged, Judges};

use crate::clauses::Clauses;
use crate::fault::CheckFault;
use crate::known::Known;
use crate::walk::judge_lemma;
use lit_base::{Clause, Formula, Judged, Line, LineStep, Lit, NoMemory, law_checked_proof_refutes};
use std::alloc::Global;

/// What a line that has no fault does.
#[derive(Clone, Copy, Debug, PartialEq, Eq)]
pub enum Step {
    /// It adds another lemma than the empty one, or deletes clauses.
    More,
    /// It adds the empty lemma: no model satisfies the formula.
    Empty,
}

/// Judges the lines of a proof in LRAT form in turn (Cruz-Filipe, Heule, Hunt, Kaufmann and Schneider-Kamp 2017).
///
/// It holds the live clauses, each under its id: at first those of the formula, under the ids from 1 on. Its memory follows
/// the clauses that are live and the number of those that were added, and never the size of an id. After a fault every later
/// call answers the same fault.
#[derive(Debug, Drop)]
pub struct Checker {
    clauses: Clauses,
    known: Known,
    last: u64,
    fault: Option<CheckFault>,
}

impl Checker {
    /// A checker of proofs of this formula that has judged no line; takes 2 MB, and what the clauses take.
    pub fn make(alloc: Global, formula: &Formula) -> Result<Checker, NoMemory>
        ensures { IfOk result (λ checker. HasJudged formula.now checker []) }
    {
        Ok(Checker {
            clauses: originals(alloc, formula.clauses())?,
            known: Known::new(alloc)?,
            last: formula.len() as u64,
            fault: None,
        })
    }

    /// Judges the next line: by those before it, it has no fault, or this fault is the first.
    ///
    /// Once `Empty` is answered the proof checks, and later lines need not be judged. `NoMemory` comes only for want of
    /// memory.
    pub fn line(&mut self, line: &Line) -> Result<Step, CheckFault>
        ensures judged { (cnf : Cnf) (lines : List Line) → HasJudged cnf self.old lines → Judges cnf self.new (lines ++ line.now ∷ []) line.now result }
        ensures refuted { (cnf : Cnf) (lines : List Line) → HasJudged cnf self.old lines → result ≡ Ok Empty → Checks cnf (lines ++ line.now ∷ []) × HasNoModel cnf }
        ensures kept { IfErr result (λ fault. fault_of self.new ≡ Some fault) }
        ensures again { IfSome (fault_of self.old) (λ fault. (result ≡ Err fault) × (self.new ≡ self.old)) }
    {
        law_checked_proof_refutes();
        if let Some(fault) = self.fault {
            return Err(fault);
        }
        match self.step(line) {
            Ok(()) => Ok(step_of(&line.step)),
            Err(fault) => {
                self.fault = Some(fault);
                Err(fault)
            }
        }
    }

    /// Judges the step of a line.
    fn step(&mut self, line: &Line) -> Result<(), CheckFault>
        ensures { (live : Live) → Holds self.old live → GivesLive self.new result (judged_step line.now.line line.now.step live) }
    {
        match &line.step {
            LineStep::Add { id, lits, hints } => {
                self.add(line.line, *id, lits.as_slice(), hints.as_slice())
            }
            LineStep::Delete { ids, .. } => self.delete(line.line, ids.as_slice()),
        }
    }

    /// Judges an addition.
    fn add(&mut self, line: u64, id: u64, lits: &[Lit], hints: &[u64]) -> Result<(), CheckFault>
        ensures { (live : Live) → Holds self.old live → GivesLive self.new result (judged_step line (Add id lits.now hints.now) live) }
    {
        if id <= self.last {
            return Err(CheckFault::IdNotRising(line));
        }
        match judge_lemma(&mut self.known, &self.clauses, lits, hints)? {
            Judged::Follows => {}
            Judged::UnknownHint(place) => return Err(CheckFault::UnknownHint(line, place)),
            Judged::NotUnit(place) => return Err(CheckFault::NotUnit(line, place)),
            Judged::NotFalsified => return Err(CheckFault::NotFalsified(line)),
        }
        self.clauses.put(id, lits)?;
        self.last = id;
        Ok(())
    }

    /// Judges a deletion.
    fn delete(&mut self, line: u64, ids: &[u64]) -> Result<(), CheckFault>
        ensures { (live : Live) → Holds self.old live → GivesLive self.new result (deleted line 1 ids.now live) }
    {
        for (index, id) in ids.iter().enumerate() {
            if !self.clauses.remove(*id) {
                return Err(CheckFault::UnknownDelete(line, index as u64 + 1));
            }
        }
        self.clauses.pack()?;
        Ok(())
    }
}

/// What a step does, where it has no fault.
fn step_of(step: &LineStep) -> Step
    ensures { result ≡ step_of step.now }
{
    match step {
        LineStep::Add { lits, .. } if lits.is_empty() => Step::Empty,
        _ => Step::More,
    }
}

/// The clauses of a formula, under the ids from 1 on.
fn originals(alloc: Global, formula: &[Clause]) -> Result<Clauses, NoMemory>
    ensures found { IfOk result (λ clauses. (id : ℕ) → lits_at clauses id ≡ live_lits (numbered_from 1 formula.now) id) }
    ensures within { IfOk result AreWithin }
{
    let mut clauses = Clauses::new(alloc);
    for (index, clause) in formula.iter().enumerate() {
        clauses.put(index as u64 + 1, clause.lits())?;
    }
    Ok(clauses)
}
