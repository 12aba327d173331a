ghost use Rattle.std.specs.Prelude.{◌≡◌, ℕ, [], ◌∷◌, ◌++◌, ◌<◌, ◌≤◌, List, length, IfOk};
ghost use Rattle.lit_base.specs.Cnf.{Cnf};
ghost use Rattle.lit_base.specs.declared.proof.Line.{Line as ProofLine};
ghost use Rattle.lrat_check.specs.Checking.{HasJudged};
ghost use Rattle.desk_io.specs.declared.Slot.TheVariants.{Proof};
ghost use Rattle.dp2ll.specs.Reading.{BeginsSlot, KeepsSlot};
ghost use Rattle.dp2ll.specs.Judging.{JudgesFile, IsJudging, JudgesLine, JudgesNext, JudgesText, JudgesEnd, JudgesPiece, JudgesPieces, IsFresh, HasGoneOn, FindsByFault};

use crate::ending::ProofStop;
use crate::finding::{Finding, Flaw};
use crate::read::{PIECE, zeros};
use desk_io::{Inputs, Slot};
use lit_base::Formula;
use lrat_check::{CheckFault, Checker, Step, law_judged_lines_are_sound};
use lrat_text::{
    Line, LineFault, LineReader, early_fault_stays, ended_lines_stay, read_bytes_are_few,
    read_bytes_are_sound,
};
use std::alloc::Global;

/// More turns than a proof may have bytes, each of which takes at least one.
const MOST_TURNS: u64 = 1_099_511_627_777;

/// Judges the proof in a file, line by line, up to the first fault, the first empty lemma that follows, or the end.
///
/// Each line is judged before the next is read, and each piece before the next. The checker has the clauses in less room
/// than the formula, which is dropped before the first line.
pub(crate) fn judge_file<I: Inputs>(
    alloc: Global,
    formula: Formula,
    proof: &str,
    inputs: &mut I,
) -> Result<Finding, ProofStop>
    ensures begun { BeginsSlot Proof proof.now (I.told inputs.old) (I.told inputs.new) }
    ensures judges { JudgesFile formula ((I.told inputs.old).held Proof proof.now)
        ((I.told inputs.old).at Proof) ((I.told inputs.new).at Proof) result }
{
    read_bytes_are_sound();
    law_judged_lines_are_sound();
    let mut reader = LineReader::new(alloc);
    if inputs.begin(Slot::Proof, proof).is_err() {
        return Err(ProofStop::ReadFault);
    }
    let mut checker = Checker::make(alloc, &formula)?;
    drop(formula);
    let mut buffer = zeros(alloc)?;
    judge_pieces(inputs, &mut reader, &mut checker, buffer.as_mut_slice())
}

/// Judges pieces until something is found. Each takes at least a byte, so the limit of bytes ends the loop.
fn judge_pieces<I: Inputs>(
    inputs: &mut I,
    reader: &mut LineReader,
    checker: &mut Checker,
    buffer: &mut [u8],
) -> Result<Finding, ProofStop>
    requires room { 0 < length buffer.old }
    requires piece { length buffer.old ≤ PIECE }
    requires fresh { IsFresh reader.old checker.old }
    ensures kept { KeepsSlot Proof (I.told inputs.old) (I.told inputs.new) }
    ensures judges { (cnf : Cnf) → IsJudging cnf reader.old checker.old [] []
        → JudgesPieces cnf ((I.told inputs.old).at Proof) ((I.told inputs.new).at Proof) result }
{
    read_bytes_are_sound();
    read_bytes_are_few();
    law_judged_lines_are_sound();
    for _ in 0..MOST_TURNS {
        if let Some(finding) = judge_piece(inputs, reader, checker, buffer)? {
            return Ok(finding);
        }
    }
    unreachable!()
}

/// Reads one piece and judges its lines; at the end of the file judges its last line.
fn judge_piece<I: Inputs>(
    inputs: &mut I,
    reader: &mut LineReader,
    checker: &mut Checker,
    buffer: &mut [u8],
) -> Result<Option<Finding>, ProofStop>
    requires room { 0 < length buffer.old }
    requires piece { length buffer.old ≤ PIECE }
    ensures kept { KeepsSlot Proof (I.told inputs.old) (I.told inputs.new) }
    ensures piece { (cnf : Cnf) (taken : List ℕ) (lines : List ProofLine) → IsJudging cnf reader.old checker.old taken lines
        → JudgesPiece cnf ((I.told inputs.old).at Proof) ((I.told inputs.new).at Proof) reader.new checker.new taken result }
{
    let count = match inputs.read(Slot::Proof, buffer) {
        Ok(count) => count,
        Err(_) => return Err(ProofStop::ReadFault),
    };
    if count == 0 {
        return Ok(Some(judge_end(reader, checker)?));
    }
    judge_text(reader, checker, &buffer[..count])
}

/// Reads a text on and judges its lines, each before the next is read, up to the first that decides.
fn judge_text(
    reader: &mut LineReader,
    checker: &mut Checker,
    text: &[u8],
) -> Result<Option<Finding>, ProofStop>
    ensures { (cnf : Cnf) (bytes : List ℕ) (lines : List ProofLine) → IsJudging cnf reader.old checker.old bytes lines
        → JudgesText cnf reader.new checker.new bytes text.now result }
{
    let mut rest = text;
    while !rest.is_empty() {
        let (taken, found) = judge_next(reader, checker, rest)?;
        if found.is_some() {
            return Ok(found);
        }
        rest = &rest[taken..];
    }
    Ok(None)
}

/// Reads a text on up to the end of its first line with a step, judges that line, and answers how many bytes it took.
fn judge_next(
    reader: &mut LineReader,
    checker: &mut Checker,
    text: &[u8],
) -> Result<(usize, Option<Finding>), ProofStop>
    requires { 1 ≤ length text.now }
    ensures next { (cnf : Cnf) (bytes : List ℕ) (lines : List ProofLine) → IsJudging cnf reader.old checker.old bytes lines
        → JudgesNext cnf reader.new checker.new bytes text.now result }
    ensures within { IfOk result (λ next. next.0 ≤ length text.now) }
    ensures some { IfOk result (λ next. 1 ≤ next.0) }
{
    early_fault_stays();
    ended_lines_stay();
    read_bytes_are_sound();
    law_judged_lines_are_sound();
    match reader.feed(text) {
        Ok((taken, None)) => Ok((taken, None)),
        Ok((taken, Some(line))) => Ok((taken, judge_line(checker, &line)?)),
        Err(fault) => Ok((text.len(), Some(find_by_fault(fault)?))),
    }
}

/// Judges the last line of a proof, where it has no LF, or finds that no line added the empty lemma.
fn judge_end(reader: &mut LineReader, checker: &mut Checker) -> Result<Finding, ProofStop>
    ensures { (cnf : Cnf) (bytes : List ℕ) (lines : List ProofLine) → IsJudging cnf reader.old checker.old bytes lines
        → JudgesEnd cnf bytes result }
{
    law_judged_lines_are_sound();
    match reader.end() {
        Ok(None) => Ok(Finding::Flawed(Flaw::NoEmptyClause)),
        Ok(Some(line)) => match judge_line(checker, &line)? {
            Some(finding) => Ok(finding),
            None => Ok(Finding::Flawed(Flaw::NoEmptyClause)),
        },
        Err(fault) => find_by_fault(fault),
    }
}

/// Judges one line. None says that it has no fault, and doesn't add the empty lemma.
fn judge_line(checker: &mut Checker, line: &Line) -> Result<Option<Finding>, ProofStop>
    ensures { (cnf : Cnf) (lines : List ProofLine) → HasJudged cnf checker.old lines
        → JudgesLine cnf checker.new (lines ++ line.now ∷ []) line.now result }
{
    match checker.line(line) {
        Ok(Step::More) => Ok(None),
        Ok(Step::Empty) => Ok(Some(Finding::Verified)),
        Err(CheckFault::NoMemory) => Err(ProofStop::NoMemory),
        Err(fault) => Ok(Some(Finding::Flawed(Flaw::Misjudged(fault)))),
    }
}

/// What is found by a fault of the reader.
fn find_by_fault(fault: LineFault) -> Result<Finding, ProofStop>
    ensures { FindsByFault fault result }
{
    match fault {
        LineFault::NoMemory => Err(ProofStop::NoMemory),
        _ => Ok(Finding::Flawed(Flaw::Misread(fault))),
    }
}
