use crate::{CheckFault, Checker, Step, law_fault_refuses, law_judged_lines_are_sound};
use lit_base::{Clause, Formula, Line, LineStep, List, Lit};
use std::alloc::Global;
use std::process::Abort;
use std::test::Fail;

/// A checker of the formula of the four clauses over two variables, which no model satisfies.
fn square(rt: &impl Abort, alloc: Global) -> Result<Checker, Fail> {
    let mut formula = Formula::new(alloc, 2);
    for numbers in [[1, 2], [1, -2], [-1, 2], [-1, -2]] {
        let mut lits = List::new(alloc);
        for number in numbers {
            lits.push(Lit::new(number).expect(rt, "a literal"))?;
        }
        let clause = Clause::of(alloc, lits.as_slice())?;
        assert!(rt; clause.is_within(formula.variables()) && formula.len() < 4_000_000);
        formula.push(clause)?;
    }
    Ok(Checker::make(alloc, &formula)?)
}

/// A well-formed line, with this number.
fn line_of(rt: &impl Abort, alloc: Global, number: u64, text: &str) -> Result<Line, Fail> {
    let mut id = 0;
    let mut lits = List::new(alloc);
    let mut ids = List::new(alloc);
    let mut deletes = false;
    let mut closed = false;
    for (place, word) in text.split(' ').enumerate() {
        if place == 0 {
            id = word.parse::<u64>().expect(rt, "an id");
        } else if word == "d" || word == "0" {
            deletes = deletes || word == "d";
            closed = true;
        } else if closed {
            ids.push(word.parse::<u64>().expect(rt, "an id"))?;
        } else {
            let lit = Lit::new(word.parse::<i32>().expect(rt, "a number"));
            lits.push(lit.expect(rt, "a literal"))?;
        }
    }
    let step = if deletes {
        LineStep::Delete { id, ids }
    } else {
        LineStep::Add {
            id,
            lits,
            hints: ids,
        }
    };
    Ok(Line { line: number, step })
}

/// What the checker answers at the last of these lines, or at the first with a fault; `/` stands between lines.
fn answer(
    rt: &impl Abort,
    alloc: Global,
    checker: &mut Checker,
    proof: &str,
) -> Result<Result<Step, CheckFault>, Fail> {
    let mut last = Ok(Step::More);
    for (index, text) in proof.split('/').enumerate() {
        last = checker.line(&line_of(rt, alloc, index as u64 + 1, text)?);
        if last.is_err() {
            break;
        }
    }
    Ok(last)
}

#[test]
fn proofs_are_judged_as_the_worked_ones(rt: HostRuntime) -> Result<(), Fail> {
    let alloc = rt.alloc();
    for (proof, wanted) in [
        ("5 1 0 1 2 0/6 0 5 3 4 0", Ok(Step::Empty)),
        ("5 1 0 1 2 0", Ok(Step::More)),
        (
            "5 1 0 1 2 0/5 d 1 0/6 0 5 3 1 0",
            Err(CheckFault::UnknownHint(3, 3)),
        ),
        (
            "5 1 0 1 2 0/5 d 5 0/6 0 5 3 4 0",
            Err(CheckFault::UnknownHint(3, 1)),
        ),
        ("5 0 1 0", Err(CheckFault::NotUnit(1, 1))),
        ("5 1 0 1 0", Err(CheckFault::NotFalsified(1))),
        ("5 1 0 3 0", Err(CheckFault::NotFalsified(1))),
        ("4 1 0 1 2 0", Err(CheckFault::IdNotRising(1))),
        ("4 1 0 9 0", Err(CheckFault::IdNotRising(1))),
        ("5 1 0 1 2 0/5 -1 0 3 4 0", Err(CheckFault::IdNotRising(2))),
        ("5 d 9 0", Err(CheckFault::UnknownDelete(1, 1))),
        ("5 d 1 1 0", Err(CheckFault::UnknownDelete(1, 2))),
        ("5 d 0", Ok(Step::More)),
        ("5 1 -1 0 99 0/6 0 5 0", Err(CheckFault::NotUnit(2, 1))),
        ("5 1 0 1 2 77 0/6 0 5 3 4 0", Ok(Step::Empty)),
        (
            "5 1 1 -1000000 0 1 2 0/6 1 0 5 0",
            Err(CheckFault::NotFalsified(2)),
        ),
        (
            "9223372036854775806 1 0 1 2 0/9223372036854775807 0 9223372036854775806 3 4 0",
            Ok(Step::Empty),
        ),
        (
            "9223372036854775806 1 0 1 2 0/7 d 9223372036854775806 0/9223372036854775807 0 9223372036854775806 3 4 0",
            Err(CheckFault::UnknownHint(3, 1)),
        ),
        (
            "9223372036854775807 1 0 1 2 0/5 0 9223372036854775807 3 4 0",
            Err(CheckFault::IdNotRising(2)),
        ),
        ("9999 1 0 1 2 0/10000 0 9999 3 4 0", Ok(Step::Empty)),
        ("70 1 0 1 2 0/5000 0 70 3 4 6 0", Ok(Step::Empty)),
    ] {
        let mut checker = square(&rt, alloc)?;
        let found = answer(&rt, alloc, &mut checker, proof)?;
        assert_eq!(rt; found, wanted, "{proof}");
        let again = answer(&rt, alloc, &mut checker, "5 d 2 0")?;
        if wanted.is_err() {
            assert_eq!(rt; again, wanted, "{proof}, and a deletion");
        } else {
            assert_eq!(rt; again, Ok(Step::More), "{proof}, and a deletion");
        }
    }
    law_fault_refuses();
    law_judged_lines_are_sound();
    Ok(())
}

#[test]
fn room_of_deleted_clauses_is_taken_back(rt: HostRuntime) -> Result<(), Fail> {
    let alloc = rt.alloc();
    let mut checker = square(&rt, alloc)?;
    let unit = answer(&rt, alloc, &mut checker, "10000000000 1 0 1 2 0")?;
    assert_eq!(rt; unit, Ok(Step::More));
    for id in 10_000_000_001..10_000_020_000_u64 {
        let lines = format!(in alloc; "{id} 1 3 -4 5 6 -7 8 9 0 10000000000 0/5 d {id} 0")?;
        assert_eq!(rt; answer(&rt, alloc, &mut checker, &lines)?, Ok(Step::More));
    }
    let end = answer(&rt, alloc, &mut checker, "10000030000 0 10000000000 3 4 0")?;
    assert_eq!(rt; end, Ok(Step::Empty));
    Ok(())
}

#[test]
fn faults_tell_their_line_place_and_name(rt: HostRuntime) {
    for (fault, line, place, name) in [
        (
            CheckFault::IdNotRising(7),
            7,
            None,
            b"IdNotRising".as_slice(),
        ),
        (CheckFault::UnknownHint(1, 3), 1, Some(3), b"UnknownHint"),
        (CheckFault::NotUnit(2, 1), 2, Some(1), b"NotUnit"),
        (CheckFault::NotFalsified(3), 3, None, b"NotFalsified"),
        (
            CheckFault::UnknownDelete(4, 2),
            4,
            Some(2),
            b"UnknownDelete",
        ),
        (CheckFault::NoMemory, 0, None, b"NoMemory"),
    ] {
        assert_eq!(rt; fault.line(), line);
        assert_eq!(rt; fault.place(), place);
        assert_eq!(rt; fault.name(), name);
    }
}
