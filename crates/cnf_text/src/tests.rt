ghost use Rattle.std.specs.Prelude.{ℕ, ◌<◌};

use crate::fault::{CnfFault, Which};
use crate::reader::Reader;
use lit_base::Formula;
use std::alloc::{AllocError, Global};
use std::test::Fail;

/// The sizes of the pieces that each text is cut into.
const GRAINS: [usize; 4] = [1, 2, 3, 4096];

/// Reads the text in pieces of this size.
fn read(alloc: Global, text: &[u8], grain: usize) -> Result<Formula, CnfFault>
    requires { 0 < grain }
{
    let mut reader = Reader::new(alloc);
    for piece in text.chunks(grain) {
        reader.feed(piece)?;
    }
    reader.end()
}

/// The number of variables, and then each clause's literals and 0.
fn numbers(alloc: Global, formula: &Formula) -> Result<Vec<i32>, AllocError> {
    let mut all = Vec::new(alloc);
    all.push(formula.variables() as i32)?;
    for clause in formula.clauses() {
        for lit in clause.lits() {
            all.push(lit.number())?;
        }
        all.push(0)?;
    }
    Ok(all)
}

#[test]
fn faults_come_at_their_lines(rt: HostRuntime) {
    let zeros = "p cnf 1 1\n00000000000000000000000000000000000000000000000000000000000000000";
    let long_header = "00000000000000000000000000000000000000000000000000000000000000000 cnf 1 1\n";
    let cases = [
        ("", CnfFault::NoHeader(1)),
        ("c\n\n", CnfFault::NoHeader(3)),
        ("%\n", CnfFault::NoHeader(1)),
        ("q cnf 1 1\n", CnfFault::NoHeader(1)),
        ("p cnf 2\n", CnfFault::BadHeader(1)),
        ("p\ncnf 1 1\n", CnfFault::BadHeader(1)),
        ("p cnf 1 1 1\n", CnfFault::BadHeader(1)),
        ("\np dnf 1 1\n", CnfFault::BadHeader(2)),
        ("p cnf -1 1\n", CnfFault::BadHeader(1)),
        (
            "p cnf 1000001 0\n",
            CnfFault::OverLimit(Which::Variables, 1),
        ),
        ("p cnf 1 4000001\n", CnfFault::OverLimit(Which::Clauses, 1)),
        ("p cnf 2 1\n3 0\n", CnfFault::VariableAbove(2)),
        (
            "p cnf 1 1\n99999999999999999999 0\n",
            CnfFault::VariableAbove(2),
        ),
        ("p cnf 2 1\n-0\n", CnfFault::BadNumber(2)),
        ("p cnf 2 1\n+1\n", CnfFault::BadNumber(2)),
        ("p cnf 1 1\np cnf 1 1\n", CnfFault::BadNumber(2)),
        ("p cnf 1 1\n1 %\n", CnfFault::BadNumber(2)),
        ("p cnf 1 0\n1 0\n", CnfFault::TooManyClauses(2)),
        ("p cnf 1 0\n\n0\n", CnfFault::TooManyClauses(3)),
        ("p cnf 1 2\n1 0 -1 0 1 0\n", CnfFault::TooManyClauses(2)),
        ("p cnf 2 1\n1 2\n", CnfFault::Unclosed(3)),
        ("p cnf 1 1\n1", CnfFault::Unclosed(2)),
        ("p cnf 2 3\n1 0\n2 0\n", CnfFault::TooFewClauses(4)),
        ("p cnf 1 2\n1 0\nc -1 0\n", CnfFault::TooFewClauses(4)),
        ("p cnf 1 4000000\n", CnfFault::TooFewClauses(2)),
        ("p cnf 1 1\n%\n1 0\n", CnfFault::TooFewClauses(2)),
        (zeros, CnfFault::TooLong(2)),
        (long_header, CnfFault::TooLong(1)),
    ];
    for (text, fault) in cases {
        for grain in GRAINS {
            let outcome = read(rt.alloc(), text.as_bytes(), grain);
            assert_eq!(rt; outcome.err(), Some(fault), "{text} by {grain}");
        }
    }
    let outcome = read(rt.alloc(), b"p cnf 1 1\n\xff\n".as_slice(), 4096);
    assert_eq!(rt; outcome.err(), Some(CnfFault::BadNumber(2)));
}

#[test]
fn odd_texts_are_read(rt: HostRuntime) -> Result<(), Fail> {
    let widest = "p cnf 1 1\n-000000000000000000000000000000000000000000000000000000000000001 0";
    let cases = [
        ("p cnf 0 0\n", [0].as_slice()),
        ("p cnf 1000000 0", [1_000_000].as_slice()),
        ("p cnf 0 1\n0\n", [0, 0].as_slice()),
        ("p cnf 1 1\n1 0", [1, 1, 0].as_slice()),
        (
            "c a small file\np cnf 3  2 \n 1 -2 0\n-1 3 0\n%\n0\n\n",
            [3, 1, -2, 0, -1, 3, 0].as_slice(),
        ),
        (
            "c a\r\np cnf 2 2\r\n1\r\nc mid\r\n-2 0 2\t0\r\n",
            [2, 1, -2, 0, 2, 0].as_slice(),
        ),
        (
            "p\tcnf 02 001\n 1 2 1 -1\n2 00\n %, never read",
            [2, 1, 2, -1, 0].as_slice(),
        ),
        (
            "c c\n  c %\n\t\np cnf 1 1\n1 0\n \t%1 0\n",
            [1, 1, 0].as_slice(),
        ),
        (widest, [1, -1, 0].as_slice()),
    ];
    for (text, want) in cases {
        for grain in GRAINS {
            let formula = read(rt.alloc(), text.as_bytes(), grain)?;
            let found = numbers(rt.alloc(), &formula)?;
            assert_eq!(rt; found.as_slice(), want, "{text} by {grain}");
        }
    }
    Ok(())
}

/// Two clauses of more literals than are sought one by one, with some of them twice.
#[test]
fn wide_clauses_keep_each_literal_once(rt: HostRuntime) -> Result<(), Fail> {
    let mut text = String::from_str(rt.alloc(), "p cnf 50 2\n")?;
    let mut want = vec![in rt.alloc(); 50]?;
    for first in [1, 11] {
        for variable in first..first + 40 {
            text.push_str(format!(in rt.alloc(); "{variable} ")?.as_str())?;
            want.push(variable)?;
        }
        text.push_str(format!(in rt.alloc(); "{first} -{first} {first} 0\n")?.as_str())?;
        want.push(-first)?;
        want.push(0)?;
    }
    let formula = read(rt.alloc(), text.as_bytes(), 4096)?;
    let found = numbers(rt.alloc(), &formula)?;
    assert_eq!(rt; found.as_slice(), want.as_slice());
    Ok(())
}

#[test]
fn no_shorter_text_is_the_formula(rt: HostRuntime) -> Result<(), Fail> {
    let text = b"p cnf 2 4\n1 2 0\n1 -2 0\n-1 2 0\n-1 -2 0\n".as_slice();
    for end in 0..text.len() {
        let outcome = read(rt.alloc(), &text[..end], 4096);
        assert_eq!(rt; outcome.is_ok(), end + 1 == text.len(), "{end} bytes");
    }
    let whole = read(rt.alloc(), text, 4096)?;
    assert_eq!(rt; whole.len(), 4);
    Ok(())
}

#[test]
fn a_fault_is_answered_again(rt: HostRuntime) {
    let mut reader = Reader::new(rt.alloc());
    let fault = CnfFault::BadHeader(1);
    assert_eq!(rt; reader.feed(b"p q ".as_slice()), Err(fault));
    assert_eq!(rt; reader.feed(b"cnf 1 1\n".as_slice()), Err(fault));
    assert_eq!(rt; reader.done(), false);
    assert_eq!(rt; reader.end().err(), Some(fault));
}

#[test]
fn pieces_after_the_end_are_ignored(rt: HostRuntime) -> Result<(), Fail> {
    let mut reader = Reader::new(rt.alloc());
    reader.feed(b"p cnf 1 1\n1 0\n ".as_slice())?;
    assert_eq!(rt; reader.done(), false);
    reader.feed(b"%".as_slice())?;
    assert_eq!(rt; reader.done(), true);
    reader.feed(b" no formula\nat all".as_slice())?;
    assert_eq!(rt; reader.done(), true);
    let formula = reader.end()?;
    assert_eq!(rt; formula.len(), 1);
    Ok(())
}

#[test]
fn faults_have_texts(rt: HostRuntime) -> Result<(), Fail> {
    let cases = [
        (CnfFault::TooFewClauses(4), "line 4: TooFewClauses"),
        (
            CnfFault::OverLimit(Which::Clauses, 1),
            "line 1: OverLimit Clauses",
        ),
        (CnfFault::NoMemory, "out of memory"),
    ];
    for (fault, want) in cases {
        let text = format!(in rt.alloc(); "{fault}")?;
        assert_eq!(rt; text.as_str(), want);
    }
    Ok(())
}
