ghost use Rattle.std.specs.Prelude.{ℕ, ◌<◌};

use crate::fault::LineFault;
use crate::reader::LineReader;
use lit_base::{Line, LineStep};
use std::alloc::{AllocError, Global};
use std::test::Fail;

/// The sizes of the pieces that each text is cut into.
const GRAINS: [usize; 4] = [1, 2, 3, 4096];

/// Adds the line's numbers: its own, its id, and then literals, 0, hints, 0, or for a deletion -1, the ids, 0.
fn push_line(numbers: &mut Vec<i128>, line: &Line) -> Result<(), AllocError> {
    numbers.push(i128::from(line.line))?;
    match &line.step {
        LineStep::Add { id, lits, hints } => {
            numbers.push(i128::from(*id))?;
            for lit in lits.as_slice() {
                numbers.push(i128::from(lit.number()))?;
            }
            numbers.push(0)?;
            for hint in hints.as_slice() {
                numbers.push(i128::from(*hint))?;
            }
        }
        LineStep::Delete { id, ids } => {
            numbers.push(i128::from(*id))?;
            numbers.push(-1)?;
            for id in ids.as_slice() {
                numbers.push(i128::from(*id))?;
            }
        }
    }
    numbers.push(0)?;
    Ok(())
}

/// Feeds a piece, and adds the numbers of the lines that end in it.
fn feed_piece(
    reader: &mut LineReader,
    piece: &[u8],
    numbers: &mut Vec<i128>,
) -> Result<Option<LineFault>, AllocError> {
    let mut at = 0;
    while at < piece.len() {
        match reader.feed(&piece[at..]) {
            Ok((count, line)) => {
                if let Some(line) = line {
                    push_line(numbers, &line)?;
                }
                at += count;
            }
            Err(fault) => return Ok(Some(fault)),
        }
    }
    Ok(None)
}

/// Reads the text in pieces of this size: the numbers of its lines up to the first fault, and that fault.
fn read(
    alloc: Global,
    text: &[u8],
    grain: usize,
) -> Result<(Vec<i128>, Option<LineFault>), AllocError>
    requires { 0 < grain }
{
    let mut numbers = Vec::new(alloc);
    let mut reader = LineReader::new(alloc);
    for piece in text.chunks(grain) {
        let fault = feed_piece(&mut reader, piece, &mut numbers)?;
        if fault.is_some() {
            return Ok((numbers, fault));
        }
    }
    match reader.end() {
        Ok(Some(line)) => {
            push_line(&mut numbers, &line)?;
            Ok((numbers, None))
        }
        Ok(None) => Ok((numbers, None)),
        Err(fault) => Ok((numbers, Some(fault))),
    }
}

#[test]
fn lines_are_read(rt: HostRuntime) -> Result<(), Fail> {
    let cases = [
        ("", [].as_slice()),
        ("\n \t\r\n", [].as_slice()),
        ("c 5 1 0\n  c x 1", [].as_slice()),
        (
            "5 1 0 1 2 0\n6 0 5 3 4 0\n",
            [1, 5, 1, 0, 1, 2, 0, 2, 6, 0, 5, 3, 4, 0].as_slice(),
        ),
        ("5 1 0 1 2 0", [1, 5, 1, 0, 1, 2, 0].as_slice()),
        ("5 0 0", [1, 5, 0, 0].as_slice()),
        ("5 d 0\n", [1, 5, -1, 0].as_slice()),
        (
            "\nc x\n007 d 01 2 00\t\r\n8 -2 3 0 7 0",
            [3, 7, -1, 1, 2, 0, 4, 8, -2, 3, 0, 7, 0].as_slice(),
        ),
        (
            "5 -1000000 1000000 0 9223372036854775807 0\n",
            [1, 5, -1_000_000, 1_000_000, 0, 9_223_372_036_854_775_807, 0].as_slice(),
        ),
        (
            "9223372036854775807 d 00000000000000000000000000000000012 0\n",
            [1, 9_223_372_036_854_775_807, -1, 12, 0].as_slice(),
        ),
        (
            "5 1 1 -1 0 1 1 0\n",
            [1, 5, 1, 1, -1, 0, 1, 1, 0].as_slice(),
        ),
    ];
    for (text, want) in cases {
        for grain in GRAINS {
            let (found, fault) = read(rt.alloc(), text.as_bytes(), grain)?;
            assert_eq!(rt; fault, None, "{text} by {grain}");
            assert_eq!(rt; found.as_slice(), want, "{text} by {grain}");
        }
    }
    Ok(())
}

#[test]
fn faults_come_behind_their_lines(rt: HostRuntime) -> Result<(), Fail> {
    let cases = [
        ("5 1 0 -1 2 0\n", 0, LineFault::RatHint(1)),
        ("5 1 0 -99999999999999999999 0\n", 0, LineFault::RatHint(1)),
        ("5 1 0 -0 0\n", 0, LineFault::BadToken(1)),
        ("5 1 0 - 0\n", 0, LineFault::BadToken(1)),
        ("5 1 0 1 2\n", 0, LineFault::Unclosed(1)),
        ("5 1 0 1 2", 0, LineFault::Unclosed(1)),
        ("5 1", 0, LineFault::Unclosed(1)),
        ("5\n", 0, LineFault::Unclosed(1)),
        ("5 d 1\n", 0, LineFault::Unclosed(1)),
        ("5 d\n", 0, LineFault::Unclosed(1)),
        ("5 x 0 1 0\n", 0, LineFault::BadToken(1)),
        ("x\n", 0, LineFault::BadToken(1)),
        ("0 1 0 1 0\n", 0, LineFault::BadToken(1)),
        ("-5 1 0 1 0\n", 0, LineFault::BadToken(1)),
        ("9223372036854775808 0 0\n", 0, LineFault::BadToken(1)),
        ("5 1000001 0 0\n", 0, LineFault::BadToken(1)),
        ("5 -0 0 0\n", 0, LineFault::BadToken(1)),
        ("5 +1 0 0\n", 0, LineFault::BadToken(1)),
        ("5 1 d 0\n", 0, LineFault::BadToken(1)),
        ("d 5 0\n", 0, LineFault::BadToken(1)),
        ("5 dd 1 0\n", 0, LineFault::BadToken(1)),
        ("5 0 9223372036854775808 0\n", 0, LineFault::BadToken(1)),
        ("5 d -1 0\n", 0, LineFault::BadToken(1)),
        ("5 d 18446744073709551617 0\n", 0, LineFault::BadToken(1)),
        ("5 0 1 0 0\n", 0, LineFault::BadToken(1)),
        ("5 d 1 0 c\n", 0, LineFault::BadToken(1)),
        ("5 0 0\n\n6 1 0 -1 0", 4, LineFault::RatHint(3)),
        ("5 0 0\n\nc\n6 0 1", 4, LineFault::Unclosed(4)),
        ("5 0 0\n6 0 0\n7 %", 8, LineFault::BadToken(3)),
    ];
    for (text, count, want) in cases {
        for grain in GRAINS {
            let (found, fault) = read(rt.alloc(), text.as_bytes(), grain)?;
            assert_eq!(rt; fault, Some(want), "{text} by {grain}");
            assert_eq!(rt; found.len(), count, "{text} by {grain}");
        }
    }
    let (_, fault) = read(rt.alloc(), b"5 \xff 0\n".as_slice(), 4096)?;
    assert_eq!(rt; fault, Some(LineFault::BadToken(1)));
    Ok(())
}

#[test]
fn a_line_is_handed_out_at_its_end(rt: HostRuntime) -> Result<(), Fail> {
    let text = b"5 1 0 1 2 0\n\n6 0 5 3 4 0\n7".as_slice();
    let mut reader = LineReader::new(rt.alloc());
    let mut at = 0;
    for (count, has_line) in [(12, true), (13, true), (1, false)] {
        let (taken, line) = reader.feed(&text[at.min(text.len())..])?;
        assert_eq!(rt; (taken, line.is_some()), (count, has_line));
        at += count;
    }
    assert_eq!(rt; reader.end().err(), Some(LineFault::Unclosed(4)));
    Ok(())
}

#[test]
fn a_fault_is_answered_again(rt: HostRuntime) {
    let mut reader = LineReader::new(rt.alloc());
    let fault = LineFault::RatHint(1);
    assert_eq!(rt; reader.feed(b"5 0 -1 ".as_slice()).err(), Some(fault));
    assert_eq!(rt; reader.feed(b"0\n5 x\n".as_slice()).err(), Some(fault));
    assert_eq!(rt; reader.end().err(), Some(fault));
    assert_eq!(rt; reader.end().err(), Some(fault));
}

#[test]
fn a_token_is_judged_behind_its_last_byte(rt: HostRuntime) -> Result<(), Fail> {
    let mut reader = LineReader::new(rt.alloc());
    let (taken, line) = reader.feed(b"5 0 -1".as_slice())?;
    assert_eq!(rt; (taken, line.is_some()), (6, false));
    assert_eq!(rt; reader.feed(b"x".as_slice()).is_ok(), true);
    assert_eq!(rt;
        reader.feed(b" ".as_slice()).err(),
        Some(LineFault::BadToken(1))
    );
    Ok(())
}

#[test]
fn faults_have_texts(rt: HostRuntime) -> Result<(), Fail> {
    let cases = [
        (LineFault::BadToken(4), "line 4: BadToken"),
        (LineFault::ProofTooLong(1), "line 1: ProofTooLong"),
        (LineFault::NoMemory, "out of memory"),
    ];
    for (fault, want) in cases {
        let text = format!(in rt.alloc(); "{fault}")?;
        assert_eq!(rt; text.as_str(), want);
    }
    Ok(())
}
