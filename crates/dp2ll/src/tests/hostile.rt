//! Hostile files: formulas and proofs that are cut short, overfull, at the ends of their ranges, or something else altogether.

use super::check::{NO_EMPTY_CLAUSE, WORDS, check_all, judged};
use super::{
    Case, GRAINS, LOGGED, MODEL, NO_FORMULA, NONE, REFUTED, SQUARE, Wanted, calls_for, front,
    run_on, run_over, whole,
};
use std::test::Fail;

static FORMULAS: [Case; 11] = [
    Case {
        name: "no last line feed",
        text: b"p cnf 1 1\n1 0",
        answer: b"s SATISFIABLE\nv 1 0\n",
        ..MODEL
    },
    Case {
        name: "four clauses, and no last line feed",
        text: b"p cnf 2 4\n1 2 0\n1 -2 0\n-1 2 0\n-1 -2 0",
        log: Some(b"5 1 0 1 2 0\n6 0 5 3 4 0\n"),
        ..REFUTED
    },
    Case {
        name: "a clause without its end",
        text: b"p cnf 1 1\n1",
        complaint: b"dp2ll: formula line 2: Unclosed\n",
        ..NO_FORMULA
    },
    Case {
        name: "more clauses than a formula may have",
        text: b"p cnf 1 4000001\n",
        complaint: b"dp2ll: formula line 1: OverLimit Clauses\n",
        stop: 16,
        ..NO_FORMULA
    },
    Case {
        name: "a number too many in the header",
        text: b"p cnf 1 1 1\n",
        complaint: b"dp2ll: formula line 1: BadHeader\n",
        stop: 12,
        ..NO_FORMULA
    },
    Case {
        name: "two headers",
        text: b"p cnf 1 1\np cnf 1 1\n",
        complaint: b"dp2ll: formula line 2: BadNumber\n",
        stop: 12,
        ..NO_FORMULA
    },
    Case {
        name: "a third clause of two",
        text: b"p cnf 1 2\n1 0 -1 0 1 0\n",
        complaint: b"dp2ll: formula line 2: TooManyClauses\n",
        stop: 21,
        ..NO_FORMULA
    },
    Case {
        name: "a number past all words",
        text: b"p cnf 1 1\n99999999999999999999 0\n",
        complaint: b"dp2ll: formula line 2: VariableAbove\n",
        stop: 31,
        ..NO_FORMULA
    },
    Case {
        name: "a byte that is no text",
        text: b"p cnf 1 1\n\xff\n",
        complaint: b"dp2ll: formula line 2: BadNumber\n",
        stop: 12,
        ..NO_FORMULA
    },
    Case {
        name: "the end before the header",
        text: b"%\n",
        complaint: b"dp2ll: formula line 1: NoHeader\n",
        stop: 1,
        ..NO_FORMULA
    },
    Case {
        name: "a clause in a comment",
        text: b"p cnf 1 2\n1 0\nc -1 0\n",
        complaint: b"dp2ll: formula line 4: TooFewClauses\n",
        ..NO_FORMULA
    },
];

#[test]
fn hostile_formulas(rt: HostRuntime) -> Result<(), Fail> {
    for case in &FORMULAS {
        for grain in GRAINS {
            run_on(&rt, rt.alloc(), &LOGGED, case.text, grain, NONE)?.is(
                &rt,
                &whole(case, grain),
                case.name,
                grain,
            );
        }
    }
    Ok(())
}

/// Proofs of the four clauses, the complaint, and the byte with which reading has to stop. Ids may be as great as 2^63 - 1.
#[test]
fn hostile_proofs(rt: HostRuntime) -> Result<(), Fail> {
    check_all(
        &rt,
        rt.alloc(),
        &[
            (
                b"9223372036854775806 1 0 1 2 0\n9223372036854775807 0 9223372036854775806 3 4 0\n",
                b"",
                78,
            ),
            (
                b"9223372036854775808 1 0 1 2 0\n",
                b"dp2ll: proof line 1: BadToken\n",
                20,
            ),
            (
                b"5 1 0 1 2 0\n5 d 5 0\n6 0 5 3 4 0\n",
                b"dp2ll: proof line 3: UnknownHint at 1\n",
                32,
            ),
            (
                b"5 d 1 1 0\n",
                b"dp2ll: proof line 1: UnknownDelete at 2\n",
                10,
            ),
            (
                b"5 1 -1 0 99 0\n6 0 5 0\n",
                b"dp2ll: proof line 2: NotUnit at 1\n",
                22,
            ),
            (b"5 1 0 1 2 77 0\n6 0 5 3 4 0\nrubbish\n", b"", 27),
            (
                b"5 1 0 1 2 0\n5 -1 0 3 4 0\n",
                b"dp2ll: proof line 2: IdNotRising\n",
                25,
            ),
            (b"5 1 0 1 2 0 7\n", b"dp2ll: proof line 1: BadToken\n", 14),
            (b"5 1 0 3 0\n", b"dp2ll: proof line 1: NotFalsified\n", 10),
            (b"", NO_EMPTY_CLAUSE, 0),
        ],
    )
}

/// One byte more than a line of a proof may have.
const LONG_LINE: usize = 33_554_433;

#[test]
fn a_line_of_a_proof_that_is_too_long(rt: HostRuntime) -> Result<(), Fail> {
    let alloc = rt.alloc();
    let blanks = vec![in alloc; b' '; LONG_LINE]?;
    let too_long = b"dp2ll: proof line 1: LineTooLong\n";
    for grain in [1, 4096] {
        let wanted = judged(blanks.as_slice(), too_long, LONG_LINE, grain);
        let held = [("f", SQUARE), ("p", blanks.as_slice())];
        run_over(&rt, alloc, &WORDS, &held, grain, NONE)?.is(&rt, &wanted, "a long line", grain);
    }
    Ok(())
}

/// Of the proper fronts of the four clauses, those that are shorter than this, and in no row before, and their fault. All
/// faults stand at the end of the input.
static FRONTS: [(usize, &[u8]); 20] = [
    (1, b"dp2ll: formula line 1: NoHeader\n"),
    (9, b"dp2ll: formula line 1: BadHeader\n"),
    (10, b"dp2ll: formula line 1: TooFewClauses\n"),
    (11, b"dp2ll: formula line 2: TooFewClauses\n"),
    (15, b"dp2ll: formula line 2: Unclosed\n"),
    (16, b"dp2ll: formula line 2: TooFewClauses\n"),
    (17, b"dp2ll: formula line 3: TooFewClauses\n"),
    (19, b"dp2ll: formula line 3: Unclosed\n"),
    (20, b"dp2ll: formula line 3: BadNumber\n"),
    (22, b"dp2ll: formula line 3: Unclosed\n"),
    (23, b"dp2ll: formula line 3: TooFewClauses\n"),
    (24, b"dp2ll: formula line 4: TooFewClauses\n"),
    (25, b"dp2ll: formula line 4: BadNumber\n"),
    (29, b"dp2ll: formula line 4: Unclosed\n"),
    (30, b"dp2ll: formula line 4: TooFewClauses\n"),
    (31, b"dp2ll: formula line 5: TooFewClauses\n"),
    (32, b"dp2ll: formula line 5: BadNumber\n"),
    (34, b"dp2ll: formula line 5: Unclosed\n"),
    (35, b"dp2ll: formula line 5: BadNumber\n"),
    (37, b"dp2ll: formula line 5: Unclosed\n"),
];

/// Each proper front is no formula, but for the one that lacks just the last LF, which is a row above.
#[test]
fn fronts_of_a_formula(rt: HostRuntime) -> Result<(), Fail> {
    let alloc = rt.alloc();
    for grain in GRAINS {
        let mut start = 0;
        for (end, complaint) in FRONTS {
            for len in start..end {
                let mut wanted = whole(&FORMULAS[2], grain);
                wanted.complaint = complaint;
                wanted.reads = calls_for(len, grain).saturating_add(1);
                run_on(&rt, alloc, &LOGGED, front(SQUARE, len), grain, NONE)?.is(
                    &rt, &wanted, "a front", grain,
                );
            }
            start = end;
        }
    }
    Ok(())
}

/// Each front of a proof that is cut before its last `0` has a flaw: its last line is open, or adds no empty clause.
#[test]
fn fronts_of_a_proof(rt: HostRuntime) -> Result<(), Fail> {
    let proof = b"5 1 0 1 2 0\n6 0 5 3 4 0";
    let rows: [(usize, &[u8]); 4] = [
        (1, NO_EMPTY_CLAUSE),
        (11, b"dp2ll: proof line 1: Unclosed\n"),
        (13, NO_EMPTY_CLAUSE),
        (23, b"dp2ll: proof line 2: Unclosed\n"),
    ];
    let mut start = 0;
    for (end, complaint) in rows {
        for len in start..end {
            check_all(&rt, rt.alloc(), &[(front(proof, len), complaint, 0)])?;
        }
        start = end;
    }
    check_all(&rt, rt.alloc(), &[(proof, b"", 0)])
}
