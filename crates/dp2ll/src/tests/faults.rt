//! Ports of which one call fails, over runs of one byte a call.

use super::{
    CLASHING, Failing, LOGGED, NONE, PLAIN, SQUARE, USAGE_LEFT, Wanted, calls_for, front, run_on,
    run_over,
};
use std::test::Fail;

const UNIT: &[u8] = b"p cnf 1 1\n1 0\n";

const MODEL: &[u8] = b"s SATISFIABLE\nv 1 0\n";

const UNWRITTEN: &[u8] = b"dp2ll: cannot write answer\n";

const UNLOGGED: &[u8] = b"dp2ll: cannot write log\n";

/// The log of two cores that share their lemmas.
const LOG: &[u8] = b"5 1 0 1 2 0\n6 -1 0 3 4 0\n7 0 5 6 0\n";

/// What is left of a run that has read all of this file, and ended with this status and complaint.
fn left<'a>(text: &[u8], grain: usize, status: u8, complaint: &'a [u8]) -> Wanted<'a> {
    Wanted {
        status,
        answer: b"",
        log: b"",
        complaint,
        names: 0,
        reads: calls_for(text.len(), grain).saturating_add(1),
    }
}

/// Each write of the answer fails in turn: so many bytes stand as were written before. Behind the last there is nothing to fail.
#[test]
fn an_answer_that_fails_at_each_byte(rt: HostRuntime) -> Result<(), Fail> {
    for call in 1..=MODEL.len() {
        let failing = Failing {
            answer: call as u64,
            ..NONE
        };
        let mut wanted = left(UNIT, 1, 4, UNWRITTEN);
        wanted.answer = front(MODEL, call.saturating_sub(1));
        run_on(&rt, rt.alloc(), &PLAIN, UNIT, 1, failing)?.is(&rt, &wanted, "answer", call);
    }
    let failing = Failing { answer: 21, ..NONE };
    let mut wanted = left(UNIT, 1, 10, b"");
    wanted.answer = MODEL;
    run_on(&rt, rt.alloc(), &PLAIN, UNIT, 1, failing)?.is(&rt, &wanted, "answer", 21);
    Ok(())
}

/// A failed write of the complaint changes no status.
#[test]
fn an_answer_and_its_complaint_that_fail(rt: HostRuntime) -> Result<(), Fail> {
    let failing = Failing {
        answer: 1,
        complaint: 1,
        ..NONE
    };
    let wanted = left(UNIT, 1, 4, b"");
    run_on(&rt, rt.alloc(), &PLAIN, UNIT, 1, failing)?.is(&rt, &wanted, "answer", 1);
    Ok(())
}

/// Each call on the log port fails in turn, its creation first, with cores in turn and side by side: a front of the log stands,
/// and nothing of the answer.
#[test]
fn a_log_that_fails_at_each_byte(rt: HostRuntime) -> Result<(), Fail> {
    for workers in ["0", "1", "2", "3"] {
        let words = [
            "solve",
            "f",
            "--cores",
            "2",
            "--period",
            "1",
            "--limit",
            "10",
            "--log",
            "g",
            "--workers",
            workers,
        ];
        for call in 1..=LOG.len().saturating_add(1) {
            let failing = Failing {
                log: call as u64,
                ..NONE
            };
            let mut wanted = left(SQUARE, 1, 4, UNLOGGED);
            wanted.log = front(LOG, call.saturating_sub(2));
            wanted.names = 1;
            run_on(&rt, rt.alloc(), &words, SQUARE, 1, failing)?.is(&rt, &wanted, workers, call);
        }
        let failing = Failing { log: 37, ..NONE };
        let mut wanted = left(SQUARE, 1, 20, b"");
        wanted.answer = b"s UNSATISFIABLE\n";
        wanted.log = LOG;
        wanted.names = 1;
        run_on(&rt, rt.alloc(), &words, SQUARE, 1, failing)?.is(&rt, &wanted, workers, 37);
    }
    Ok(())
}

/// Each call on the formula's slot fails in turn, of a run that makes fifteen: nothing is written but the complaint.
#[test]
fn a_formula_that_fails_at_each_call(rt: HostRuntime) -> Result<(), Fail> {
    let calls = calls_for(SQUARE.len(), 3).saturating_add(2);
    assert_eq!(&rt; calls, 15);
    for call in 1..=calls {
        let failing = Failing {
            formula: call as u64,
            ..NONE
        };
        let mut wanted = left(SQUARE, 3, 3, b"dp2ll: cannot read formula\n");
        wanted.reads = call.saturating_sub(1);
        run_on(&rt, rt.alloc(), &LOGGED, SQUARE, 3, failing)?.is(&rt, &wanted, "formula", call);
    }
    Ok(())
}

/// Words over a formula and a proof, of which calls fail, and what is left of the run where its complaint is written whole.
struct Row {
    name: &'static str,
    words: &'static [&'static str],
    formula: &'static [u8],
    failing: Failing,
    left: Wanted<'static>,
}

const CHECK: [&str; 3] = ["check", "f", "p"];

/// A run for each status that has a complaint, and for each complaint of its own.
static ROWS: [Row; 7] = [
    Row {
        name: "words that are no command line",
        words: &["solve"],
        formula: UNIT,
        failing: NONE,
        left: USAGE_LEFT,
    },
    Row {
        name: "no formula",
        words: &LOGGED,
        formula: b"p cnf 1 2\n1 0\n",
        failing: NONE,
        left: Wanted {
            status: 2,
            complaint: b"dp2ll: formula line 3: TooFewClauses\n",
            reads: 15,
            ..USAGE_LEFT
        },
    },
    Row {
        name: "a formula that can't be read",
        words: &CHECK,
        formula: UNIT,
        failing: Failing { formula: 2, ..NONE },
        left: Wanted {
            status: 3,
            complaint: b"dp2ll: cannot read formula\n",
            reads: 1,
            ..USAGE_LEFT
        },
    },
    Row {
        name: "a proof that can't be read",
        words: &CHECK,
        formula: UNIT,
        failing: Failing { proof: 1, ..NONE },
        left: Wanted {
            status: 3,
            complaint: b"dp2ll: cannot read proof\n",
            reads: 15,
            ..USAGE_LEFT
        },
    },
    Row {
        name: "a log that can't be created",
        words: &LOGGED,
        formula: CLASHING,
        failing: Failing { log: 1, ..NONE },
        left: Wanted {
            status: 4,
            complaint: UNLOGGED,
            names: 1,
            reads: 20,
            ..USAGE_LEFT
        },
    },
    Row {
        name: "an answer that is cut short",
        words: &PLAIN,
        formula: UNIT,
        failing: Failing { answer: 3, ..NONE },
        left: Wanted {
            status: 4,
            answer: b"s ",
            complaint: UNWRITTEN,
            reads: 15,
            ..USAGE_LEFT
        },
    },
    Row {
        name: "a proof that doesn't check",
        words: &CHECK,
        formula: UNIT,
        failing: NONE,
        left: Wanted {
            status: 6,
            answer: b"s NOT VERIFIED\n",
            complaint: b"dp2ll: proof line 1: NotFalsified\n",
            reads: 23,
            ..USAGE_LEFT
        },
    },
];

/// Each write of each complaint fails in turn: a front of it stands, and all else is as without the failure.
#[test]
fn a_complaint_that_fails_at_each_byte(rt: HostRuntime) -> Result<(), Fail> {
    for row in &ROWS {
        let held = [("f", row.formula), ("p", b"2 0 1 0\n".as_slice())];
        for call in 1..=row.left.complaint.len().saturating_add(1) {
            let failing = Failing {
                complaint: call as u64,
                ..row.failing
            };
            let mut wanted = row.left;
            wanted.complaint = front(row.left.complaint, call.saturating_sub(1));
            run_over(&rt, rt.alloc(), row.words, &held, 1, failing)?.is(
                &rt, &wanted, row.name, call,
            );
        }
    }
    Ok(())
}
