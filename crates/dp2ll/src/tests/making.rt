//! Runs of `gen` and `race`, whose text stands on the answer port alone.

use super::{Failing, GRAINS, NONE, Wanted, calls_for, front, run_on};
use std::test::Fail;

/// The words of a command, and the text that it writes.
struct Row {
    name: &'static str,
    words: &'static [&'static str],
    text: &'static [u8],
}

static ROWS: [Row; 5] = [
    Row {
        name: "one cell",
        words: &["gen", "grid", "1"],
        text: b"p cnf 3 1\n1 2 3 0\n",
    },
    Row {
        name: "two holes",
        words: &["gen", "hole", "2"],
        text: b"p cnf 6 9\n1 2 0\n3 4 0\n5 6 0\n-1 -3 0\n-1 -5 0\n-3 -5 0\n-2 -4 0\n-2 -6 0\n-4 -6 0\n",
    },
    Row {
        name: "a drawn formula",
        words: &["gen", "rand", "3", "--seed", "1"],
        text: b"p cnf 3 12\n3 1 2 0\n-3 -2 1 0\n2 -3 3 0\n1 0\n-1 2 0\n-1 3 0\n1 -1 2 0\n3 0\n2 -1 0\n2 3 -2 0\n3 2 0\n1 -1 0\n",
    },
    Row {
        name: "a race of one hole",
        words: &["race", "hole", "1"],
        text: b"c race hole 1\nc variables 2 clauses 3\nc eras 1\nc winner 0\nc lemmas 1\ns UNSATISFIABLE\n",
    },
    Row {
        name: "a race that is given up",
        words: &["race", "hole", "2", "--cores", "1", "--limit", "1"],
        text: b"c race hole 2\nc variables 6 clauses 9\nc eras 1\nc winner none\nc lemmas 1\ns UNKNOWN\n",
    },
];

/// What a run leaves that ended with this status and complaint, and wrote so many bytes of its text.
fn left(
    text: &'static [u8],
    status: u8,
    complaint: &'static [u8],
    written: usize,
) -> Wanted<'static> {
    Wanted {
        status,
        answer: front(text, written),
        log: b"",
        complaint,
        names: 0,
        reads: 0,
    }
}

#[test]
fn a_text_is_the_same_for_every_grain(rt: HostRuntime) -> Result<(), Fail> {
    for row in &ROWS {
        for grain in GRAINS {
            let wanted = left(row.text, 0, b"", usize::MAX);
            run_on(&rt, rt.alloc(), row.words, b"", grain, NONE)?.is(&rt, &wanted, row.name, grain);
        }
    }
    Ok(())
}

/// Each write of the text fails in turn: what stands then is what was written before.
#[test]
fn a_text_that_is_cut_short_is_a_front(rt: HostRuntime) -> Result<(), Fail> {
    let row = &ROWS[3];
    for grain in GRAINS {
        for call in 1..=calls_for(row.text.len(), grain) {
            let failing = Failing {
                answer: call as u64,
                ..NONE
            };
            let written = call.saturating_sub(1).saturating_mul(grain);
            let wanted = left(row.text, 4, b"dp2ll: cannot write answer\n", written);
            run_on(&rt, rt.alloc(), row.words, b"", grain, failing)?.is(
                &rt, &wanted, row.name, grain,
            );
        }
    }
    Ok(())
}
