//! Runs with a trace, of few conflicts, and with every number of workers.

use super::{Left, NONE, SQUARE, Wanted, desk_of, run_on};
use crate::run::run_still;
use std::alloc::Global;
use std::test::Fail;

/// Numbers of workers.
const WORKERS: [&str; 4] = ["0", "1", "2", "3"];

/// A run of the four clauses of two variables with a log, and what it leaves.
pub(super) struct Told {
    pub(super) words: &'static [&'static str],
    status: u8,
    answer: &'static [u8],
    log: &'static [u8],
}

impl Told {
    /// What is wanted of the run.
    pub(super) fn wanted(&self) -> Wanted<'_> {
        Wanted {
            status: self.status,
            answer: self.answer,
            log: self.log,
            complaint: b"",
            names: 1,
            reads: 2,
        }
    }
}

pub(super) static TOLD: [Told; 4] = [
    Told {
        words: &[
            "solve", "f", "--cores", "2", "--period", "1", "--limit", "10", "--trace", "--log", "g",
        ],
        status: 20,
        answer: b"c core 0 phase 0 unit 100 weight 1 halve 256 noise 0 share 8
c core 1 phase 1 unit 100 weight 1 halve 256 noise 0 share 8
c era 1 0 1 1 1 1
c era 1 1 1 1 1 1
c era 2 0 1 2 0 0
c era 2 1 1 2 0 0
c winner 0
s UNSATISFIABLE
",
        log: b"5 1 0 1 2 0\n6 -1 0 3 4 0\n7 0 5 6 0\n",
    },
    Told {
        words: &[
            "solve", "f", "--cores", "2", "--period", "1", "--limit", "10", "--share", "0",
            "--log", "g",
        ],
        status: 20,
        answer: b"s UNSATISFIABLE\n",
        log: b"5 1 0 1 2 0\n6 -1 0 3 4 0\n7 0 5 3 4 0\n",
    },
    Told {
        words: &["solve", "f", "--limit", "1", "--cores", "1", "--log", "g"],
        status: 0,
        answer: b"s UNKNOWN\n",
        log: b"5 1 0 1 2 0\n",
    },
    Told {
        words: &[
            "solve", "f", "--trace", "--cores", "1", "--limit", "1", "--log", "g",
        ],
        status: 0,
        answer: b"c core 0 phase 0 unit 100 weight 1 halve 256 noise 0 share 8
c era 1 0 1 1 1 0
c winner none
s UNKNOWN
",
        log: b"5 1 0 1 2 0\n",
    },
];

/// Runs the words over one file `f` of these bytes, and waits for nobody.
fn run_still_on(alloc: Global, words: &[&str], text: &[u8]) -> Result<Left, Fail> {
    let mut desk = desk_of(alloc, words, &[("f", text)], 4096, NONE)?;
    let status = run_still(
        alloc,
        desk.words.as_slice(),
        &mut desk.inputs,
        &mut desk.outputs,
    );
    Ok(Left {
        status,
        reads: desk.inputs.reads,
        outputs: desk.outputs,
    })
}

/// With `--trace` the answer begins with the cores, what each did in each era, and the winner. Two cores share their lemmas,
/// but for a share of 0. With a limit of one conflict the formula is given up behind its first lemma. All of it is the same for
/// every number of workers.
#[test]
fn runs_of_few_conflicts(rt: HostRuntime) -> Result<(), Fail> {
    let alloc = rt.alloc();
    for row in &TOLD {
        let wanted = row.wanted();
        run_still_on(alloc, row.words, SQUARE)?.is(&rt, &wanted, "still", 4096);
        for workers in WORKERS {
            let mut words = Vec::new(alloc);
            words.extend_from_slice(row.words)?;
            words.extend_from_slice(&["--workers", workers])?;
            run_on(&rt, alloc, words.as_slice(), SQUARE, 4096, NONE)?.is(
                &rt, &wanted, workers, 4096,
            );
        }
    }
    Ok(())
}
