//! Runs of `check`.

use super::{Failing, GRAINS, NONE, SQUARE, Wanted, calls_for, cut, run_over};
use std::alloc::Global;
use std::process::Abort;
use std::sync::Wait;
use std::test::Fail;
use std::thread::Threads;

pub(super) const WORDS: [&str; 3] = ["check", "f", "p"];

pub(super) const NO_EMPTY_CLAUSE: &[u8] = b"dp2ll: proof has no empty clause\n";

/// A proof of the four clauses, with no LF at its end.
const PROOF: &[u8] = b"5 1 0 1 2 0\n6 0 5 3 4 0";

/// How many reads a file takes: up to this byte, or for 0 up to its end and the read that meets it.
fn reads_up_to(text: &[u8], stop: usize, grain: usize) -> usize {
    if stop > 0 {
        calls_for(stop, grain)
    } else {
        calls_for(text.len(), grain).saturating_add(1)
    }
}

/// What `check` has to leave of the four clauses and a proof: it is verified where there is no complaint, and reading it has to
/// stop with this byte, or for 0 goes on to its end.
pub(super) fn judged<'a>(
    proof: &[u8],
    complaint: &'a [u8],
    stop: usize,
    grain: usize,
) -> Wanted<'a> {
    let is_verified = complaint.is_empty();
    Wanted {
        status: if is_verified { 0 } else { 6 },
        answer: if is_verified {
            b"s VERIFIED\n"
        } else {
            b"s NOT VERIFIED\n"
        },
        log: b"",
        complaint,
        names: 0,
        reads: reads_up_to(SQUARE, 0, grain).saturating_add(reads_up_to(proof, stop, grain)),
    }
}

/// Runs `check` over the four clauses and this proof.
pub(super) fn check_all<R: Abort + Threads + Wait + Sync>(
    rt: &R,
    alloc: Global,
    rows: &[(&[u8], &[u8], usize)],
) -> Result<(), Fail> {
    for row in rows {
        for grain in GRAINS {
            let wanted = judged(row.0, row.1, row.2, grain);
            run_over(
                rt,
                alloc,
                &WORDS,
                &[("f", SQUARE), ("p", row.0)],
                grain,
                NONE,
            )?
            .is(rt, &wanted, "check", grain);
        }
    }
    Ok(())
}

/// Nothing is read behind the line of the first empty clause.
#[test]
fn a_proof_that_checks(rt: HostRuntime) -> Result<(), Fail> {
    check_all(
        &rt,
        rt.alloc(),
        &[
            (b"5 1 0 1 2 0\n6 0 5 3 4 0\n7 x\n", b"", 24),
            (PROOF, b"", 0),
            (
                b"c a proof\n\n005 1 0 1 2 0\r\n9 0 5 3 4 77 0\n4 -0 0\n",
                b"",
                41,
            ),
        ],
    )
}

/// The first fault in the order of lines decides, the reader's or the judge's, and else the missing empty clause.
#[test]
fn a_proof_that_has_a_flaw(rt: HostRuntime) -> Result<(), Fail> {
    check_all(
        &rt,
        rt.alloc(),
        &[
            (b"5 1 0 1 2 0", NO_EMPTY_CLAUSE, 0),
            (b"5 0 1 0\n6 x\n", b"dp2ll: proof line 1: NotUnit at 1\n", 8),
            (
                b"5 1 0 1 2 0\n6 0 5 3 4",
                b"dp2ll: proof line 2: Unclosed\n",
                0,
            ),
            (b"5 1 0 -1 2 0\n", b"dp2ll: proof line 1: RatHint\n", 9),
        ],
    )
}

/// Each call on the proof's slot fails in turn: nothing is answered.
#[test]
fn a_read_of_the_proof_that_fails(rt: HostRuntime) -> Result<(), Fail> {
    let unread = b"dp2ll: cannot read proof\n";
    for grain in GRAINS {
        let all = judged(PROOF, b"", 0, grain);
        for call in 1..=calls_for(PROOF.len(), grain).saturating_add(2) {
            let failing = Failing {
                proof: call as u64,
                ..NONE
            };
            let mut wanted = cut(&all, 3, unread, 0, 0);
            wanted.reads = reads_up_to(SQUARE, 0, grain).saturating_add(call.saturating_sub(1));
            run_over(
                &rt,
                rt.alloc(),
                &WORDS,
                &[("f", SQUARE), ("p", PROOF)],
                grain,
                failing,
            )?
            .is(&rt, &wanted, "proof", grain);
        }
    }
    Ok(())
}

/// Each write of the answer fails in turn, of either finding: a front of it stands, and no flaw is told.
#[test]
fn an_answer_of_check_that_fails(rt: HostRuntime) -> Result<(), Fail> {
    let unwritten = b"dp2ll: cannot write answer\n";
    for grain in GRAINS {
        for row in [(PROOF, b"".as_slice()), (b"5 1 0 1 2 0", NO_EMPTY_CLAUSE)] {
            let all = judged(row.0, row.1, 0, grain);
            for call in 1..=calls_for(all.answer.len(), grain) {
                let failing = Failing {
                    answer: call as u64,
                    ..NONE
                };
                let written = call.saturating_sub(1).saturating_mul(grain);
                let wanted = cut(&all, 4, unwritten, 0, written);
                run_over(
                    &rt,
                    rt.alloc(),
                    &WORDS,
                    &[("f", SQUARE), ("p", row.0)],
                    grain,
                    failing,
                )?
                .is(&rt, &wanted, "answer", grain);
            }
        }
    }
    Ok(())
}
