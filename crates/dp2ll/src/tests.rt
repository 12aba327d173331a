//! Runs of the program over inputs and outputs in memory.

use crate::run::run;
use desk_io::{Failed, Inputs, MemoryInputs, MemoryOutputs, NoGate, Port, Slot};
use lit_base::List;
use std::alloc::Global;
use std::process::Abort;
use std::sync::Wait;
use std::test::Fail;
use std::thread::Threads;

mod check;
mod faults;
mod hostile;
mod making;
mod scribe;
mod workers;

/// How many bytes a call reads or writes at most.
const GRAINS: [usize; 4] = [1, 2, 3, 4096];

const USAGE: &[u8] =
    b"dp2ll: usage\ndp2ll: solve FILE [options] | check FILE PROOF | gen KIND N [options] | race KIND N [options]\n";

const PLAIN: [&str; 2] = ["solve", "f"];

const LOGGED: [&str; 4] = ["solve", "f", "--log", "g"];

/// A formula's file, the status of `solve` on it, and what stands on the ports; a log of None is not created.
///
/// `stop` is the byte with which reading has to stop, 0 where it has to go on to the end.
struct Case {
    name: &'static str,
    text: &'static [u8],
    status: u8,
    answer: &'static [u8],
    log: Option<&'static [u8]>,
    complaint: &'static [u8],
    stop: usize,
}

/// The number of the call that is to fail on each slot and on each port; 0 for none.
#[derive(Clone, Copy)]
struct Failing {
    formula: u64,
    proof: u64,
    log: u64,
    answer: u64,
    complaint: u64,
}

const NONE: Failing = Failing {
    formula: 0,
    proof: 0,
    log: 0,
    answer: 0,
    complaint: 0,
};

/// What a run has to leave: its status, what stands on the ports, how many names were created and how many reads made.
#[derive(Clone, Copy)]
struct Wanted<'a> {
    status: u8,
    answer: &'a [u8],
    log: &'a [u8],
    complaint: &'a [u8],
    names: usize,
    reads: usize,
}

/// Inputs in memory that count the calls of `read`.
#[derive(Drop)]
struct Counted {
    files: MemoryInputs,
    reads: usize,
}

impl Inputs for Counted {
    ghost told = { λ s. ⟦<MemoryInputs as Inputs>⟧.told s.files };

    fn begin(&mut self, slot: Slot, name: &str) -> Result<(), Failed> {
        self.files.begin(slot, name)
    }

    fn read(&mut self, slot: Slot, buf: &mut [u8]) -> Result<usize, Failed> {
        self.reads = self.reads.saturating_add(1);
        self.files.read(slot, buf)
    }
}

/// What a run left.
#[derive(Drop)]
struct Left {
    status: u8,
    reads: usize,
    outputs: MemoryOutputs,
}

impl Left {
    /// Stops the test where this isn't what was wanted.
    fn is<R: Abort>(&self, rt: &R, wanted: &Wanted, name: &str, grain: usize) {
        let names = self.outputs.kept_names().len();
        assert_eq!(rt; self.status, wanted.status, "{name} at {grain}");
        assert_eq!(rt;
            self.outputs.kept(Port::Answer),
            wanted.answer,
            "{name} at {grain}"
        );
        assert_eq!(rt;
            self.outputs.kept(Port::Log),
            wanted.log,
            "{name} at {grain}"
        );
        assert_eq!(rt;
            self.outputs.kept(Port::Complaint),
            wanted.complaint,
            "{name} at {grain}"
        );
        assert_eq!(rt;
            (names, self.reads),
            (wanted.names, wanted.reads),
            "{name} at {grain}"
        );
    }
}

/// The calls that are to fail, a place and a number each; number 0 is left out.
fn failing_at<T: Copy + Drop>(alloc: Global, calls: &[(T, u64)]) -> Result<List<(T, u64)>, Fail> {
    let mut failing = List::new(alloc);
    for call in calls {
        if call.1 > 0 {
            failing.push(*call)?;
        }
    }
    Ok(failing)
}

/// Runs the words over one file `f` of these bytes.
fn run_on<R: Threads + Wait + Sync>(
    rt: &R,
    alloc: Global,
    words: &[&str],
    text: &[u8],
    grain: usize,
    failing: Failing,
) -> Result<Left, Fail> {
    run_over(rt, alloc, words, &[("f", text)], grain, failing)
}

/// What a run is given: the words, and files and ports in memory.
#[derive(Drop)]
struct Desk {
    words: Vec<String>,
    inputs: Counted,
    outputs: MemoryOutputs,
}

/// The words, over files of these names and bytes.
fn desk_of(
    alloc: Global,
    words: &[&str],
    held: &[(&str, &[u8])],
    grain: usize,
    failing: Failing,
) -> Result<Desk, Fail> {
    let mut files = List::new(alloc);
    for file in held {
        files.push((
            List::of(alloc, file.0.as_bytes())?,
            List::of(alloc, file.1)?,
        ))?;
    }
    let reads = failing_at(
        alloc,
        &[
            (Slot::Formula, failing.formula),
            (Slot::Proof, failing.proof),
        ],
    )?;
    let writes = failing_at(
        alloc,
        &[
            (Port::Log, failing.log),
            (Port::Answer, failing.answer),
            (Port::Complaint, failing.complaint),
        ],
    )?;
    let mut all = Vec::new(alloc);
    for word in words {
        all.push(String::from_str(alloc, word)?)?;
    }
    Ok(Desk {
        words: all,
        inputs: Counted {
            files: MemoryInputs::new(files, grain.max(1), reads),
            reads: 0,
        },
        outputs: MemoryOutputs::new(alloc, grain.max(1), writes),
    })
}

/// Runs the words over files of these names and bytes.
fn run_over<R: Threads + Wait + Sync>(
    rt: &R,
    alloc: Global,
    words: &[&str],
    held: &[(&str, &[u8])],
    grain: usize,
    failing: Failing,
) -> Result<Left, Fail> {
    let mut desk = desk_of(alloc, words, held, grain, failing)?;
    let status = run(
        rt,
        alloc,
        desk.words.as_slice(),
        &mut desk.inputs,
        &mut desk.outputs,
        &NoGate,
    );
    Ok(Left {
        status,
        reads: desk.inputs.reads,
        outputs: desk.outputs,
    })
}

/// How many calls move so many bytes at this grain.
fn calls_for(len: usize, grain: usize) -> usize {
    len.div_ceil(grain.max(1))
}

/// How many reads a file takes: up to the byte that stops reading, or up to its end and the read that meets it.
fn reads_of(case: &Case, grain: usize) -> usize {
    if case.stop > 0 {
        calls_for(case.stop, grain)
    } else {
        calls_for(case.text.len(), grain).saturating_add(1)
    }
}

/// So many bytes of the front, or all.
fn front(text: &[u8], len: usize) -> &[u8] {
    &text[..len.min(text.len())]
}

/// What a run with a log has to leave where no call fails.
fn whole(case: &Case, grain: usize) -> Wanted<'static> {
    Wanted {
        status: case.status,
        answer: case.answer,
        log: case.log.unwrap_or(b""),
        complaint: case.complaint,
        names: usize::from(case.log.is_some()),
        reads: reads_of(case, grain),
    }
}

const NO_FORMULA: Case = Case {
    name: "",
    text: b"",
    status: 2,
    answer: b"",
    log: None,
    complaint: b"",
    stop: 0,
};

const MODEL: Case = Case {
    status: 10,
    log: Some(b""),
    ..NO_FORMULA
};

const REFUTED: Case = Case {
    status: 20,
    answer: b"s UNSATISFIABLE\n",
    ..NO_FORMULA
};

/// Four clauses of two variables, of which no model makes all true.
const SQUARE: &[u8] = b"p cnf 2 4\n1 2 0\n1 -2 0\n-1 2 0\n-1 -2 0\n";

static CASES: [Case; 26] = [
    Case {
        name: "one unit",
        text: b"p cnf 1 1\n1 0\n",
        answer: b"s SATISFIABLE\nv 1 0\n",
        ..MODEL
    },
    Case {
        name: "no variables",
        text: b"p cnf 0 0\n",
        answer: b"s SATISFIABLE\nv 0\n",
        ..MODEL
    },
    Case {
        name: "a unit that makes a unit",
        text: b"p cnf 3 3\n-3 0\n3 -1 0\n1 2 3 0\n",
        answer: b"s SATISFIABLE\nv -1 2 -3 0\n",
        ..MODEL
    },
    Case {
        name: "sixteen numbers to a line",
        text: b"p cnf 16 16\n-1 0\n2 0\n3 0\n4 0\n5 0\n6 0\n7 0\n8 0\n9 0\n10 0\n11 0\n12 0\n13 0\n14 0\n15 0\n16 0\n",
        answer: b"s SATISFIABLE\nv -1 2 3 4 5 6 7 8 9 10 11 12 13 14 15 16\nv 0\n",
        ..MODEL
    },
    Case {
        name: "two units clash",
        text: b"p cnf 1 2\n1 0\n-1 0\n",
        log: Some(b"3 0 1 2 0\n"),
        ..REFUTED
    },
    Case {
        name: "an empty clause",
        text: b"p cnf 0 1\n0\n",
        log: Some(b"2 0 1 0\n"),
        ..REFUTED
    },
    Case {
        name: "two clauses falsified in one round",
        text: b"p cnf 2 4\n1 0\n2 0\n-2 -1 0\n-1 0\n",
        log: Some(b"5 0 1 2 3 0\n"),
        ..REFUTED
    },
    Case {
        name: "a reason in the hints",
        text: b"p cnf 3 4\n1 0\n-1 2 0\n-2 3 0\n-1 -3 0\n",
        log: Some(b"5 0 1 2 4 3 0\n"),
        ..REFUTED
    },
    Case {
        name: "a reason that the conflict doesn't need",
        text: b"p cnf 3 4\n3 0\n1 0\n-1 2 0\n-1 -2 0\n",
        log: Some(b"5 0 2 3 4 0\n"),
        ..REFUTED
    },
    Case {
        name: "four clauses over two variables",
        text: SQUARE,
        log: Some(b"5 1 0 1 2 0\n6 0 5 3 4 0\n"),
        ..REFUTED
    },
    Case {
        name: "a conflict on the way to a model",
        text: b"p cnf 3 4\n1 2 0\n1 -2 3 0\n1 -2 -3 0\n2 3 0\n",
        answer: b"s SATISFIABLE\nv 1 2 3 0\n",
        log: Some(b"5 1 0 1 2 3 0\n"),
        ..MODEL
    },
    Case {
        name: "a clause with a literal and its negation",
        text: b"p cnf 1 1\n1 -1 1 0\n",
        answer: b"s SATISFIABLE\nv -1 0\n",
        ..MODEL
    },
    Case {
        name: "sixteen free variables",
        text: b"p cnf 16 0\n",
        answer: b"s SATISFIABLE\nv -1 -2 -3 -4 -5 -6 -7 -8 -9 -10 -11 -12 -13 -14 -15 -16\nv 0\n",
        ..MODEL
    },
    Case {
        name: "satlib ending",
        text: b"c a small file\np cnf 3  2 \n1 -2 0\n-1 3 0\n%\n0\n\n",
        answer: b"s SATISFIABLE\nv -1 -2 -3 0\n",
        stop: 42,
        ..MODEL
    },
    Case {
        name: "what follows the line that ends the input",
        text: b"p cnf 1 1\n1 0\n  % x\np 2 -0 +\n",
        answer: b"s SATISFIABLE\nv 1 0\n",
        stop: 17,
        ..MODEL
    },
    Case {
        name: "comments, tabs and CR",
        text: b"c a\r\np cnf 2 2\r\n1\r\nc mid\r\n-2 0 2\t0\r\n",
        answer: b"s SATISFIABLE\nv 1 2 0\n",
        ..MODEL
    },
    Case {
        name: "leading zeros",
        text: b"p cnf 01 0001\n-01 00\n",
        answer: b"s SATISFIABLE\nv -1 0\n",
        ..MODEL
    },
    Case {
        name: "a clause too few",
        text: b"p cnf 2 3\n1 0\n2 0\n",
        complaint: b"dp2ll: formula line 4: TooFewClauses\n",
        ..NO_FORMULA
    },
    Case {
        name: "nothing",
        text: b"",
        complaint: b"dp2ll: formula line 1: NoHeader\n",
        ..NO_FORMULA
    },
    Case {
        name: "half a header",
        text: b"p cnf 2\n",
        complaint: b"dp2ll: formula line 1: BadHeader\n",
        stop: 8,
        ..NO_FORMULA
    },
    Case {
        name: "too many variables",
        text: b"p cnf 1000001 0\n",
        complaint: b"dp2ll: formula line 1: OverLimit Variables\n",
        stop: 14,
        ..NO_FORMULA
    },
    Case {
        name: "a variable above the header's",
        text: b"p cnf 2 1\n3 0\n",
        complaint: b"dp2ll: formula line 2: VariableAbove\n",
        stop: 12,
        ..NO_FORMULA
    },
    Case {
        name: "minus zero",
        text: b"p cnf 2 1\n-0\n",
        complaint: b"dp2ll: formula line 2: BadNumber\n",
        stop: 13,
        ..NO_FORMULA
    },
    Case {
        name: "a clause too many",
        text: b"p cnf 1 0\n1 0\n",
        complaint: b"dp2ll: formula line 2: TooManyClauses\n",
        stop: 12,
        ..NO_FORMULA
    },
    Case {
        name: "an open clause",
        text: b"p cnf 2 1\n1 2\n",
        complaint: b"dp2ll: formula line 3: Unclosed\n",
        ..NO_FORMULA
    },
    Case {
        name: "a token of 65 bytes",
        text: b"p cnf 1 1\n00000000000000000000000000000000000000000000000000000000000000000",
        complaint: b"dp2ll: formula line 2: TooLong\n",
        stop: 75,
        ..NO_FORMULA
    },
];

/// Each piece is judged before the next is read: a fault or the line that ends the input stops the reads.
#[test]
fn a_file_gives_the_same_for_every_cutting(rt: HostRuntime) -> Result<(), Fail> {
    let alloc = rt.alloc();
    for case in &CASES {
        for grain in GRAINS {
            let logged = whole(case, grain);
            run_on(&rt, alloc, &LOGGED, case.text, grain, NONE)?.is(&rt, &logged, case.name, grain);
            let plain = Wanted {
                log: b"",
                names: 0,
                ..logged
            };
            run_on(&rt, alloc, &PLAIN, case.text, grain, NONE)?.is(&rt, &plain, case.name, grain);
        }
    }
    Ok(())
}

/// The place of "two units clash".
const CLASH: usize = 4;

/// What a run has to leave where a call fails: this status and complaint, and so much of log and answer.
fn cut<'a>(
    whole: &Wanted<'a>,
    status: u8,
    complaint: &'a [u8],
    log: usize,
    answer: usize,
) -> Wanted<'a> {
    Wanted {
        status,
        answer: front(whole.answer, answer),
        log: front(whole.log, log),
        complaint,
        names: whole.names,
        reads: whole.reads,
    }
}

/// Each call fails in turn. What stands on a port then is what was written before, so nothing is written behind the fault.
#[test]
fn a_call_that_fails_leaves_fronts(rt: HostRuntime) -> Result<(), Fail> {
    let alloc = rt.alloc();
    let case = &CASES[CLASH];
    for grain in GRAINS {
        let all = whole(case, grain);
        for call in 1..=calls_for(case.text.len(), grain).saturating_add(2) {
            let failing = Failing {
                formula: call as u64,
                ..NONE
            };
            let mut wanted = cut(&all, 3, b"dp2ll: cannot read formula\n", 0, 0);
            wanted.names = 0;
            wanted.reads = call.saturating_sub(1);
            run_on(&rt, alloc, &LOGGED, case.text, grain, failing)?.is(
                &rt, &wanted, "formula", grain,
            );
        }
        for call in 1..=calls_for(all.log.len(), grain).saturating_add(1) {
            let failing = Failing {
                log: call as u64,
                ..NONE
            };
            let written = call.saturating_sub(2).saturating_mul(grain);
            let wanted = cut(&all, 4, b"dp2ll: cannot write log\n", written, 0);
            run_on(&rt, alloc, &LOGGED, case.text, grain, failing)?.is(&rt, &wanted, "log", grain);
        }
        for call in 1..=calls_for(all.answer.len(), grain) {
            let failing = Failing {
                answer: call as u64,
                ..NONE
            };
            let written = call.saturating_sub(1).saturating_mul(grain);
            let wanted = cut(
                &all,
                4,
                b"dp2ll: cannot write answer\n",
                usize::MAX,
                written,
            );
            run_on(&rt, alloc, &LOGGED, case.text, grain, failing)?.is(
                &rt, &wanted, "answer", grain,
            );
        }
    }
    Ok(())
}

/// Words over a file, of which several calls fail, and what the first refusal leaves.
struct Refusal {
    name: &'static str,
    words: &'static [&'static str],
    text: &'static [u8],
    failing: Failing,
    left: Wanted<'static>,
}

const CLASHING: &[u8] = b"p cnf 1 2\n1 0\n-1 0\n";

/// The first call on each that isn't the complaint port.
const ALL: Failing = Failing {
    formula: 1,
    proof: 1,
    log: 1,
    answer: 1,
    complaint: 0,
};

const USAGE_LEFT: Wanted<'static> = Wanted {
    status: 1,
    answer: b"",
    log: b"",
    complaint: USAGE,
    names: 0,
    reads: 0,
};

const UNREAD: Wanted<'static> = Wanted {
    status: 3,
    complaint: b"dp2ll: cannot read formula\n",
    ..USAGE_LEFT
};

const UNLOGGED: Wanted<'static> = Wanted {
    status: 4,
    complaint: b"dp2ll: cannot write log\n",
    names: 1,
    reads: 2,
    ..USAGE_LEFT
};

static REFUSALS: [Refusal; 7] = [
    Refusal {
        name: "no formula, before the log",
        words: &LOGGED,
        text: b"p cnf 2\n",
        failing: Failing { formula: 0, ..ALL },
        left: Wanted {
            status: 2,
            complaint: b"dp2ll: formula line 1: BadHeader\n",
            reads: 1,
            ..USAGE_LEFT
        },
    },
    Refusal {
        name: "a file that can't be begun",
        words: &LOGGED,
        text: CLASHING,
        failing: ALL,
        left: UNREAD,
    },
    Refusal {
        name: "a file that can't be read",
        words: &LOGGED,
        text: CLASHING,
        failing: Failing { formula: 2, ..ALL },
        left: Wanted { reads: 1, ..UNREAD },
    },
    Refusal {
        name: "a name that isn't held",
        words: &["solve", "g"],
        text: CLASHING,
        failing: NONE,
        left: UNREAD,
    },
    Refusal {
        name: "the log, before the answer",
        words: &LOGGED,
        text: CLASHING,
        failing: Failing { formula: 0, ..ALL },
        left: UNLOGGED,
    },
    Refusal {
        name: "a log that is cut short, before the answer",
        words: &LOGGED,
        text: CLASHING,
        failing: Failing {
            formula: 0,
            log: 2,
            ..ALL
        },
        left: UNLOGGED,
    },
    Refusal {
        name: "a complaint that fails changes no status",
        words: &LOGGED,
        text: CLASHING,
        failing: Failing {
            answer: 1,
            complaint: 1,
            ..NONE
        },
        left: Wanted {
            complaint: b"",
            log: b"3 0 1 2 0\n",
            ..UNLOGGED
        },
    },
];

/// Words that are no command line.
static FAULTY: [&[&str]; 43] = [
    &[],
    &["solve"],
    &["solve", ""],
    &["solve", "-f"],
    &["solve", "f", "--log"],
    &["solve", "f", "--log", ""],
    &["solve", "f", "--log", "-g"],
    &["solve", "f", "--log", "g", "--log", "g"],
    &["solve", "f", "--limit"],
    &["solve", "f", "--limit", "0"],
    &["solve", "f", "--limit", "1000000001"],
    &["solve", "f", "--limit", "18446744073709551617"],
    &["solve", "f", "--limit", "000000000000000000001"],
    &["solve", "f", "--limit", "+1"],
    &["solve", "f", "--limit", "1x"],
    &["solve", "f", "--limit", "1", "--limit", "1"],
    &["solve", "f", "--cores", "17"],
    &["solve", "f", "--cores", "0"],
    &["solve", "f", "--period", "100001"],
    &["solve", "f", "--period", "0"],
    &["solve", "f", "--share", "65"],
    &["solve", "f", "--seed", "18446744073709551616"],
    &["solve", "f", "--workers", "17"],
    &["solve", "f", "--workers"],
    &["solve", "f", "--workers", "1", "--workers", "1"],
    &["solve", "f", "--trace", "--trace"],
    &["solve", "f", "--trace=1"],
    &["solve", "f", "--trace", "x"],
    &["solve", "f", "--log", "--trace"],
    &["solve", "f", "g"],
    &["Solve", "f"],
    &["check", "f"],
    &["check", "f", "-p"],
    &["check", "", "p"],
    &["check", "f", "p", "q"],
    &["check", "f", "p", "--limit", "1"],
    &["solve", "f", "--help"],
    &["gen", "tower", "3"],
    &["gen", "hole", "0"],
    &["gen", "hole", "101"],
    &["gen", "hole", "3", "--cores", "1"],
    &["race", "hole"],
    &["race", "hole", "1", "--workers", "1"],
];

/// Words that are the same command line as `solve f --log g`.
static SAME: [&[&str]; 9] = [
    &["solve", "--log", "g", "f"],
    &["solve", "--log=g", "--cores=1", "f"],
    &[
        "solve", "f", "--share", "0", "--period", "100000", "--cores", "16", "--log", "g",
    ],
    &["solve", "f", "--seed", "18446744073709551615", "--log", "g"],
    &["solve", "f", "--cores", "1", "--log", "g"],
    &["solve", "f", "--log", "g", "--limit", "1000000000"],
    &[
        "solve",
        "f",
        "--limit",
        "00000000000000000001",
        "--log",
        "g",
    ],
    &["solve", "f", "--limit", "7", "--cores", "01", "--log", "g"],
    &["solve", "f", "--cores", "1", "--log", "g", "--limit", "3"],
];

/// Options stand in any order, and a number may have zeros before it.
#[test]
fn options_in_any_order(rt: HostRuntime) -> Result<(), Fail> {
    let case = &CASES[CLASH];
    for words in &SAME {
        run_on(&rt, rt.alloc(), words, case.text, 4096, NONE)?.is(
            &rt,
            &whole(case, 4096),
            "options",
            4096,
        );
    }
    Ok(())
}

#[test]
fn the_first_refusal_decides(rt: HostRuntime) -> Result<(), Fail> {
    let alloc = rt.alloc();
    for row in &REFUSALS {
        run_on(&rt, alloc, row.words, row.text, 4096, row.failing)?.is(
            &rt, &row.left, row.name, 4096,
        );
    }
    for words in &FAULTY {
        run_on(&rt, alloc, words, CLASHING, 3, ALL)?.is(&rt, &USAGE_LEFT, "words", 3);
    }
    Ok(())
}
