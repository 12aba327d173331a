ghost use Rattle.std.specs.Prelude.{◌≡◌, ◌≤◌};
ghost use Rattle.solo_core.specs.First.{AreInRange};

use crate::{
    Outcome, Stop, TraceRow, Verdict, law_ends_agree, law_log_follows, law_model_satisfies_formula,
    law_run_ends, law_square_is_given_up_at_the_limit, law_square_is_refuted,
    law_trace_tells_the_run, law_two_cores_go_on, law_two_cores_in_turn,
    law_two_cores_share_lemmas, law_unknown_where_all_are_spent, law_unsat_is_refuted,
    law_winner_is_first, run_joined, run_turns,
};
use desk_io::{Gate, MemoryOutputs, NoGate, Port};
use lit_base::{Clause, Formula, List, Lit, NoMemory};
use solo_core::Settings;
use std::alloc::Global;
use std::hint::spin_loop;
use std::marker::Sync;
use std::process::Abort;
use std::sync::atomic::{AtomicBool, Ordering};
use std::test::Fail;
use std::thread::Threads;

mod board;

/// The formula of these clauses, four of them at the most, over the first so many variables.
fn formula(
    rt: &impl Abort,
    alloc: Global,
    variables: u32,
    clauses: &[&[i32]],
) -> Result<Formula, NoMemory>
    requires { variables ≤ 1000000 }
{
    let mut formula = Formula::new(alloc, variables);
    for numbers in clauses.iter().take(4) {
        let mut lits = Vec::new(alloc);
        for number in *numbers {
            lits.push(Lit::new(*number).expect(rt, "a literal"))?;
        }
        let clause = Clause::of(alloc, &lits)?;
        if clause.is_within(formula.variables()) && formula.len() < 4 {
            formula.push(clause)?;
        }
    }
    Ok(formula)
}

/// The settings of a few cores, with a few conflicts in their first period and in all.
fn settings(cores: u32, period: u32, limit: u32) -> Settings
    requires cores { (1 ≤ cores) × (cores ≤ 16) }
    requires period { (1 ≤ period) × (period ≤ 300) }
    requires limit { (1 ≤ limit) × (limit ≤ 10) }
    ensures { AreInRange result }
{
    Settings {
        cores,
        period,
        share: 8,
        limit,
        seed: 0,
    }
}

/// Outputs that take so many bytes at a time, and whose log fails at the call of this number.
fn outputs(alloc: Global, grain: usize, failing: u64) -> Result<MemoryOutputs, NoMemory>
    requires { 1 ≤ grain }
{
    let mut calls = List::new(alloc);
    calls.push((Port::Log, failing))?;
    Ok(MemoryOutputs::new(alloc, grain, calls))
}

/// The outcome of a run in which no write fails.
fn outcome(rt: &impl Abort, run: Result<Outcome, Stop>) -> Result<Outcome, NoMemory> {
    match run {
        Ok(outcome) => Ok(outcome),
        Err(stop) => {
            assert_eq!(rt; stop, Stop::NoMemory);
            Err(NoMemory)
        }
    }
}

/// The four clauses over two variables, which no model satisfies.
const SQUARE: &[&[i32]] = &[&[1, 2], &[1, -2], &[-1, 2], &[-1, -2]];

/// A formula with the limit of a run on it, and what one core leaves: its verdict, its log, and the values of a model.
struct Row {
    variables: u32,
    clauses: &'static [&'static [i32]],
    limit: u32,
    verdict: Verdict,
    log: &'static [u8],
    values: &'static [bool],
}

/// The rows whose formula has a model.
const SATISFIABLE: &[Row] = &[
    Row {
        variables: 2,
        clauses: &[&[1, 2], &[1, -2]],
        limit: 10,
        verdict: Verdict::Sat,
        log: b"3 1 0 1 2 0\n",
        values: &[true, true],
    },
    Row {
        variables: 3,
        clauses: &[&[1, 2, 3], &[1, 2, -3]],
        limit: 10,
        verdict: Verdict::Sat,
        log: b"3 2 1 0 1 2 0\n",
        values: &[false, true, true],
    },
    Row {
        variables: 3,
        clauses: &[&[1], &[-1, 2, 3], &[-1, 2, -3]],
        limit: 10,
        verdict: Verdict::Sat,
        log: b"4 2 0 1 2 3 0\n",
        values: &[true, true, true],
    },
    Row {
        variables: 1,
        clauses: &[],
        limit: 10,
        verdict: Verdict::Sat,
        log: b"",
        values: &[false],
    },
];

/// The rows in which no model is found: the formula has none, or the limit is spent.
const OTHERS: &[Row] = &[
    Row {
        variables: 2,
        clauses: SQUARE,
        limit: 10,
        verdict: Verdict::Unsat,
        log: b"5 1 0 1 2 0\n6 0 5 3 4 0\n",
        values: &[],
    },
    Row {
        variables: 2,
        clauses: SQUARE,
        limit: 1,
        verdict: Verdict::Unknown,
        log: b"5 1 0 1 2 0\n",
        values: &[],
    },
    Row {
        variables: 2,
        clauses: &[&[1], &[2], &[-2, -1], &[-1]],
        limit: 10,
        verdict: Verdict::Unsat,
        log: b"5 0 1 2 3 0\n",
        values: &[],
    },
    Row {
        variables: 1,
        clauses: &[&[]],
        limit: 10,
        verdict: Verdict::Unsat,
        log: b"2 0 1 0\n",
        values: &[],
    },
];

/// What two cores do that refute it in two eras.
const TWO_ERAS: &[TraceRow] = &[
    TraceRow {
        period: 1,
        core: 0,
        conflicts: 1,
        volume: 1,
        posted: 1,
        next: 1,
    },
    TraceRow {
        period: 1,
        core: 1,
        conflicts: 1,
        volume: 1,
        posted: 1,
        next: 1,
    },
    TraceRow {
        period: 2,
        core: 0,
        conflicts: 1,
        volume: 2,
        posted: 0,
        next: 0,
    },
    TraceRow {
        period: 2,
        core: 1,
        conflicts: 1,
        volume: 2,
        posted: 0,
        next: 0,
    },
];

/// Runs one core on each row and compares what it leaves.
fn compare(rt: &impl Abort, alloc: Global, rows: &[Row]) -> Result<(), Fail> {
    for row in rows.iter() {
        assert!(rt; 1 <= row.limit && row.limit <= 10 && row.variables <= 10);
        let formula = formula(rt, alloc, row.variables, row.clauses)?;
        let mut outputs = outputs(alloc, 7, 1000)?;
        let run = run_turns(
            alloc,
            &formula,
            &settings(1, 300, row.limit),
            true,
            &mut outputs,
        );
        let outcome = outcome(rt, run)?;
        assert_eq!(rt; outcome.verdict, row.verdict);
        assert_eq!(rt; outcome.eras, 1);
        let answered = row.verdict != Verdict::Unknown;
        assert_eq!(rt; outcome.winner, if answered { Some(0) } else { None });
        assert_eq!(rt; outputs.kept(Port::Log), row.log);
        let lines = row.log.iter().filter(|byte| **byte == b'\n').count();
        assert_eq!(rt; outcome.lemmas, lines as u64);
        assert_eq!(rt; outcome.model.is_some(), row.verdict == Verdict::Sat);
        if let Some(model) = &outcome.model {
            assert_eq!(rt; model.values(), row.values);
        }
    }
    Ok(())
}

#[test]
fn one_core_runs_small_formulas(rt: HostRuntime) -> Result<(), Fail> {
    let alloc = rt.alloc();
    compare(&rt, alloc, SATISFIABLE)?;
    compare(&rt, alloc, OTHERS)
}

#[test]
fn a_log_is_written_where_it_is_wanted_up_to_a_write_that_fails(
    rt: HostRuntime,
) -> Result<(), Fail> {
    let alloc = rt.alloc();
    let formula = formula(&rt, alloc, 2, SQUARE)?;
    let mut unwanted = outputs(alloc, 9, 1)?;
    let run = run_turns(alloc, &formula, &settings(1, 300, 10), false, &mut unwanted);
    assert_eq!(rt; outcome(&rt, run)?.lemmas, 2);
    for port in [Port::Answer, Port::Log, Port::Complaint] {
        assert_eq!(rt; unwanted.kept(port).len(), 0);
    }
    let mut wanted = outputs(alloc, 9, 2)?;
    match run_turns(alloc, &formula, &settings(1, 300, 10), true, &mut wanted) {
        Ok(_) => assert!(rt; false, "the log can't be written"),
        Err(Stop::NoMemory) => return Err(Fail::from(NoMemory)),
        Err(Stop::WriteFault) => assert_eq!(rt; wanted.kept(Port::Log), b"5 1 0 1 2".as_slice()),
    }
    assert_eq!(rt; wanted.kept(Port::Answer).len(), 0);
    Ok(())
}

#[test]
fn two_cores_run_two_eras(rt: HostRuntime) -> Result<(), Fail> {
    let alloc = rt.alloc();
    let formula = formula(&rt, alloc, 2, SQUARE)?;
    let mut outputs = outputs(alloc, 64, 1000)?;
    let run = run_turns(alloc, &formula, &settings(2, 1, 10), true, &mut outputs);
    let outcome = outcome(&rt, run)?;
    assert_eq!(rt; outcome.verdict, Verdict::Unsat);
    assert_eq!(rt; outcome.eras, 2);
    assert_eq!(rt; outcome.winner, Some(0));
    assert_eq!(rt; outcome.lemmas, 3);
    assert!(rt; outcome.model.is_none());
    assert_eq!(rt; outcome.trace.as_slice(), TWO_ERAS);
    assert_eq!(rt;
        outputs.kept(Port::Log),
        b"5 1 0 1 2 0\n6 -1 0 3 4 0\n7 0 5 6 0\n".as_slice()
    );
    Ok(())
}

#[test]
fn a_write_that_fails_in_a_later_era_leaves_the_earlier_one(rt: HostRuntime) -> Result<(), Fail> {
    let alloc = rt.alloc();
    let formula = formula(&rt, alloc, 2, SQUARE)?;
    let mut outputs = outputs(alloc, 64, 3)?;
    match run_turns(alloc, &formula, &settings(2, 1, 10), true, &mut outputs) {
        Ok(_) => assert!(rt; false, "the log can't be written"),
        Err(Stop::NoMemory) => return Err(Fail::from(NoMemory)),
        Err(Stop::WriteFault) => {
            assert_eq!(rt;
                outputs.kept(Port::Log),
                b"5 1 0 1 2 0\n6 -1 0 3 4 0\n".as_slice()
            );
        }
    }
    Ok(())
}

#[test]
fn laws_can_be_called(_rt: HostRuntime) {
    law_run_ends();
    law_log_follows();
    law_unsat_is_refuted();
    law_model_satisfies_formula();
    law_unknown_where_all_are_spent();
    law_winner_is_first();
    law_ends_agree();
    law_trace_tells_the_run();
    law_square_is_refuted();
    law_square_is_given_up_at_the_limit();
    law_two_cores_in_turn();
    law_two_cores_go_on();
    law_two_cores_share_lemmas();
}

/// A gate that holds one core in a period until another has come to it there. It gives up after 100,000,000 turns, and notes
/// that.
#[derive(Drop)]
struct HoldingGate {
    held: u32,
    awaited: u32,
    period: u32,
    has_come: AtomicBool,
    gave_up: AtomicBool,
}

impl HoldingGate {
    fn new(held: u32, awaited: u32, period: u32) -> HoldingGate {
        HoldingGate {
            held,
            awaited,
            period,
            has_come: AtomicBool::new(false),
            gave_up: AtomicBool::new(false),
        }
    }
}

impl Gate for HoldingGate {
    fn pass(&self, core: u32, period: u32) {
        if period == self.period && core == self.awaited {
            self.has_come.store(true, Ordering::SeqCst);
        }
        if period == self.period && core == self.held {
            for _ in 0..100_000_000u32 {
                if self.has_come.load(Ordering::SeqCst) {
                    return;
                }
                spin_loop();
            }
            self.gave_up.store(true, Ordering::SeqCst);
        }
    }
}

/// Compares what a run of the cores in turn and another one leave.
fn compare_runs(
    rt: &impl Abort,
    in_turn: &Outcome,
    wanted: &MemoryOutputs,
    other: &Outcome,
    written: &MemoryOutputs,
) {
    assert_eq!(rt; other.verdict, in_turn.verdict);
    assert_eq!(rt; other.eras, in_turn.eras);
    assert_eq!(rt; other.winner, in_turn.winner);
    assert_eq!(rt; other.lemmas, in_turn.lemmas);
    assert_eq!(rt; other.trace.as_slice(), in_turn.trace.as_slice());
    assert_eq!(rt; other.model.is_some(), in_turn.model.is_some());
    if let (Some(one), Some(other)) = (&other.model, &in_turn.model) {
        assert_eq!(rt; one.values(), other.values());
    }
    assert_eq!(rt; written.kept(Port::Log), wanted.kept(Port::Log));
}

/// Runs the cores side by side and in turn, and compares what they leave.
fn compare_joined<R: Abort + Threads + Sync, G: Gate>(
    rt: &R,
    alloc: Global,
    formula: &Formula,
    settings: &Settings,
    workers: u32,
    gate: &G,
) -> Result<(), Fail>
    requires settings { AreInRange settings.now }
    requires workers { 1 ≤ workers }
{
    let mut wanted = outputs(alloc, 64, 1000)?;
    let in_turn = outcome(rt, run_turns(alloc, formula, settings, true, &mut wanted))?;
    let mut written = outputs(alloc, 64, 1000)?;
    let run = run_joined(
        rt,
        alloc,
        formula,
        settings,
        workers,
        true,
        &mut written,
        gate,
    );
    let joined = outcome(rt, run)?;
    compare_runs(rt, &in_turn, &wanted, &joined, &written);
    Ok(())
}

#[test]
fn every_number_of_workers_leaves_the_same(rt: HostRuntime) -> Result<(), Fail> {
    let alloc = rt.alloc();
    let refuted = formula(&rt, alloc, 2, SQUARE)?;
    let satisfied = formula(&rt, alloc, 3, &[&[1], &[-1, 2, 3], &[-1, 2, -3]])?;
    for workers in 1..4u32 {
        compare_joined(&rt, alloc, &refuted, &settings(3, 1, 10), workers, &NoGate)?;
        compare_joined(
            &rt,
            alloc,
            &satisfied,
            &settings(2, 1, 10),
            workers,
            &NoGate,
        )?;
    }
    Ok(())
}

#[test]
fn each_of_two_cores_may_wait_for_the_other(rt: HostRuntime) -> Result<(), Fail> {
    let alloc = rt.alloc();
    let formula = formula(&rt, alloc, 2, SQUARE)?;
    for held in 0..2u32 {
        let gate = HoldingGate::new(held, 1 - held, 1);
        compare_joined(&rt, alloc, &formula, &settings(2, 1, 10), 2, &gate)?;
        assert!(rt;
            !gate.gave_up.load(Ordering::SeqCst),
            "a core waited for the other in vain"
        );
    }
    Ok(())
}
