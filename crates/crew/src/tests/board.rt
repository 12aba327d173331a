//! Runs on a board: what long-lived workers leave, which passes come back, and how a run ends whose log can't be written.
ghost use Rattle.std.specs.Prelude.{◌≤◌};
ghost use Rattle.solo_core.specs.First.{AreInRange};

use super::{HoldingGate, SQUARE, compare_runs, formula, outcome, outputs, settings};
use crate::{Outcome, Post, Stop, make_board, run_crew, run_turns};
use desk_io::{Gate, MemoryOutputs, NoGate, Port};
use era_board::Pass;
use lit_base::{Formula, NoMemory};
use solo_core::Settings;
use std::alloc::Global;
use std::marker::Sync;
use std::process::Abort;
use std::sync::Wait;
use std::sync::atomic::{AtomicU64, Ordering};
use std::test::Fail;
use std::thread::Threads;

/// Runs the cores on a board of their own, without a look at what comes back.
fn run_here<R: Threads + Wait + Sync, G: Gate>(
    rt: &R,
    alloc: Global,
    formula: &Formula,
    settings: &Settings,
    workers: u32,
    log: bool,
    outputs: &mut MemoryOutputs,
    gate: &G,
) -> Result<(Outcome, Vec<Pass<Post>>), Stop>
    requires settings { AreInRange settings.now }
    requires workers { 1 ≤ workers }
{
    let (board, passes) = make_board(alloc, formula, settings)?;
    run_crew(
        rt, alloc, &board, passes, formula, settings, workers, log, outputs, gate,
    )
}

/// Each pass is back at its place, and has arrived once in each era.
fn are_back(rt: &impl Abort, passes: &[Pass<Post>], settings: &Settings, eras: u32) {
    assert_eq!(rt; passes.len() as u64, u64::from(settings.cores) + 1);
    for i in 0..passes.len() {
        assert_eq!(rt; passes[i].number() as usize, i);
        assert_eq!(rt; passes[i].arrivals(), u64::from(eras));
    }
}

/// Runs the cores on a board and in turn, and compares what they leave.
fn compare_crew<R: Abort + Threads + Wait + Sync, G: Gate>(
    rt: &R,
    alloc: Global,
    formula: &Formula,
    settings: &Settings,
    workers: u32,
    log: bool,
    gate: &G,
) -> Result<u32, Fail>
    requires settings { AreInRange settings.now }
    requires workers { 1 ≤ workers }
{
    let mut wanted = outputs(alloc, 64, 1000)?;
    let in_turn = outcome(rt, run_turns(alloc, formula, settings, log, &mut wanted))?;
    let mut written = outputs(alloc, 64, 1000)?;
    match run_here(
        rt,
        alloc,
        formula,
        settings,
        workers,
        log,
        &mut written,
        gate,
    ) {
        Ok((outcome, passes)) => {
            compare_runs(rt, &in_turn, &wanted, &outcome, &written);
            are_back(rt, passes.as_slice(), settings, outcome.eras);
            Ok(outcome.eras)
        }
        Err(stop) => {
            assert_eq!(rt; stop, Stop::NoMemory);
            Err(Fail::from(NoMemory))
        }
    }
}

#[test]
fn every_number_of_workers_on_a_board_leaves_the_same(rt: HostRuntime) -> Result<(), Fail> {
    let alloc = rt.alloc();
    let refuted = formula(&rt, alloc, 2, SQUARE)?;
    let satisfied = formula(&rt, alloc, 3, &[&[1], &[-1, 2, 3], &[-1, 2, -3]])?;
    for workers in 1..5u32 {
        for log in [true, false] {
            compare_crew(
                &rt,
                alloc,
                &refuted,
                &settings(3, 1, 10),
                workers,
                log,
                &NoGate,
            )?;
            compare_crew(
                &rt,
                alloc,
                &refuted,
                &settings(1, 1, 1),
                workers,
                log,
                &NoGate,
            )?;
            compare_crew(
                &rt,
                alloc,
                &satisfied,
                &settings(2, 1, 10),
                workers,
                log,
                &NoGate,
            )?;
        }
    }
    Ok(())
}

/// A gate that counts its calls.
#[derive(Drop)]
struct CountingGate {
    calls: AtomicU64,
}

impl Gate for CountingGate {
    fn pass(&self, _core: u32, _period: u32) {
        self.calls.fetch_add(1, Ordering::SeqCst);
    }
}

#[test]
fn each_core_passes_the_gate_once_in_each_era(rt: HostRuntime) -> Result<(), Fail> {
    let alloc = rt.alloc();
    let refuted = formula(&rt, alloc, 2, SQUARE)?;
    for workers in 1..4u32 {
        let gate = CountingGate {
            calls: AtomicU64::new(0),
        };
        let eras = compare_crew(
            &rt,
            alloc,
            &refuted,
            &settings(2, 1, 10),
            workers,
            true,
            &gate,
        )?;
        assert_eq!(rt; eras, 2);
        assert_eq!(rt; gate.calls.load(Ordering::SeqCst), 4);
    }
    Ok(())
}

#[test]
fn each_of_two_cores_on_a_board_may_wait_for_the_other(rt: HostRuntime) -> Result<(), Fail> {
    let alloc = rt.alloc();
    let refuted = formula(&rt, alloc, 2, SQUARE)?;
    for held in 0..2u32 {
        let gate = HoldingGate::new(held, 1 - held, 1);
        compare_crew(&rt, alloc, &refuted, &settings(2, 1, 10), 2, true, &gate)?;
        assert!(rt;
            !gate.gave_up.load(Ordering::SeqCst),
            "a core waited for the other in vain"
        );
    }
    Ok(())
}

/// Runs two cores that refute the four clauses in two eras, where the log fails at the write of this number, and compares what
/// stands of it.
fn stops_at<R: Abort + Threads + Wait + Sync>(
    rt: &R,
    alloc: Global,
    workers: u32,
    failing: u64,
    front: &[u8],
) -> Result<(), Fail>
    requires { 1 ≤ workers }
{
    let refuted = formula(rt, alloc, 2, SQUARE)?;
    let mut written = outputs(alloc, 64, failing)?;
    match run_here(
        rt,
        alloc,
        &refuted,
        &settings(2, 1, 10),
        workers,
        true,
        &mut written,
        &NoGate,
    ) {
        Ok(_) => assert!(rt; false, "the log can't be written"),
        Err(Stop::NoMemory) => return Err(Fail::from(NoMemory)),
        Err(Stop::WriteFault) => assert_eq!(rt; written.kept(Port::Log), front),
    }
    Ok(())
}

/// Where the first write fails the scribe tells all cores so in the next era, and the run ends; where the last one does a front
/// of the log stands.
#[test]
fn a_run_ends_whose_log_cannot_be_written(rt: HostRuntime) -> Result<(), Fail> {
    let alloc = rt.alloc();
    for workers in 1..4u32 {
        stops_at(&rt, alloc, workers, 1, b"")?;
        stops_at(&rt, alloc, workers, 3, b"5 1 0 1 2 0\n6 -1 0 3 4 0\n")?;
    }
    Ok(())
}
