ghost use Rattle.std.specs.Prelude.{◌≤◌, map, string_bytes};
ghost use Rattle.solo_core.specs.First.{AreInRange};
ghost use Rattle.dp2ll.specs.Cores.{GivesRun, MayRun, RunsCores};
ghost use Rattle.dp2ll.specs.Answering.{KeepsComplaint};
ghost use Rattle.dp2ll.specs.Serving.{Solves, ChecksProof, Serves, desk, ending_of, checked_ending};
ghost use Rattle.dp2ll.specs.Headline.{run_of, Headline, Sentences};
ghost use Rattle.job_words.specs.Job.{job_of};

use crate::answer::{answer, say_finding};
use crate::complaint::complain;
use crate::ending::Ending;
use crate::finding::Finding;
use crate::judge::judge_file;
use crate::making::{race, write_made};
use crate::read::read_formula;
use cnf_text::{early_fault_stays, end_ends_input};
use crew::{Outcome, Stop, Verdict, make_board, run_crew, run_turns};
use desk_io::{Gate, Inputs, Outputs};
use job_words::{Job, WordFault, read_words};
use lit_base::{Formula, Text, law_checked_proof_refutes};
use lrat_check::law_fault_refuses;
use solo_core::Settings;
use std::alloc::Global;
use std::sync::Wait;
use std::thread::Threads;

/// Runs the program on the words after its name, and gives its exit status.
///
/// It does what `run_still` does, and with workers the cores run side by side, on threads of `rt` that live through the run, while
/// the caller's writes the log; `gate` is called before each stretch of a core. It may wait for ever.
pub fn run<R: Threads + Wait + Sync, I: Inputs, O: Outputs, G: Gate>(
    rt: &R,
    alloc: Global,
    words: &[String],
    inputs: &mut I,
    outputs: &mut O,
    gate: &G,
) -> u8
    ensures headline { Headline (run_of words.now (I.told inputs.old) (I.told inputs.new) (O.told outputs.old) (O.told outputs.new) result) }
    ensures sentences { Sentences (run_of words.now (I.told inputs.old) (I.told inputs.new) (O.told outputs.old) (O.told outputs.new) result) }
{
    run_with(
        alloc,
        words,
        inputs,
        outputs,
        &|formula: &Formula, settings: &Settings, workers: u32, log: bool, outputs: &mut O| -> Result<
            Outcome,
            Stop,
        >
            requires { AreInRange settings.now }
        { run_side_by_side(rt, alloc, formula, settings, workers, log, outputs, gate) },
    )
}

/// Runs the program on the words after its name, and gives its exit status; it waits for nobody, and for any number of workers
/// the cores run in turn.
///
/// `solve` gives status 10: a model was printed; 20: there is none, and the proof was written where a
/// log is named; 0: unknown, since each core had all conflicts that it may have. `check` gives 0: the
/// proof checks; 6: it doesn't. Any words give 1: they are no command line; 2: the file is no
/// formula; 3: it, or the proof, could not be read; 4: log or answer could not be written; 5: memory
/// could not be had. `gen` and `race` give 0: their text is written; or 4 or 5.
pub fn run_still<I: Inputs, O: Outputs>(
    alloc: Global,
    words: &[String],
    inputs: &mut I,
    outputs: &mut O,
) -> u8
    ensures headline { Headline (run_of words.now (I.told inputs.old) (I.told inputs.new) (O.told outputs.old) (O.told outputs.new) result) }
    ensures sentences { Sentences (run_of words.now (I.told inputs.old) (I.told inputs.new) (O.told outputs.old) (O.told outputs.new) result) }
{
    run_with(
        alloc,
        words,
        inputs,
        outputs,
        &|formula: &Formula, settings: &Settings, _workers: u32, log: bool, outputs: &mut O| {
            run_turns(alloc, formula, settings, log, outputs)
        },
    )
}

/// Runs the program, and the cores in this way.
fn run_with<
    I: Inputs,
    O: Outputs,
    C: Fn(&Formula, &Settings, u32, bool, &mut O) -> Result<Outcome, Stop>,
>(alloc: Global, words: &[String], inputs: &mut I, outputs: &mut O, run_cores: &C) -> u8
    requires may { MayRun (C.pre run_cores.now) }
    requires runs { RunsCores O.told (C.post run_cores.now) }
    ensures headline { Headline (run_of words.now (I.told inputs.old) (I.told inputs.new) (O.told outputs.old) (O.told outputs.new) result) }
    ensures sentences { Sentences (run_of words.now (I.told inputs.old) (I.told inputs.new) (O.told outputs.old) (O.told outputs.new) result) }
{
    early_fault_stays();
    end_ends_input();
    law_fault_refuses();
    let ending = serve(alloc, words, inputs, outputs, run_cores);
    complain(alloc, outputs, &ending)
}

/// Runs the cores side by side in so many workers, or in turn where there are none. It may wait for ever.
fn run_side_by_side<R: Threads + Wait + Sync, O: Outputs, G: Gate>(
    rt: &R,
    alloc: Global,
    formula: &Formula,
    settings: &Settings,
    workers: u32,
    log: bool,
    outputs: &mut O,
    gate: &G,
) -> Result<Outcome, Stop>
    requires { AreInRange settings.now }
    ensures { GivesRun formula.now settings.now log (O.told outputs.old) (O.told outputs.new) result }
{
    if workers == 0 {
        run_turns(alloc, formula, settings, log, outputs)
    } else {
        run_on_board(rt, alloc, formula, settings, workers, log, outputs, gate)
    }
}

/// Runs the cores in so many long-lived workers, on a board of their own. It may wait for ever.
fn run_on_board<R: Threads + Wait + Sync, O: Outputs, G: Gate>(
    rt: &R,
    alloc: Global,
    formula: &Formula,
    settings: &Settings,
    workers: u32,
    log: bool,
    outputs: &mut O,
    gate: &G,
) -> Result<Outcome, Stop>
    requires range { AreInRange settings.now }
    requires workers { 1 ≤ workers }
    ensures { GivesRun formula.now settings.now log (O.told outputs.old) (O.told outputs.new) result }
{
    let (board, passes) = make_board(alloc, formula, settings)?;
    let (outcome, _) = run_crew(
        rt, alloc, &board, passes, formula, settings, workers, log, outputs, gate,
    )?;
    Ok(outcome)
}

/// Serves the words, without the complaint.
fn serve<
    I: Inputs,
    O: Outputs,
    C: Fn(&Formula, &Settings, u32, bool, &mut O) -> Result<Outcome, Stop>,
>(alloc: Global, words: &[String], inputs: &mut I, outputs: &mut O, run_cores: &C) -> Ending
    requires may { MayRun (C.pre run_cores.now) }
    requires runs { RunsCores O.told (C.post run_cores.now) }
    ensures serves { Serves (job_of (map string_bytes words.now)) (desk (I.told inputs.old) (O.told outputs.old))
        (desk (I.told inputs.new) (O.told outputs.new)) result }
    ensures complaint { KeepsComplaint (O.told outputs.old) (O.told outputs.new) }
{
    match read_words(alloc, words) {
        Ok(
            Job::Solve {
                file,
                settings,
                workers,
                log,
                trace,
            },
        ) => {
            match solve(
                alloc,
                file.as_str(),
                &log,
                &settings,
                trace,
                workers,
                inputs,
                outputs,
                run_cores,
            ) {
                Ok(verdict) => Ending::Answered(verdict),
                Err(ending) => ending,
            }
        }
        Ok(Job::Check { file, proof }) => {
            match check(alloc, file.as_str(), proof.as_str(), inputs, outputs) {
                Ok(finding) => Ending::Judged(finding),
                Err(ending) => ending,
            }
        }
        Ok(Job::Gen { kind, n, seed }) => {
            match write_made(alloc, kind, n, seed, outputs) {
                Ok(()) => Ending::Written,
                Err(stop) => Ending::Unwritten(stop),
            }
        }
        Ok(Job::Race { kind, n, settings }) => {
            match race(alloc, kind, n, &settings, outputs) {
                Ok(()) => Ending::Written,
                Err(stop) => Ending::Unwritten(stop),
            }
        }
        Err(WordFault::Usage) => Ending::Usage,
        Err(WordFault::NoMemory) => Ending::NoMemory,
    }
}

/// Reads the file as a formula, runs the cores on it, and writes log and answer.
fn solve<
    I: Inputs,
    O: Outputs,
    C: Fn(&Formula, &Settings, u32, bool, &mut O) -> Result<Outcome, Stop>,
>(
    alloc: Global,
    file: &str,
    log: &Option<Text>,
    settings: &Settings,
    trace: bool,
    workers: u32,
    inputs: &mut I,
    outputs: &mut O,
    run_cores: &C,
) -> Result<Verdict, Ending>
    requires range { AreInRange settings.now }
    requires may { MayRun (C.pre run_cores.now) }
    requires runs { RunsCores O.told (C.post run_cores.now) }
    ensures solves { Solves file.now log.now settings.now trace (desk (I.told inputs.old) (O.told outputs.old))
        (desk (I.told inputs.new) (O.told outputs.new)) (ending_of result) }
    ensures complaint { KeepsComplaint (O.told outputs.old) (O.told outputs.new) }
{
    let formula = read_formula(alloc, file, inputs)?;
    Ok(answer(
        alloc, &formula, settings, workers, trace, log, outputs, run_cores,
    )?)
}

/// Reads the file as a formula, judges the proof in the other file, and writes what it found.
fn check<I: Inputs, O: Outputs>(
    alloc: Global,
    file: &str,
    proof: &str,
    inputs: &mut I,
    outputs: &mut O,
) -> Result<Finding, Ending>
    ensures checks { ChecksProof file.now proof.now (desk (I.told inputs.old) (O.told outputs.old))
        (desk (I.told inputs.new) (O.told outputs.new)) (checked_ending result) }
    ensures complaint { KeepsComplaint (O.told outputs.old) (O.told outputs.new) }
{
    law_checked_proof_refutes();
    let formula = read_formula(alloc, file, inputs)?;
    let finding = judge_file(alloc, formula, proof, inputs)?;
    say_finding(outputs, finding)?;
    Ok(finding)
}
