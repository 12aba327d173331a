ghost use Rattle.std.specs.Prelude.{◌≡◌, ◌≤◌, ◌↔◌, [], None, IsNone, IsSome, IfOk};
ghost use Rattle.desk_io.specs.declared.Port.TheVariants.{Answer, Log};
ghost use Rattle.solo_core.specs.First.{AreInRange};
ghost use Rattle.crew.specs.Log.{log_text};
ghost use Rattle.crew.specs.declared.outcome.Verdict.TheVariants.{Sat, Unknown};
ghost use Rattle.crew.specs.Outcome.{outcome_of};
ghost use Rattle.answer_text.specs.Answer.{answer_text};
ghost use Rattle.dp2ll.specs.Answering.{Answers, AnswersPort, WritesTexts, page_of, KeepsComplaint};
ghost use Rattle.dp2ll.specs.Logging.{KeepsLog, log_told};
ghost use Rattle.dp2ll.specs.Ending.{finding_text};
ghost use Rattle.dp2ll.specs.Running.{answer_stop, without_outcome};
ghost use Rattle.dp2ll.specs.Cores.{MayRun, RunsCores};

use crate::backing::law_verdict_is_backed;
use crate::ending::WriteStop;
use crate::finding::Finding;
use answer_text::write_answer;
use crew::{Outcome, Stop, Verdict, law_model_satisfies_formula, law_winner_is_first};
use desk_io::{Outputs, Port, PortFault, write_whole};
use lit_base::{Formula, Text};
use solo_core::Settings;
use std::alloc::Global;

/// Runs the cores on a formula in this way, with its log where one is named, and writes the answer, with the trace where it is asked for.
pub(crate) fn answer<
    O: Outputs,
    C: Fn(&Formula, &Settings, u32, bool, &mut O) -> Result<Outcome, Stop>,
>(
    alloc: Global,
    formula: &Formula,
    settings: &Settings,
    workers: u32,
    trace: bool,
    log: &Option<Text>,
    outputs: &mut O,
    run_cores: &C,
) -> Result<Verdict, WriteStop>
    requires range { AreInRange settings.now }
    requires may { MayRun (C.pre run_cores.now) }
    requires runs { RunsCores O.told (C.post run_cores.now) }
    ensures answers { Answers formula.now settings.now trace log.now (page_of (O.told outputs.old)) (page_of (O.told outputs.new)) result }
    ensures complaint { KeepsComplaint (O.told outputs.old) (O.told outputs.new) }
{
    law_verdict_is_backed();
    law_winner_is_first();
    law_model_satisfies_formula();
    // for the checker alone: that the formula is one within the limits
    let _ = formula.variables();
    let outcome = run_logged(formula, settings, workers, log, outputs, run_cores)?;
    say_outcome(alloc, &outcome, settings, trace, outputs)?;
    Ok(outcome.verdict)
}

/// Creates the log, where one is named, and runs the cores, which write it.
fn run_logged<O: Outputs, C: Fn(&Formula, &Settings, u32, bool, &mut O) -> Result<Outcome, Stop>>(
    formula: &Formula,
    settings: &Settings,
    workers: u32,
    log: &Option<Text>,
    outputs: &mut O,
    run_cores: &C,
) -> Result<Outcome, WriteStop>
    requires range { AreInRange settings.now }
    requires may { MayRun (C.pre run_cores.now) }
    requires runs { RunsCores O.told (C.post run_cores.now) }
    ensures outcome { IfOk result (λ outcome. outcome ≡ outcome_of formula.now settings.now) }
    ensures log { KeepsLog log.now (log_text formula.now settings.now) (log_told (O.told outputs.old)) (log_told (O.told outputs.new))
        (without_outcome result) }
    ensures answer { (O.told outputs.new).at Answer ≡ (O.told outputs.old).at Answer }
    ensures complaint { KeepsComplaint (O.told outputs.old) (O.told outputs.new) }
{
    create_log(outputs, log)?;
    Ok(run_cores(formula, settings, workers, log.is_some(), outputs)?)
}

/// Creates the log, empty, where one is named.
fn create_log<O: Outputs>(outputs: &mut O, log: &Option<Text>) -> Result<(), WriteStop>
    ensures log { KeepsLog log.now [] (log_told (O.told outputs.old)) (log_told (O.told outputs.new)) result }
    ensures later { ((O.told outputs.old).at Log).faults ≤ ((O.told outputs.new).at Log).faults }
    ensures answer { (O.told outputs.new).at Answer ≡ (O.told outputs.old).at Answer }
    ensures complaint { KeepsComplaint (O.told outputs.old) (O.told outputs.new) }
{
    let Some(name) = log else {
        return Ok(());
    };
    match outputs.create(Port::Log, name.as_str()) {
        Ok(()) => Ok(()),
        Err(PortFault::Failed) => Err(WriteStop::LogFault),
        Err(PortFault::NoMemory) => Err(WriteStop::NoMemory),
    }
}

/// Writes the answer of a run.
fn say_outcome<O: Outputs>(
    alloc: Global,
    outcome: &Outcome,
    settings: &Settings,
    trace: bool,
    outputs: &mut O,
) -> Result<(), WriteStop>
    requires range { AreInRange settings.now }
    requires winner { IsNone outcome.now.winner ↔ (outcome.now.verdict ≡ Unknown) }
    requires model { outcome.now.verdict ≡ Sat → IsSome outcome.now.model }
    ensures answer { AnswersPort (answer_text outcome.now settings.now trace) ((O.told outputs.old).at Answer) ((O.told outputs.new).at Answer) result }
    ensures log { log_told (O.told outputs.new) ≡ log_told (O.told outputs.old) }
    ensures complaint { KeepsComplaint (O.told outputs.old) (O.told outputs.new) }
{
    on_answer(write_answer(alloc, outcome, settings, trace, outputs))
}

/// How writing the answer ended, as the program has it.
pub(crate) fn on_answer(written: Result<(), Stop>) -> Result<(), WriteStop>
    ensures { result ≡ answer_stop written }
{
    match written {
        Ok(()) => Ok(()),
        Err(Stop::WriteFault) => Err(WriteStop::AnswerFault),
        Err(Stop::NoMemory) => Err(WriteStop::NoMemory),
    }
}

/// Writes what was found of a proof.
pub(crate) fn say_finding<O: Outputs>(outputs: &mut O, finding: Finding) -> Result<(), WriteStop>
    ensures says { WritesTexts None (finding_text finding) (finding_text finding) (page_of (O.told outputs.old)) (page_of (O.told outputs.new)) result }
    ensures complaint { KeepsComplaint (O.told outputs.old) (O.told outputs.new) }
{
    match write_whole(outputs, Port::Answer, finding.line()) {
        Ok(()) => Ok(()),
        Err(PortFault::Failed) => Err(WriteStop::AnswerFault),
        Err(PortFault::NoMemory) => Err(WriteStop::NoMemory),
    }
}
