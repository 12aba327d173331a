ghost use Rattle.std.specs.Prelude.{◌≡◌, ◌≤◌, ◌↔◌, IsNone, IsSome, IfOk};
ghost use Rattle.solo_core.specs.First.{AreInRange};
ghost use Rattle.crew.specs.declared.outcome.Verdict.TheVariants.{Sat, Unknown};

use crate::{
    law_rows_are_read_back, law_trace_has_its_lines, law_trace_is_in_front,
    law_two_cores_are_traced, law_verdicts_are_said, write_answer,
};
use crew::{Outcome, TraceRow, Verdict};
use desk_io::{MemoryOutputs, Port};
use lit_base::{List, Model, NoMemory};
use log_merge::Stop;
use solo_core::Settings;
use std::alloc::Global;
use std::test::Fail;

mod others;

/// The settings of so many cores, with this share.
fn settings(cores: u32, share: u32) -> Settings
    requires some_cores { 1 ≤ cores }
    requires few_cores { cores ≤ 16 }
    requires few_share { share ≤ 64 }
    ensures { AreInRange result }
{
    Settings {
        cores,
        period: 1,
        share,
        limit: 10,
        seed: 0,
    }
}

/// What a run finds: a model or none by the core that wins, or nothing.
#[derive(Clone, Copy)]
enum Found<'a> {
    Model(u32, &'a [bool]),
    Refutation(u32),
    Nothing,
}

/// The list of these items, which are copied.
fn list_of<T: Copy + Drop>(alloc: Global, items: &[T]) -> Result<List<T>, NoMemory> {
    let mut list = List::new(alloc);
    for item in items {
        list.push(*item)?;
    }
    Ok(list)
}

/// The outcome of a run that found this, with rows of these numbers.
fn outcome(alloc: Global, found: Found<'_>, rows: &[TraceRow]) -> Result<Outcome, NoMemory>
    ensures winner { IfOk result (λ outcome. IsNone outcome.winner ↔ (outcome.verdict ≡ Unknown)) }
    ensures model { IfOk result (λ outcome. outcome.verdict ≡ Sat → IsSome outcome.model) }
{
    let trace = list_of(alloc, rows)?;
    match found {
        Found::Model(core, values) => {
            let model = Model::new(list_of(alloc, values)?);
            Ok(finished(Verdict::Sat, Some(core), Some(model), trace))
        }
        Found::Refutation(core) => Ok(finished(Verdict::Unsat, Some(core), None, trace)),
        Found::Nothing => Ok(finished(Verdict::Unknown, None, None, trace)),
    }
}

/// The outcome of these parts.
fn finished(
    verdict: Verdict,
    winner: Option<u32>,
    model: Option<Model>,
    trace: List<TraceRow>,
) -> Outcome
    ensures verdict { result.verdict ≡ verdict }
    ensures winner { result.winner ≡ winner }
    ensures model { result.model ≡ model }
{
    Outcome {
        verdict,
        eras: 1,
        winner,
        model,
        lemmas: 0,
        trace,
    }
}

/// The row of these numbers.
fn row(period: u32, core: u32, conflicts: u32, volume: u64, posted: u32, next: u32) -> TraceRow {
    TraceRow {
        period,
        core,
        conflicts,
        volume,
        posted,
        next,
    }
}

/// What an answer of these settings leaves on the answer port, which takes so many bytes at a time.
fn written(
    alloc: Global,
    outcome: &Outcome,
    settings: &Settings,
    trace: bool,
    grain: usize,
    failing: u64,
) -> Result<(MemoryOutputs, Result<(), Stop>), NoMemory>
    requires grain { 1 ≤ grain }
    requires range { AreInRange settings.now }
    requires winner { IsNone outcome.now.winner ↔ (outcome.now.verdict ≡ Unknown) }
    requires model { outcome.now.verdict ≡ Sat → IsSome outcome.now.model }
{
    let calls = list_of(alloc, &[(Port::Answer, failing)])?;
    let mut outputs = MemoryOutputs::new(alloc, grain, calls);
    let ended = write_answer(alloc, outcome, settings, trace, &mut outputs);
    Ok((outputs, ended))
}

/// Two cores that refute a formula in two eras, with their trace.
const TRACED: &[u8] = b"c core 0 phase 0 unit 100 weight 1 halve 256 noise 0 share 8
c core 1 phase 1 unit 100 weight 1 halve 256 noise 0 share 8
c era 1 0 1 1 1 1
c era 1 1 1 1 1 1
c era 2 0 1 2 0 0
c era 2 1 1 2 0 0
c winner 0
s UNSATISFIABLE
";

#[test]
fn an_answer_has_its_trace_its_verdict_and_its_model(rt: HostRuntime) -> Result<(), Fail> {
    let alloc = rt.alloc();
    let rows = [
        row(1, 0, 1, 1, 1, 1),
        row(1, 1, 1, 1, 1, 1),
        row(2, 0, 1, 2, 0, 0),
        row(2, 1, 1, 2, 0, 0),
    ];
    for (found, cores, share, trace, told) in [
        (Found::Refutation(0), 2, 8, true, TRACED),
        (
            Found::Refutation(0),
            2,
            8,
            false,
            b"s UNSATISFIABLE\n".as_slice(),
        ),
        (
            Found::Model(0, &[false; 16]),
            2,
            8,
            false,
            b"s SATISFIABLE\nv -1 -2 -3 -4 -5 -6 -7 -8 -9 -10 -11 -12 -13 -14 -15 -16\nv 0\n",
        ),
        (
            Found::Nothing,
            1,
            0,
            true,
            b"c core 0 phase 0 unit 100 weight 1 halve 256 noise 0 share 0
c era 1 0 1 1 1 1
c era 1 1 1 1 1 1
c era 2 0 1 2 0 0
c era 2 1 1 2 0 0
c winner none
s UNKNOWN
",
        ),
    ] {
        let outcome = outcome(alloc, found, &rows)?;
        let (outputs, ended) = written(alloc, &outcome, &settings(cores, share), trace, 4096, 9)?;
        assert_eq!(rt; ended, Ok(()));
        assert_eq!(rt; outputs.kept(Port::Answer), told);
    }
    Ok(())
}

#[test]
fn an_answer_is_written_up_to_a_write_that_fails(rt: HostRuntime) -> Result<(), Fail> {
    let alloc = rt.alloc();
    let outcome = outcome(alloc, Found::Model(0, &[true, false]), &[])?;
    let whole = b"s SATISFIABLE\nv 1 -2 0\n".as_slice();
    for (number, taken) in [(1, 0), (2, 7), (3, 14), (4, 21), (5, 23)] {
        let (outputs, ended) = written(alloc, &outcome, &settings(1, 8), false, 7, number)?;
        assert_eq!(rt;
            ended,
            if taken < 23 {
                Err(Stop::WriteFault)
            } else {
                Ok(())
            }
        );
        assert_eq!(rt; outputs.kept(Port::Answer), &whole[..taken]);
    }
    law_trace_is_in_front();
    law_trace_has_its_lines();
    law_rows_are_read_back();
    law_two_cores_are_traced();
    law_verdicts_are_said();
    Ok(())
}
