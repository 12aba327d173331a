ghost use Rattle.std.specs.Prelude.{◌≡◌, ◌↔◌, ◌++◌, IsNone, IsSome, OnOk};
ghost use Rattle.desk_io.specs.declared.Port.TheVariants.{Answer};
ghost use Rattle.desk_io.specs.Outputs.{WritesWhole};
ghost use Rattle.solo_core.specs.First.{AreInRange};
ghost use Rattle.crew.specs.declared.outcome.Verdict.TheVariants.{Sat, Unknown};
ghost use Rattle.answer_text.specs.Answer.{answer_text, model_lines, verdict_line};
ghost use Rattle.answer_text.specs.Gathering.{Passes};
ghost use Rattle.answer_text.specs.Writing.{WritesAnswer};

use crate::buffer::{empty_buffer, ended, flush, push_text};
use crate::trace::put_trace;
use crate::values::put_model;
use crew::{Outcome, Verdict};
use desk_io::{Outputs, PortFault};
use lit_base::NoMemory;
use log_merge::Stop;
use solo_core::Settings;
use std::alloc::Global;

/// Writes the answer of a run to the answer port: the trace where `trace` is true, the `s` line, and for `Sat` the `v` lines.
///
/// The trace has a line for each core, then one for each row of the outcome's trace, and then the winner. Each setting is
/// in its range. The outcome has a winner exactly where its verdict isn't `Unknown`, and a model where it is `Sat`.
///
/// The text is gathered in one buffer of some 64 KiB, however long it is, and this buffer is all the memory that is taken
/// here. `WriteFault` says that the answer could not be written, and `NoMemory` that memory ran out, here or at the outputs;
/// a front of the text has then been written.
pub fn write_answer<O: Outputs>(
    alloc: Global,
    outcome: &Outcome,
    settings: &Settings,
    trace: bool,
    outputs: &mut O,
) -> Result<(), Stop>
    requires range { AreInRange settings.now }
    requires winner { IsNone outcome.now.winner ↔ (outcome.now.verdict ≡ Unknown) }
    requires model { outcome.now.verdict ≡ Sat → IsSome outcome.now.model }
    ensures { WritesAnswer (answer_text outcome.now settings.now trace) (O.told outputs.old) (O.told outputs.new) result }
{
    ended(write_gathered(alloc, outcome, settings, trace, outputs))
}

/// Writes the answer of a run through a buffer.
fn write_gathered<O: Outputs>(
    alloc: Global,
    outcome: &Outcome,
    settings: &Settings,
    trace: bool,
    outputs: &mut O,
) -> Result<(), PortFault>
    requires { AreInRange settings.now }
    ensures { WritesWhole Answer (answer_text outcome.now settings.now trace) (O.told outputs.old) (O.told outputs.new) result }
{
    let mut buffer = empty_buffer(alloc)?;
    put_answer(&mut buffer, outcome, settings, trace, outputs)?;
    flush(&mut buffer, outputs)
}

/// Adds the answer of a run, and writes what fills the buffer.
fn put_answer<O: Outputs>(
    buffer: &mut Vec<u8>,
    outcome: &Outcome,
    settings: &Settings,
    trace: bool,
    outputs: &mut O,
) -> Result<(), PortFault>
    requires { AreInRange settings.now }
    ensures { Passes (buffer.old.items ++ answer_text outcome.now settings.now trace) buffer.new.items (O.told outputs.old) (O.told outputs.new) result }
{
    put_trace(buffer, outcome, settings, trace, outputs)?;
    push_text(buffer, verdict_line(outcome.verdict))?;
    put_model_of(buffer, outcome, outputs)
}

/// The `s` line of a verdict.
pub(crate) fn verdict_line(verdict: Verdict) -> &'static [u8]
    ensures { result.now ≡ verdict_line verdict }
{
    match verdict {
        Verdict::Sat => b"s SATISFIABLE\n".as_slice(),
        Verdict::Unsat => b"s UNSATISFIABLE\n".as_slice(),
        Verdict::Unknown => b"s UNKNOWN\n".as_slice(),
    }
}

/// Adds the `v` lines of the model where the verdict is Sat, and writes what fills the buffer.
fn put_model_of<O: Outputs>(
    buffer: &mut Vec<u8>,
    outcome: &Outcome,
    outputs: &mut O,
) -> Result<(), PortFault>
    ensures { Passes (buffer.old.items ++ model_lines outcome.now.verdict outcome.now.model) buffer.new.items (O.told outputs.old) (O.told outputs.new) result }
{
    match (outcome.verdict, &outcome.model) {
        (Verdict::Sat, Some(model)) => put_model(buffer, model, outputs),
        _ => Ok(()),
    }
}
