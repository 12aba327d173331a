ghost use Rattle.std.specs.Prelude.{◌≡◌, ◌++◌, ◌↔◌, IsNone, IfOk, OnOk};
ghost use Rattle.crew.specs.declared.outcome.Verdict.TheVariants.{Unknown};
ghost use Rattle.answer_text.specs.Summary.{outcome_lines, race_line, size_line, summary_text};
ghost use Rattle.answer_text.specs.Writing.{WritesAnswer};

use crate::answer::verdict_line;
use crate::buffer::{ended, push_text, push_word};
use crate::trace::push_winner;
use crew::Outcome;
use desk_io::{Outputs, Port, write_whole};
use formula_kinds::{Kind, word_of};
use lit_base::{Formula, NoMemory};
use log_merge::Stop;
use std::alloc::Global;

/// Writes the summary of a race to the answer port: which formula was made, how large it is, how many eras the cores ran,
/// which of them won, how many lines their log has, and the `s` line.
///
/// The outcome has a winner exactly where its verdict isn't `Unknown`. `WriteFault` says that the answer could not be
/// written, and `NoMemory` that memory ran out, here or at the outputs; a front of the text has then been written.
pub fn write_summary<O: Outputs>(
    alloc: Global,
    kind: Kind,
    n: u32,
    formula: &Formula,
    outcome: &Outcome,
    outputs: &mut O,
) -> Result<(), Stop>
    requires { IsNone outcome.now.winner ↔ (outcome.now.verdict ≡ Unknown) }
    ensures { WritesAnswer (summary_text kind n formula.now outcome.now) (O.told outputs.old) (O.told outputs.new) result }
{
    match summary_of(alloc, kind, n, formula, outcome) {
        Ok(text) => ended(write_whole(outputs, Port::Answer, text.as_slice())),
        Err(_) => Err(Stop::NoMemory),
    }
}

/// The text of a summary.
fn summary_of(
    alloc: Global,
    kind: Kind,
    n: u32,
    formula: &Formula,
    outcome: &Outcome,
) -> Result<Vec<u8>, NoMemory>
    ensures { IfOk result (λ text. text.items ≡ summary_text kind n formula.now outcome.now) }
{
    let mut text = Vec::new(alloc);
    push_race(&mut text, kind, n)?;
    push_size(&mut text, formula.variables(), formula.len())?;
    push_outcome(&mut text, outcome)?;
    Ok(text)
}

/// Adds the line that names the formula.
fn push_race(text: &mut Vec<u8>, kind: Kind, n: u32) -> Result<(), NoMemory>
    ensures { OnOk result (text.new.items ≡ text.old.items ++ race_line kind n) }
{
    push_text(text, b"c race ")?;
    push_text(text, word_of(kind).as_bytes())?;
    push_word(text, b" ", u64::from(n))?;
    push_text(text, b"\n")
}

/// Adds the line that says how large the formula is.
fn push_size(text: &mut Vec<u8>, variables: u32, clauses: usize) -> Result<(), NoMemory>
    ensures { OnOk result (text.new.items ≡ text.old.items ++ size_line variables clauses) }
{
    push_word(text, b"c variables ", u64::from(variables))?;
    push_word(text, b" clauses ", clauses as u64)?;
    push_text(text, b"\n")?;
    Ok(())
}

/// Adds the lines that say what the cores did, and the `s` line.
fn push_outcome(text: &mut Vec<u8>, outcome: &Outcome) -> Result<(), NoMemory>
    ensures { OnOk result (text.new.items ≡ text.old.items ++ outcome_lines outcome.now) }
{
    push_word(text, b"c eras ", u64::from(outcome.eras))?;
    push_text(text, b"\n")?;
    push_winner(text, outcome.winner)?;
    push_word(text, b"c lemmas ", outcome.lemmas)?;
    push_text(text, b"\n")?;
    push_text(text, verdict_line(outcome.verdict))
}
