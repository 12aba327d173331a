//! What `gen` and `race` do: a formula is made and written, or the cores race on it and the summary is written.
ghost use Rattle.std.specs.Prelude.{◌≡◌, ◌≤◌, ◌↔◌, None, IsNone};
ghost use Rattle.crew.specs.declared.outcome.Verdict.TheVariants.{Unknown};
ghost use Rattle.answer_text.specs.Summary.{summary_text};
ghost use Rattle.formula_kinds.specs.Kinds.{most_of};
ghost use Rattle.solo_core.specs.First.{AreInRange};
ghost use Rattle.dp2ll.specs.Answering.{WritesTexts, page_of, KeepsComplaint};
ghost use Rattle.dp2ll.specs.Making.{gen_text, race_text};

use crate::answer::on_answer;
use crate::ending::WriteStop;
use answer_text::{write_formula, write_summary};
use crew::{Outcome, law_winner_is_first, run_turns};
use desk_io::Outputs;
use formula_kinds::{Kind, generate};
use lit_base::Formula;
use solo_core::Settings;
use std::alloc::Global;

/// Makes the formula of this kind and number, and writes it.
pub(crate) fn write_made<O: Outputs>(
    alloc: Global,
    kind: Kind,
    n: u32,
    seed: u64,
    outputs: &mut O,
) -> Result<(), WriteStop>
    requires some { 1 ≤ n }
    requires few { n ≤ most_of kind }
    ensures writes { WritesTexts None (gen_text kind n seed) (gen_text kind n seed) (page_of (O.told outputs.old)) (page_of (O.told outputs.new)) result }
    ensures complaint { KeepsComplaint (O.told outputs.old) (O.told outputs.new) }
{
    let formula = generate(alloc, kind, n, seed)?;
    on_answer(write_formula(alloc, &formula, outputs))
}

/// Makes the formula of this kind and number, runs the cores on it in turn, and writes the summary.
pub(crate) fn race<O: Outputs>(
    alloc: Global,
    kind: Kind,
    n: u32,
    settings: &Settings,
    outputs: &mut O,
) -> Result<(), WriteStop>
    requires some { 1 ≤ n }
    requires few { n ≤ most_of kind }
    requires range { AreInRange settings.now }
    ensures writes { WritesTexts None (race_text kind n settings.now) (race_text kind n settings.now) (page_of (O.told outputs.old)) (page_of (O.told outputs.new)) result }
    ensures complaint { KeepsComplaint (O.told outputs.old) (O.told outputs.new) }
{
    law_winner_is_first();
    let formula = generate(alloc, kind, n, settings.seed)?;
    // for the checker alone: that the formula is one within the limits
    let _ = formula.variables();
    let outcome = run_turns(alloc, &formula, settings, false, outputs)?;
    say_summary(alloc, kind, n, &formula, &outcome, outputs)
}

/// Writes the summary of a race.
fn say_summary<O: Outputs>(
    alloc: Global,
    kind: Kind,
    n: u32,
    formula: &Formula,
    outcome: &Outcome,
    outputs: &mut O,
) -> Result<(), WriteStop>
    requires { IsNone outcome.now.winner ↔ (outcome.now.verdict ≡ Unknown) }
    ensures writes { WritesTexts None (summary_text kind n formula.now outcome.now) (summary_text kind n formula.now outcome.now)
        (page_of (O.told outputs.old)) (page_of (O.told outputs.new)) result }
    ensures complaint { KeepsComplaint (O.told outputs.old) (O.told outputs.new) }
{
    on_answer(write_summary(alloc, kind, n, formula, outcome, outputs))
}
