//! That an answer says what it is to say: laws of the definitions, as functions that do nothing and whose
//! contracts state them.
ghost use Rattle.std.specs.Prelude.{◌≡◌, ◌+◌, ◌++◌, ℕ, List, true, false, length};
ghost use Rattle.solo_core.specs.First.{AreInRange};
ghost use Rattle.solo_core.specs.declared.sheet.Settings.{Settings};
ghost use Rattle.crew.specs.declared.outcome.Outcome.{Outcome};
ghost use Rattle.crew.specs.declared.trace.TraceRow.{TraceRow};
ghost use Rattle.answer_text.specs.Answer.{answer_text, trace_text};
ghost use Rattle.answer_text.specs.Laws.{line_count, FitRows, FitsOutcome};
ghost use Rattle.answer_text.specs.Trace.{era_lines};

/// The trace stands in front of the answer, and the answer behind it is the one without a trace.
pub fn law_trace_is_in_front()
    ensures { (outcome : Outcome) (settings : Settings) →
        answer_text outcome settings true ≡ trace_text outcome settings true ++ answer_text outcome settings false }
{}

/// The trace has a line for each core, one for each row, and one for the winner.
pub fn law_trace_has_its_lines()
    ensures { (outcome : Outcome) (settings : Settings) → AreInRange settings → FitsOutcome outcome →
        line_count (trace_text outcome settings true) ≡ settings.cores + length outcome.trace + 1 }
{}

/// Rows with the same lines are the same: nothing of what the cores did is lost in the text.
pub fn law_rows_are_read_back()
    ensures { (rows others : List TraceRow) → FitRows rows → FitRows others → era_lines rows ≡ era_lines others → rows ≡ others }
{}
