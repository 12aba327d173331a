//! What callers of a checker may rest on: functions that do nothing, whose contracts state it.
ghost use Rattle.lrat_check.specs.Laws.{JudgedLinesAreSound, FaultRefuses};

/// What a checker has judged has no fault.
pub fn law_judged_lines_are_sound()
    ensures { JudgedLinesAreSound }
{}

/// A proof doesn't check whose first fault stands on the line of its first empty lemma or before, whatever follows.
pub fn law_fault_refuses()
    ensures { FaultRefuses }
{}
