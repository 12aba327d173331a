//! The laws of a jump and of where literals stand: functions that do nothing, whose contracts state them.
ghost use Rattle.trail_book.specs.Laws.{HigherLeave, LastValuesStay, StandingsTellValues, StandingsTellOrder};

/// A jump lets exactly the entries above the level leave, and no variable's last value changes by it.
pub fn law_jump()
    ensures leave { HigherLeave }
    ensures last { LastValuesStay }
{}

/// Where literals stand tells their values, and which of two true or two false ones was assigned first.
pub fn law_standing()
    ensures values { StandingsTellValues }
    ensures order { StandingsTellOrder }
{}
