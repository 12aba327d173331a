//! The laws of the sequence and of the restarts: functions that do nothing, whose contracts state them.
ghost use Rattle.tempo.specs.Laws.{PeaksAreHalves, RestRepeats, FirstValues};
ghost use Rattle.tempo.specs.Laws.{BeginsAtFirst, NoneBefore, LastIsDue, NextPlace};

/// The equations that define the sequence, for every place, and its first fifteen values.
pub fn law_luby()
    ensures peaks { PeaksAreHalves }
    ensures rest { RestRepeats }
    ensures first { FirstValues }
{}

/// After a restart the next one is due at the conflict that makes as many as the unit times the value of the sequence,
/// and at none before it; then the next place of the sequence counts. It begins at the first place.
pub fn law_restarts()
    ensures begins { BeginsAtFirst }
    ensures none_before { NoneBefore }
    ensures last { LastIsDue }
    ensures next { NextPlace }
{}
