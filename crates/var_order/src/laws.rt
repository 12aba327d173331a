//! The law of the pick: a function that does nothing, whose contract states it.
ghost use Rattle.var_order.specs.Laws.{PickIsBest, BestIsPick, NoneWhereFull};

/// The picked variable is free, no free one has a greater activity, and none of a lower number has the same;
/// a variable of which this holds is picked; where none is picked, the trail is full.
pub fn law_pick()
    ensures best { PickIsBest }
    ensures picked { BestIsPick }
    ensures none { NoneWhereFull }
{}
