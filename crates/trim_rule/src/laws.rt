//! The laws of a reduction: a function that does nothing, whose contract states them.
ghost use Rattle.trim_rule.specs.Laws.{OnlyCandidatesGo, ReasonsStay, HalfGoes, EarlierGoToo, HeldLemmasGo, AreDetermined};

/// Each clause that goes is a held lemma of more than two literals that is no reason; half of these go, rounded down; with
/// one each goes that goes before it; each goes once; and no other list is such a half.
pub fn law_choose()
    ensures candidates { OnlyCandidatesGo }
    ensures reasons { ReasonsStay }
    ensures half { HalfGoes }
    ensures earlier { EarlierGoToo }
    ensures held { HeldLemmasGo }
    ensures determined { AreDetermined }
{}
