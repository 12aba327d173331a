ghost use Rattle.std.specs.Prelude.{◌≡◌, [], map, IfOk, OnOk};
ghost use Rattle.lit_base.specs.Literal.{Literal, negation};
ghost use Rattle.lit_base.specs.Walk.{holds, walk, judgement_of};
ghost use Rattle.lrat_check.specs.Clauses.{lits_at};

use crate::clauses::Clauses;
use crate::known::Known;
use crate::status::{has_true, status_of};
use lit_base::{ClauseStatus, Judged, Lit, NoMemory};

/// Judges a lemma by its hints. What was held true before is forgotten.
pub(crate) fn judge_lemma(
    known: &mut Known,
    clauses: &Clauses,
    lemma: &[Lit],
    hints: &[u64],
) -> Result<Judged, NoMemory>
    ensures { IfOk result (λ judged. judged ≡ judgement_of lemma.now (map (lits_at clauses.now) hints.now)) }
{
    known.clear();
    make_false(known, lemma)?;
    if has_true(known, lemma) {
        return Ok(Judged::Follows);
    }
    let judged = walk(known, clauses, hints)?;
    Ok(judged)
}

/// Holds the negations of these literals true, and nothing else.
fn make_false(known: &mut Known, lits: &[Lit]) -> Result<(), NoMemory>
    requires { known.old ≡ [] }
    ensures { OnOk result ((l : Literal) → holds known.new l ≡ holds (map negation lits.now) l) }
{
    for lit in lits {
        known.make_true(lit.negated())?;
    }
    Ok(())
}

/// Takes the hints in order, up to the first that ends the walk.
fn walk(known: &mut Known, clauses: &Clauses, hints: &[u64]) -> Result<Judged, NoMemory>
    ensures { IfOk result (λ judged. judged ≡ walk 1 known.old (map (lits_at clauses.now) hints.now)) }
{
    for (index, hint) in hints.iter().enumerate() {
        let place = index as u64 + 1;
        let Some(lits) = clauses.lits(*hint) else {
            return Ok(Judged::UnknownHint(place));
        };
        match status_of(known, lits) {
            ClauseStatus::Satisfied => {}
            ClauseStatus::Falsified => return Ok(Judged::Follows),
            ClauseStatus::Implies(lit) => known.make_true(lit)?,
            ClauseStatus::Unresolved => return Ok(Judged::NotUnit(place)),
        }
    }
    Ok(Judged::NotFalsified)
}
