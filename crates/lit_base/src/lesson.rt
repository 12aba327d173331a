use crate::list::List;
use crate::lit::Lit;
use crate::name::Name;

/// What the analysis of a conflict gives (clause learning: Marques-Silva and Sakallah 1996).
///
/// `lits` is the lemma, the literal of the current level first. `hints` names the clauses from
/// which it follows, in the order in which each becomes unit and the last is falsified. `back` is
/// the level to jump back to. `touched` are the variables above level 0 that were met, from 1 to
/// 1,000,000, the newest on the trail first.
#[derive(Debug, Drop)]
pub struct Lesson {
    pub lits: List<Lit>,
    pub hints: List<Name>,
    pub back: u32,
    pub touched: List<u32>,
}
