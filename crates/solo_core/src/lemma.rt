use lit_base::{List, Lit, Name};

/// A lemma that a core learnt from a conflict, under its name.
///
/// `hints` names the clauses from which it follows, in the order in which each becomes unit and the
/// last is falsified. A lemma without literals refutes the formula.
#[derive(Debug, Drop)]
pub struct Lemma {
    pub name: Name,
    pub lits: List<Lit>,
    pub hints: List<Name>,
}
