use crate::list::List;
use crate::lit::Lit;

/// A line of a proof in LRAT form: its number, from 1, and its step
/// (LRAT: Cruz-Filipe, Heule, Hunt, Kaufmann and Schneider-Kamp 2017).
#[derive(Debug, Drop)]
pub struct Line {
    pub line: u64,
    pub step: LineStep,
}

/// What a line of a proof does. Ids are from 1 to 2^63 - 1.
#[derive(Debug, Drop)]
pub enum LineStep {
    /// Adds a lemma under an id. The hints are ids of live clauses, in the order in which each
    /// becomes unit and the last is falsified.
    Add {
        id: u64,
        lits: List<Lit>,
        hints: List<u64>,
    },
    /// Deletes the clauses with these ids, in order. The line's own id is only read.
    Delete {
        id: u64,
        ids: List<u64>,
    },
}

/// The status of a clause where some literals are held true.
#[derive(Clone, Copy, Debug, PartialEq, Eq)]
pub enum ClauseStatus {
    /// One of its literals is true.
    Satisfied,
    /// All its literals are false.
    Falsified,
    /// The clause is unit: this literal is free, and all others are false or the same.
    Implies(Lit),
    /// None is true, and two or more distinct ones are free.
    Unresolved,
}

/// Whether a lemma follows from its hints, or the first rule that is broken; a place is that of
/// the hint, from 1.
#[derive(Clone, Copy, Debug, PartialEq, Eq)]
pub enum Judged {
    Follows,
    UnknownHint(u64),
    NotUnit(u64),
    NotFalsified,
}

/// The first fault of a proof: the number of its line and, where there is one, the place on that
/// line of the hint or of the id to be deleted, from 1.
#[derive(Clone, Copy, Debug, PartialEq, Eq)]
pub enum ProofFault {
    /// The id of an addition isn't above those of all originals and all earlier additions.
    IdNotRising(u64),
    /// A hint isn't the id of a live clause.
    UnknownHint(u64, u64),
    /// A hint's clause has no true literal, and two or more distinct free ones.
    NotUnit(u64, u64),
    /// The hints end without a falsified clause.
    NotFalsified(u64),
    /// An id to be deleted isn't that of a live clause.
    UnknownDelete(u64, u64),
}
