use crate::lemma::Lemma;
use lit_base::{List, Lit, Model, Name};

/// The settings of a run, the same for all its cores.
///
/// `cores` is from 1 to 16, `period` (the conflicts of a core's first period) from 1 to 100,000, `share` (the
/// literals of a clause that is posted) from 0 to 64, `limit` (the conflicts of each core in the whole run) from 1
/// to 1,000,000,000; `seed` is any number.
#[derive(Clone, Copy, Debug, PartialEq, Eq)]
pub struct Settings {
    pub cores: u32,
    pub period: u32,
    pub share: u32,
    pub limit: u32,
    pub seed: u64,
}

/// How a stretch of a core ends.
#[derive(Clone, Copy, Debug, PartialEq, Eq)]
pub enum End {
    /// The core had as many conflicts in this period as it may have.
    Quota,
    /// The core found a model.
    Sat,
    /// The core derived the empty lemma.
    Unsat,
    /// The core had as many conflicts in the whole run as it may have.
    Spent,
}

/// A clause that a core posts to the others, under its name.
#[derive(Debug, Drop)]
pub struct Posted {
    pub name: Name,
    pub lits: List<Lit>,
}

/// What a core tells the others at the end of a period: how its stretch ended, its conflicts in the
/// period, the number of clauses that it holds and that are no originals, and the clauses that it posts.
#[derive(Debug, Drop)]
pub struct Mail {
    pub core: u32,
    pub period: u32,
    pub end: End,
    pub conflicts: u32,
    pub volume: u64,
    pub posted: List<Posted>,
}

/// All that a core leaves of a period: its mail, the lemmas that it learnt in it, and its model,
/// which is there exactly where `mail.end` is Sat.
#[derive(Debug, Drop)]
pub struct Sheet {
    pub mail: Mail,
    pub lemmas: List<Lemma>,
    pub model: Option<Model>,
}
