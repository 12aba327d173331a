ghost use Rattle.crew.specs.Posts.{FitsRun};

use board_rule::Told;
use lit_base::Formula;
use solo_core::{Mail, Settings, Sheet};
use std::snapshot::Snapshot;

/// What the parties of a board work on: a formula, of which nothing is copied, and the settings of a run.
#[derive(Drop)]
pub struct Brief {
    pub formula: Snapshot<Formula>,
    pub settings: Settings,
}

/// What the parties of a board give each other. The cores have the numbers from 0 on, and the scribe the number after theirs.
#[derive(Drop)]
pub enum Post {
    /// From a core to another one: its mail of the period.
    Mail(Mail),
    /// From a core to the scribe: its sheet of the period.
    Sheet(Sheet),
    /// From the scribe to a core: the log of the last periods is written.
    Go,
    /// From the scribe to a core: the log could not be written, or memory ran out.
    Halt,
    /// From a core: memory ran out.
    Broken,
}

impl Told for Post {
    type Occasion = Brief;

    ghost fits = { FitsRun };
}
