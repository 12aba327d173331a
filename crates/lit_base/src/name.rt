/// The name of a clause: the period and the core in which it was made, and its index there.
///
/// An original clause has period 0 and core 0, and its index counts the formula's clauses from 0.
/// Periods of a run count from 1. Names are ordered as in a dictionary.
#[derive(Clone, Copy, Debug, PartialEq, Eq, PartialOrd, Ord)]
pub struct Name {
    pub period: u32,
    pub core: u32,
    pub index: u32,
}

impl Name {
    ghost use Rattle.std.specs.Prelude.{◌≡◌};
    ghost use Rattle.lit_base.specs.Rounds.{original};
    ghost use Rattle.lit_base.specs.Held.{is_before};

    /// The name of the original clause at this place of the formula, counted from 0.
    pub fn original(index: u32) -> Name
        ensures { result ≡ original index }
    {
        Name::lemma(0, 0, index)
    }

    /// The name of the lemma that this core learnt in this period, where it had learnt so many before.
    pub fn lemma(period: u32, core: u32, index: u32) -> Name
        ensures { result ≡ record { period = period; core = core; index = index } }
    {
        Name {
            period,
            core,
            index,
        }
    }

    /// Whether the name stands before another, by the order that names are compared in: by period,
    /// then by core, then by index.
    pub fn is_before(self, other: Name) -> bool
        ensures { result ≡ is_before self other }
    {
        self < other
    }
}
