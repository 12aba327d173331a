/// What a turn of a core comes to.
#[derive(Clone, Copy, Debug, PartialEq, Eq)]
pub enum TurnEnd {
    /// A literal was decided.
    Decided,
    /// A conflict above level 0 taught a lemma.
    Learnt,
    /// A conflict at level 0 refuted the formula.
    Refuted,
    /// The trail is a model.
    Modelled,
}
