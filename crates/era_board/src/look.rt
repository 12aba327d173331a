/// What a look at the barrier tells.
#[derive(Clone, Copy, PartialEq, Eq, Debug)]
pub enum Look {
    /// All parties have arrived as often as the one that looks.
    Ready,
    /// They have not: the arrivals of all parties together were so many.
    NotYet(u64),
}
