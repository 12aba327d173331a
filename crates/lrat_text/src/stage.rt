/// How much of a line was met.
#[derive(Clone, Copy, Debug, PartialEq, Eq)]
pub(crate) enum Stage {
    /// No token.
    Start,
    /// The line's own id.
    AfterId,
    /// An id and a literal or more.
    Literals,
    /// The literals and their `0`.
    Hints,
    /// An id and `d`.
    Ids,
    /// A whole addition.
    Added,
    /// A whole deletion.
    Deleted,
}
