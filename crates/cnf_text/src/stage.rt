/// How much of the header was met.
#[derive(Clone, Copy, Debug, PartialEq, Eq)]
pub(crate) enum Stage {
    /// No token.
    Start,
    /// `p`.
    AfterMagic,
    /// `p cnf`.
    AfterFormat,
    /// `p cnf V`.
    AfterVariables,
    /// `p cnf V C`, and its line goes on.
    AfterClauses,
    /// The whole header line: the clauses follow.
    Body,
}
