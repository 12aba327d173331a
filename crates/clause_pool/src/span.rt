/// Where the literals of a clause stand in those of all clauses of a pool, laid end to end in the order of adding: from
/// `start` up to `end`. Clauses that are added later leave it good; it is good until clauses are dropped.
#[derive(Clone, Copy, Debug, PartialEq, Eq)]
pub struct Span {
    pub start: usize,
    pub end: usize,
}
