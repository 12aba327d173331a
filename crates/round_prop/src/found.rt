use lit_base::Name;

/// How propagation ended: at a fixed point, or at a conflict, which is the least name of a falsified clause.
#[derive(Clone, Copy, Debug, PartialEq, Eq)]
pub enum Found {
    Fix,
    Conflict(Name),
}
