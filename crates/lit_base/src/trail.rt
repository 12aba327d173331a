use crate::lit::Lit;
use crate::name::Name;

/// An assigned literal on a trail, with the level at which it was assigned.
///
/// `reason` names the clause that implied it, and is None for a decision.
#[derive(Clone, Copy, Debug, PartialEq, Eq)]
pub struct Entry {
    pub lit: Lit,
    pub level: u32,
    pub reason: Option<Name>,
}

/// The value of a literal on a trail.
#[derive(Clone, Copy, Debug, PartialEq, Eq)]
pub enum Value {
    True,
    False,
    Free,
}
