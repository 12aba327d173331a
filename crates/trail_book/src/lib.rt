//! The trail of a core: the literals that are assigned, in order, with their levels and reasons.
#![tactic(auto)]

pub use laws::{law_jump, law_standing};
pub use trail::Trail;

mod laws;
#[cfg(test)]
mod tests;
mod trail;
