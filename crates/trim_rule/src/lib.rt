//! Which lemmas a core drops at a reduction.
#![tactic(auto)]

pub use laws::law_choose;
pub use reduction::choose;

mod laws;
mod reduction;
#[cfg(test)]
mod tests;
