//! How many conflicts a core has in its next period, by how full it is beside the others.
//!
//! Cores wait for each other at the end of a period, and conflicts take longer in a core that holds more.
//! So a core that holds less than the fullest one has more conflicts in its period.
#![tactic(auto)]

pub use laws::law_next_period;
pub use period::next_period;

mod laws;
mod period;
#[cfg(test)]
mod tests;
