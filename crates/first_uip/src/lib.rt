//! The analysis of a conflict up to the first unique implication point
//! (Marques-Silva and Sakallah 1996; Zhang, Madigan, Moskewicz and Malik 2001).
#![tactic(auto)]

pub use analysis::{Analyser, analyse};

mod analysis;
mod marks;
mod reads;
#[cfg(test)]
mod tests;
mod walk;
