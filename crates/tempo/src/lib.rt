//! When a core restarts, by the sequence of Luby, Sinclair and Zuckerman (1993).
#![tactic(auto)]

pub use laws::{law_luby, law_restarts};
pub use sequence::luby;
pub use tempo::Tempo;

mod laws;
mod sequence;
mod tempo;
#[cfg(test)]
mod tests;
