//! The held clauses of a core by name, in flat arenas of literals.
#![tactic(auto)]

pub use pool::Pool;
pub use span::Span;
pub use steps::Steps;
pub use tally::Tally;

mod arena;
mod chains;
mod originals;
mod packing;
mod pool;
mod slot;
mod span;
mod steps;
mod table;
mod tally;
#[cfg(test)]
mod tests;
