//! Which variable a core decides, by activity.
#![tactic(auto)]

pub use laws::law_pick;
pub use order::Order;

mod heap;
mod laws;
mod order;
#[cfg(test)]
mod tests;
