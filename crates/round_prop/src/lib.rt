//! Unit propagation in rounds over the clauses of a core, to a conflict or a fixed point.
#![tactic(auto)]

pub use found::Found;
pub use laws::{law_attached_follow_held, law_attached_is_determined, law_places_stay_at_an_add};
pub use rounds::Rounds;

mod begin;
mod clause;
mod found;
mod fresh;
mod laws;
mod links;
mod node;
mod note;
mod noted;
mod removal;
mod room;
mod round;
mod rounds;
mod row;
mod short;
mod table;
#[cfg(test)]
mod tests;
mod visit;
mod walk;
