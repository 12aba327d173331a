//! The rule that a board of mailboxes keeps between any two atomic steps, over plain data, and why each step keeps it.
//!
//! The parties of a board work in periods. In each period every party puts a mail for every other one, arrives, and
//! takes the mails of the others once all have arrived. A mailbox has a sender, a receiver and one of two banks, which
//! the periods use in turn, so that a party may put the mails of the next period while others still take those of the
//! last one. The rule says what the words and the slots of the table hold, given what each party has done.
//!
//! Nothing runs here: a board over this rule is of the crates above.
#![tactic(auto)]

pub use laws::{
    law_arrive, law_emptied, law_laid, law_lift_fill, law_lift_take, law_look, law_mailboxes,
    law_split, law_start,
};
pub use rule::Rule;
pub use steps::{Arrived, Emptied, LaidDown, LiftedToFill, LiftedToTake, Looked, SeatGiven};
pub use told::Told;
pub use views::{Account, Moving, Terms, View};

mod laws;
mod rule;
mod steps;
#[cfg(test)]
mod tests;
mod told;
mod views;
