//! A board on which parties give each other mails, period by period, with a barrier between a period's mails and those
//! who take them.
//!
//! In each period a party puts a mail for every other one and arrives. Once all have arrived, it takes the mails that the
//! others have put for it. Two banks of mailboxes serve the periods in turn, so a party may put for the next period while
//! others still take from the last one. Every call but `wait_ready` is a few atomic steps: it waits for nobody, and takes
//! no lock and no memory. What a mail means is said by the type that the board carries, as a fact on the occasion, the
//! sender, the receiver and the period; `put` asks for it and `take` gives it.
//!
//! The barrier counts arrivals on one word, which only rises. That a phase is ever complete, that a thread wakes, and who
//! comes first is not claimed.
#![tactic(auto)]

pub use board::Board;
pub use look::Look;
pub use pass::{Pass, Seated};

mod board;
mod look;
mod mailbox;
mod mails;
mod making;
mod numbers;
mod pass;
mod phases;
#[cfg(test)]
mod tests;
