//! The settings by which the cores of the portfolio differ: the table of rows, the noise of the
//! start activities, and the limit of a core on the clauses that it shares.
#![tactic(auto)]

pub use activity::{noise, start_activity};
pub use laws::{law_rows_are_in_range, law_rows_differ, law_share_limit};
pub use limit::share_of;
pub use row::Row;
pub use table::{RowTable, shipped};

mod activity;
mod laws;
mod limit;
mod row;
mod table;
#[cfg(test)]
mod tests;
