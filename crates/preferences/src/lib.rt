// The kinds of preference.
#![tactic(auto)]

mod cases;
mod further_row;
mod ranking;
mod row;
mod rows;
#[cfg(test)]
mod tests;

pub use cases::worked_cases;
pub use further_row::{FurtherRow, further_row_joins_rows};
pub use ranking::Ranking;
pub use rows::Rows;
