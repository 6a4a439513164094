// What the programs print of numbers and of answers.
#![tactic(auto)]

mod outcome;
mod spaced;
#[cfg(test)]
mod tests;

pub use outcome::Outcome;
pub use spaced::Spaced;
