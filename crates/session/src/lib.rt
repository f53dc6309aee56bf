// Carries out a setup file, line by line.
#![tactic(auto)]

pub mod display;
pub mod outcome;
pub mod run;
pub mod session;
pub mod tally;
#[cfg(test)]
mod tests;
