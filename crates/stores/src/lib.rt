// Stores of 512 cells.
#![tactic(auto)]

pub mod cell_store;
pub mod few_store;
pub mod table_store;
