// A chunk of scanned cells and its cast.
#![tactic(auto)]

pub mod chunk;
pub mod chunk_cast;
pub mod ray_chunk;
pub mod steps;
