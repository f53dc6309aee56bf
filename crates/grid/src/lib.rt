// The grid of a chunk's cells: where the chunk lies, and the boxes, keys and numbers of its cells.
#![tactic(auto)]

pub mod frame;
pub mod geometry;
pub mod voxel_key;
