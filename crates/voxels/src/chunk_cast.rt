// What a chunk's cast answers.
use grid::voxel_key::VoxelKey;
use query::ray::RayIntersection;

// The hit, if any, and the number of keys that the walk stood on.
#[derive(Clone, Copy, PartialEq, Debug)]
pub struct ChunkCast {
    pub hit: Option<RayIntersection>,
    pub visited: u32,
}

// One turn of the walk: a hit, the end, or the next key.
// No `ControlFlow` of an option: the three are matched at once, and their names say more than two that hold a third.
#[derive(Clone, Copy)]
pub enum Turn {
    Hit(RayIntersection),
    Stop,
    Step(VoxelKey),
}
