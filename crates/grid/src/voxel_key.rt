// The place of a cell in its chunk.

// A cell's key less the chunk's lowest key, per axis: 0 to 7, and 8 for one past the chunk.
// A type of its own, as parry's `Vector` and `IVector` are: a place is not passed for a coordinate.
#[derive(Clone, Copy)]
pub struct VoxelKey {
    pub x: u8,
    pub y: u8,
    pub z: u8,
}
