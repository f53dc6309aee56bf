// A chunk's box, its cells' boxes and numbers, and the cell of a point.
ghost use Rattle.std.specs.Prelude.{◌≡◌, pos, negsuc, ◌≤ℤ◌};
ghost use Rattle.grid.specs.Frame.{key_float, corner, chunk_box, cell_centre, cell_box, place_of, key_of, cell_number, flat_id_at};

use crate::frame::ChunkFrame;
use crate::voxel_key::VoxelKey;
use boxes::aabb::Aabb;
use math::Vector;

pub const VOXELS_PER_CHUNK_DIM: u8 = 8;

// The key of a place, as a float.
fn key_to_float(chunk_key: i32, place: u8) -> f32
    requires { (negsuc 4095 ≤ℤ chunk_key) × (chunk_key ≤ℤ pos 4096) }
    ensures { result ≡ key_float chunk_key place }
{
    (8 * chunk_key + place as i32) as f32
}

// The place of the cell that holds a coordinate, brought to the nearest from 0 to 8.
fn place_of(chunk_key: i32, coordinate: f32, size: f32) -> u8
    ensures { result ≡ place_of chunk_key coordinate size }
{
    let low = 8 * i64::from(chunk_key);
    let key = i64::from(math::to_i32(math::floor(coordinate / size)));
    (key - low).clamp(0, 8) as u8
}

// The number of the cell at a key: x + 8 y + 64 z, and none outside the chunk.
#[tactic(auto, unfolding(crate::specs::Frame::cell_number))]
pub fn cell_number(key: VoxelKey) -> Option<u16>
    ensures { result ≡ cell_number key }
{
    if key.x < 8 && key.y < 8 && key.z < 8 {
        Some(key.x as u16 + 8 * key.y as u16 + 64 * key.z as u16)
    } else {
        None
    }
}

impl ChunkFrame {
    // The corner of the chunk's grid that many cells above its lowest one.
    fn corner(&self, place: u8) -> Vector
        ensures { result ≡ corner self.now place }
    {
        Vector {
            x: key_to_float(self.key.x, place) * self.voxel_size.x,
            y: key_to_float(self.key.y, place) * self.voxel_size.y,
            z: key_to_float(self.key.z, place) * self.voxel_size.z,
        }
    }

    // The box of the whole chunk.
    #[tactic(auto, unfolding(crate::specs::Frame::chunk_box))]
    pub fn local_aabb(&self) -> Aabb
        ensures { result ≡ chunk_box self.now }
    {
        Aabb {
            mins: self.corner(0),
            maxs: self.corner(VOXELS_PER_CHUNK_DIM),
        }
    }

    pub fn voxel_center(&self, key: VoxelKey) -> Vector
        ensures { result ≡ cell_centre self.now key }
    {
        Vector {
            x: (key_to_float(self.key.x, key.x) + 0.5) * self.voxel_size.x,
            y: (key_to_float(self.key.y, key.y) + 0.5) * self.voxel_size.y,
            z: (key_to_float(self.key.z, key.z) + 0.5) * self.voxel_size.z,
        }
    }

    // The box of the cell at a key, also of a key outside the chunk.
    #[tactic(auto, unfolding(crate::specs::Frame::cell_box))]
    pub fn voxel_aabb(&self, key: VoxelKey) -> Aabb
        ensures { result ≡ cell_box self.now key }
    {
        let size = self.voxel_size;
        let half_extents = Vector {
            x: size.x / 2.0,
            y: size.y / 2.0,
            z: size.z / 2.0,
        };
        Aabb::from_half_extents(self.voxel_center(key), half_extents)
    }

    // The key of the cell that holds a point, brought to the nearest place from 0 to 8 on each axis.
    pub fn voxel_at_point(&self, point: Vector) -> VoxelKey
        ensures { result ≡ key_of self.now point }
    {
        VoxelKey {
            x: place_of(self.key.x, point.x, self.voxel_size.x),
            y: place_of(self.key.y, point.y, self.voxel_size.y),
            z: place_of(self.key.z, point.z, self.voxel_size.z),
        }
    }

    // The number of the cell at a key among those of all chunks: id * 512 + its number; none outside the chunk.
    pub fn flat_id(&self, key: VoxelKey) -> Option<u32>
        ensures { result ≡ flat_id_at self.now key }
    {
        let number = cell_number(key)?;
        Some(self.id * 512 + number as u32)
    }
}
