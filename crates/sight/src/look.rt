// Sight lines through a scanned corner.
ghost use Rattle.std.specs.Prelude.{◌≡◌, ◌≤◌, pos, negsuc, ◌≤ℤ◌, Some};
ghost use Rattle.voxels.specs.Chunk.{NamesCell};
ghost use Rattle.sight.specs.Sight.{coordinate, grid_position, position, ExactlyAt, look_at};

use crate::grid_point::GridPoint;
use crate::scan::{Scan, power_of_two};
use grid::frame::ChunkFrame;
use math::Vector;
use query::ray::{Ray, RayIntersection};
use stores::cell_store::CellStore;
use voxels::chunk_cast::ChunkCast;

// Where a grid number stands on an axis of the chunk with that key.
fn coordinate(key: i32, g: u16, unit: f32) -> f32
    requires { (negsuc 4095 ≤ℤ key) × ((key ≤ℤ pos 4096) × (g ≤ 1023)) }
    ensures { result ≡ coordinate unit key g }
{
    (1024 * key + g as i32) as f32 * unit
}

// Where a grid point of a chunk stands, by the size of a unit.
fn grid_position(frame: &ChunkFrame, point: &GridPoint, unit: f32) -> Vector
    ensures { result ≡ grid_position unit frame.now.key point.now }
{
    Vector {
        x: coordinate(frame.key.x, point.x, unit),
        y: coordinate(frame.key.y, point.y, unit),
        z: coordinate(frame.key.z, point.z, unit),
    }
}

impl<S: CellStore> Scan<S> {
    // Where a grid point stands, in metres.
    pub fn position(&self, point: &GridPoint) -> Vector
        ensures value { result ≡ position self.now.exponent self.now.chunk.frame.key point.now }
        ensures exact { ExactlyAt result self.now.exponent self.now.chunk.frame.key point.now }
    {
        grid_position(&self.chunk.frame, point, power_of_two(self.exponent - 7))
    }

    // The solid cast from camera to target: what stops the line, and how many keys the walk stood on.
    // The two ends come one by one, as whoever looks has them.
    pub fn look(&self, camera: &GridPoint, target: &GridPoint) -> ChunkCast
        ensures value { result ≡ look_at self.now.exponent self.now.chunk.frame (S.CellStore.kinds self.now.chunk.cells) camera.now target.now }
        ensures named { (h : RayIntersection) → result.hit ≡ Some h → NamesCell self.now.chunk.frame (S.CellStore.kinds self.now.chunk.cells) h }
        ensures few { result.visited ≤ 22 }
    {
        let origin = self.position(camera);
        let dir = self.position(target).sub(origin);
        self.chunk.cast_ray(&Ray { origin, dir }, 1.0, true)
    }
}
