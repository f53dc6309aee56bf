// The step of a walk from one cell to the next along a ray.
ghost use Rattle.std.specs.Prelude.{◌≡◌};
ghost use Rattle.math.specs.Vectors.{component};
ghost use Rattle.voxels.specs.Chunk.{step_time, step_times, all_later, next_place, next_key, step_from};

use boxes::aabb::Aabb;
use grid::voxel_key::VoxelKey;
use math::{Axis, Vector};
use query::ray::Ray;

// When the ray is at the height of the face ahead on an axis. A face that rounding has put behind the origin is passed at once,
// so that the cells ahead of it are not lost.
#[tactic(auto, unfolding(crate::specs::Chunk::step_time))]
fn step_time(aabb: &Aabb, ray: &Ray, axis: Axis) -> f32
    ensures { result ≡ step_time (component aabb.now.mins axis) (component aabb.now.maxs axis) (component ray.now.origin axis) (component ray.now.dir axis) }
{
    let origin = ray.origin.vget(axis);
    let dir = ray.dir.vget(axis);
    let time = if dir > 0.0 {
        (aabb.maxs.vget(axis) - origin) / dir
    } else if dir < 0.0 {
        (aabb.mins.vget(axis) - origin) / dir
    } else {
        return f32::MAX;
    };
    if time < 0.0 { 0.0 } else { time }
}

fn step_times(aabb: &Aabb, ray: &Ray) -> Vector
    ensures { result ≡ step_times aabb.now ray.now }
{
    Vector {
        x: step_time(aabb, ray, Axis::X),
        y: step_time(aabb, ray, Axis::Y),
        z: step_time(aabb, ray, Axis::Z),
    }
}

fn all_later(times: Vector, limit: f32) -> bool
    ensures { result ≡ all_later times limit }
{
    times.x > limit && times.y > limit && times.z > limit
}

// Up where the direction is above zero, else down; none where that leaves the chunk.
#[tactic(auto, unfolding(crate::specs::Chunk::next_place))]
fn next_place(place: u8, dir: f32) -> Option<u8>
    ensures { result ≡ next_place place dir }
{
    if dir > 0.0 {
        (place < 7).then(|| place + 1)
    } else {
        place.checked_sub(1)
    }
}

fn next_key(key: VoxelKey, dir: Vector, axis: Axis) -> Option<VoxelKey>
    ensures { result ≡ next_key key dir axis }
{
    match axis {
        Axis::X => Some(VoxelKey {
            x: next_place(key.x, dir.x)?,
            ..key
        }),
        Axis::Y => Some(VoxelKey {
            y: next_place(key.y, dir.y)?,
            ..key
        }),
        Axis::Z => Some(VoxelKey {
            z: next_place(key.z, dir.z)?,
            ..key
        }),
    }
}

// The step from a key, whose cell has the box `aabb`: along the axis whose face comes first, the lowest of equal ones.
// None where all faces come after the limit, and where the step would leave the chunk.
#[tactic(auto, unfolding(crate::specs::Chunk::step_from))]
pub fn step_from(key: VoxelKey, aabb: &Aabb, ray: &Ray, limit: f32) -> Option<VoxelKey>
    ensures { result ≡ step_from key ray.now.dir (step_times aabb.now ray.now) limit }
{
    let times = step_times(aabb, ray);
    if all_later(times, limit) {
        None
    } else {
        next_key(key, ray.dir, times.min_position())
    }
}
