// What follows from a full cast, once for every kind of thing: the time alone, whether there is a hit, and the same of a thing in a pose.
// The functions take what parry's methods of these names take, one by one.
ghost use Rattle.std.specs.Prelude.{◌≡◌, true, is_some};
ghost use Rattle.query.specs.Cast.{local_ray, time_of, world_hit_of};

use crate::ray::{Ray, RayCast, RayIntersection};
use math::pose::Pose;

// The time of the full cast.
pub fn cast_local_ray<T: RayCast>(
    thing: &T,
    ray: &Ray,
    max_time_of_impact: f32,
    solid: bool,
) -> Option<f32>
    ensures { result ≡ time_of (T.casts thing.now ray.now max_time_of_impact solid) }
{
    thing
        .cast_local_ray_and_get_normal(ray, max_time_of_impact, solid)
        .map(|hit| hit.time_of_impact)
}

// Whether the solid thing is hit.
pub fn intersects_local_ray<T: RayCast>(thing: &T, ray: &Ray, max_time_of_impact: f32) -> bool
    ensures { result ≡ is_some (T.casts thing.now ray.now max_time_of_impact true) }
{
    cast_local_ray(thing, ray, max_time_of_impact, true).is_some()
}

// The time of the full cast on a thing in a pose.
pub fn cast_ray<T: RayCast>(
    thing: &T,
    m: &Pose,
    ray: &Ray,
    max_time_of_impact: f32,
    solid: bool,
) -> Option<f32>
    ensures { result ≡ time_of (T.casts thing.now (local_ray m.now ray.now) max_time_of_impact solid) }
{
    cast_local_ray(
        thing,
        &ray.inverse_transform_by(m),
        max_time_of_impact,
        solid,
    )
}

// The full cast on a thing in a pose; the normal is turned into the world.
pub fn cast_ray_and_get_normal<T: RayCast>(
    thing: &T,
    m: &Pose,
    ray: &Ray,
    max_time_of_impact: f32,
    solid: bool,
) -> Option<RayIntersection>
    ensures { result ≡ world_hit_of m.now (T.casts thing.now (local_ray m.now ray.now) max_time_of_impact solid) }
{
    thing
        .cast_local_ray_and_get_normal(&ray.inverse_transform_by(m), max_time_of_impact, solid)
        .map(|hit| hit.transform_by(m))
}

// Whether the solid thing in a pose is hit.
pub fn intersects_ray<T: RayCast>(thing: &T, m: &Pose, ray: &Ray, max_time_of_impact: f32) -> bool
    ensures { result ≡ is_some (T.casts thing.now (local_ray m.now ray.now) max_time_of_impact true) }
{
    intersects_local_ray(thing, &ray.inverse_transform_by(m), max_time_of_impact)
}
