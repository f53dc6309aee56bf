// A box around the origin.
ghost use Rattle.std.specs.Prelude.{◌≡◌};
ghost use Rattle.shapes.specs.Cuboid.{cuboid_cast};
ghost use Rattle.shapes.specs.CuboidLaws.{cuboid_timed, cuboid_kept};

use boxes::aabb::Aabb;
use math::Vector;
use query::ray::{Ray, RayCast, RayIntersection};

#[derive(Clone, Copy, PartialEq, Debug)]
pub struct Cuboid {
    pub half_extents: Vector,
}

impl RayCast for Cuboid {
    ghost casts = { cuboid_cast };

    ghost timed = { cuboid_timed };

    ghost kept = { λ c r reach longer solid n. cuboid_kept c r reach longer solid };

    fn cast_local_ray_and_get_normal(
        &self,
        ray: &Ray,
        max_time_of_impact: f32,
        solid: bool,
    ) -> Option<RayIntersection> {
        let aabb = Aabb::new(self.half_extents.neg(), self.half_extents);
        aabb.cast_local_ray_and_get_normal(ray, max_time_of_impact, solid)
    }
}
