// A ball around any point.
ghost use Rattle.std.specs.Prelude.{◌≡◌};
ghost use Rattle.shapes.specs.BoundingSphere.{bounding_sphere_cast};
ghost use Rattle.shapes.specs.BallLaws.{bounding_sphere_timed, bounding_sphere_kept};

use crate::ball::Ball;
use math::Vector;
use query::ray::{Ray, RayCast, RayIntersection};

#[derive(Clone, Copy, PartialEq, Debug)]
pub struct BoundingSphere {
    pub center: Vector,
    pub radius: f32,
}

impl RayCast for BoundingSphere {
    ghost casts = { bounding_sphere_cast };

    ghost timed = { bounding_sphere_timed };

    ghost kept = { λ s r reach longer solid n. bounding_sphere_kept s r reach longer solid };

    fn cast_local_ray_and_get_normal(
        &self,
        ray: &Ray,
        max_time_of_impact: f32,
        solid: bool,
    ) -> Option<RayIntersection> {
        let centered_ray = ray.translate_by(self.center.neg());
        let ball = Ball {
            radius: self.radius,
        };
        ball.cast_local_ray_and_get_normal(&centered_ray, max_time_of_impact, solid)
    }
}
