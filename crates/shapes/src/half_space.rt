// The half-space behind a plane through the origin.
ghost use Rattle.std.specs.Prelude.{◌≡◌};
ghost use Rattle.shapes.specs.HalfSpace.{half_space_cast};
ghost use Rattle.shapes.specs.HalfSpaceLaws.{half_space_timed, half_space_kept};

use math::Vector;
use query::feature_id::FeatureId;
use query::ray::{Ray, RayCast, RayIntersection};

// The points that are not in front of the plane; `normal` points out, with any length.
#[derive(Clone, Copy, PartialEq, Debug)]
pub struct HalfSpace {
    pub normal: Vector,
}

impl RayCast for HalfSpace {
    ghost casts = { half_space_cast };

    ghost timed = { half_space_timed };

    ghost kept = { λ x r reach longer solid n. half_space_kept x r reach longer solid };

    #[tactic(auto, unfolding(crate::specs::HalfSpace::half_space_cast, crate::specs::HalfSpace::half_space_hit, crate::specs::HalfSpace::plane_hit))]
    fn cast_local_ray_and_get_normal(
        &self,
        ray: &Ray,
        max_time_of_impact: f32,
        solid: bool,
    ) -> Option<RayIntersection> {
        let depth = self.normal.dot(ray.origin.neg());
        if solid && depth > 0.0 {
            return Some(RayIntersection::new(0.0, Vector::zero(), FeatureId::Face(0)));
        }
        let speed = self.normal.dot(ray.dir);
        // A ray along the plane never meets it; the quotient by zero would put it at infinity.
        if speed == 0.0 {
            return None;
        }
        let t = depth / speed;
        let normal = if depth > 0.0 {
            self.normal.neg()
        } else {
            self.normal
        };
        let hit = RayIntersection::new(t, normal, FeatureId::Face(0));
        // two comparisons: with `contains`, which is the same for floats, the proof was not found
        (t >= 0.0 && t <= max_time_of_impact).then_some(hit)
    }
}
