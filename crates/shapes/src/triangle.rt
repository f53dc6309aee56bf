// A triangle, which has no inside.
ghost use Rattle.std.specs.Prelude.{◌≡◌};
ghost use Rattle.shapes.specs.Triangle.{hit_within, triangle_hit, triangle_cast};
ghost use Rattle.shapes.specs.TriangleLaws.{triangle_timed, triangle_kept};

use math::Vector;
use query::feature_id::FeatureId;
use query::ray::{Ray, RayCast, RayIntersection};

#[derive(Clone, Copy, PartialEq, Debug)]
pub struct Triangle {
    pub a: Vector,
    pub b: Vector,
    pub c: Vector,
}

// The hit at the time height / size, if it is within the triangle: `v` and `w` are the shares of b and c in it, times `size`.
#[tactic(auto, unfolding(crate::specs::Triangle::hit_within))]
fn hit_within(
    v: f32,
    w: f32,
    size: f32,
    height: f32,
    normal: Vector,
    feature: FeatureId,
) -> Option<RayIntersection>
    ensures { result ≡ hit_within v w size height normal feature }
{
    let outside = v < 0.0 || v > size || w < 0.0 || v + w > size;
    (!outside).then_some(RayIntersection::new(height * (1.0 / size), normal, feature))
}

// Where a ray hits a triangle, by the parameters of parry's function: Face(0) on the side that its normal (b - a) x (c - a) points to, Face(1) on the other.
// The normal of the hit is against the ray.
#[tactic(auto, unfolding(crate::specs::Triangle::triangle_hit, crate::specs::Triangle::seen_from_corner, crate::specs::Triangle::plane_reached, crate::specs::Triangle::plane_crossed))]
pub fn local_ray_intersection_with_triangle(
    a: Vector,
    b: Vector,
    c: Vector,
    ray: &Ray,
) -> Option<RayIntersection>
    ensures { result ≡ triangle_hit a b c ray.now }
{
    let ab = b.sub(a);
    let ac = c.sub(a);
    let n = ab.cross(ac);
    let speed = n.dot(ray.dir);
    // The ray is along the triangle's plane.
    if speed == 0.0 {
        return None;
    }
    let ap = ray.origin.sub(a);
    let height = ap.dot(n);
    // It goes away from the plane.
    if (height < 0.0 && speed < 0.0) || (height > 0.0 && speed > 0.0) {
        return None;
    }
    let feature = if speed < 0.0 {
        FeatureId::Face(0)
    } else {
        FeatureId::Face(1)
    };
    let size = speed.abs();
    let e = ray.dir.cross(ap).neg();
    // A ray that starts on the plane comes from the side that it leaves.
    if height < 0.0 || (height == 0.0 && speed > 0.0) {
        let normal = n.normalize().neg();
        hit_within(-ac.dot(e), ab.dot(e), size, -height, normal, feature)
    } else {
        hit_within(ac.dot(e), -ab.dot(e), size, height, n.normalize(), feature)
    }
}

impl RayCast for Triangle {
    ghost casts = { triangle_cast };

    ghost timed = { triangle_timed };

    ghost kept = { λ x r reach longer solid n. triangle_kept x r reach longer solid };

    #[tactic(auto, unfolding(crate::specs::Triangle::triangle_cast))]
    fn cast_local_ray_and_get_normal(
        &self,
        ray: &Ray,
        max_time_of_impact: f32,
        solid: bool,
    ) -> Option<RayIntersection> {
        let hit = local_ray_intersection_with_triangle(self.a, self.b, self.c, ray)?;
        (hit.time_of_impact <= max_time_of_impact).then_some(hit)
    }
}
