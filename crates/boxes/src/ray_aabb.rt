// The cast of a box.
ghost use Rattle.std.specs.Prelude.{◌≡◌, Some};
ghost use Rattle.boxes.specs.Box.{side_feature, box_point, box_cast};
ghost use Rattle.boxes.specs.BoxLemmas.{box_timed, box_kept};

use crate::aabb::Aabb;
use crate::clip_aabb_line::{LineClip, LinePoint, Side, clip_aabb_line};
use math::{Axis, Vector};
use query::feature_id::FeatureId;
use query::ray::{Ray, RayCast, RayIntersection};

// The face of a side: 0 to 2 at the minimum of x, y and z, 3 to 5 at the maximum.
impl From<Side> for FeatureId {
    ghost from_gives = { λ side feature. feature ≡ side_feature (Some side) };

    fn from(side: Side) -> FeatureId {
        match side {
            Side::Low(Axis::X) => FeatureId::Face(0),
            Side::Low(Axis::Y) => FeatureId::Face(1),
            Side::Low(Axis::Z) => FeatureId::Face(2),
            Side::High(Axis::X) => FeatureId::Face(3),
            Side::High(Axis::Y) => FeatureId::Face(4),
            Side::High(Axis::Z) => FeatureId::Face(5),
        }
    }
}

// Where a ray hits the box that leaves `clip` of it, if that is within the reach.
#[tactic(auto, unfolding(crate::specs::Box::box_point))]
fn ray_aabb(clip: LineClip, max_time_of_impact: f32, solid: bool) -> Option<LinePoint>
    ensures { result ≡ box_point clip max_time_of_impact solid }
{
    let inside = clip.near.time < 0.0;
    // A ray from within a solid box hits at once.
    if inside && solid {
        return Some(LinePoint {
            time: 0.0,
            normal: Vector::zero(),
            ..clip.far
        });
    }
    let point = if inside { clip.far } else { clip.near };
    (point.time <= max_time_of_impact).then_some(point)
}

impl RayCast for Aabb {
    ghost casts = { box_cast };

    ghost timed = { box_timed };

    ghost kept = { λ b r reach longer solid n. box_kept b r reach longer solid };

    #[tactic(auto, unfolding(crate::specs::Box::box_cast))]
    fn cast_local_ray_and_get_normal(
        &self,
        ray: &Ray,
        max_time_of_impact: f32,
        solid: bool,
    ) -> Option<RayIntersection> {
        let clip = clip_aabb_line(self, ray.origin, ray.dir)?;
        let point = ray_aabb(clip, max_time_of_impact, solid)?;
        let feature = point.side.map_or(FeatureId::Unknown, FeatureId::from);
        Some(RayIntersection::new(point.time, point.normal, feature))
    }
}
