// A ball around the origin.
ghost use Rattle.std.specs.Prelude.{◌≡◌};
ghost use Rattle.shapes.specs.Ball.{ball_time, ball_hit, ball_cast};
ghost use Rattle.shapes.specs.BallLaws.{ball_timed, ball_kept};

use math::Vector;
use query::feature_id::FeatureId;
use query::ray::{Ray, RayCast, RayIntersection};

#[derive(Clone, Copy, PartialEq, Debug)]
pub struct Ball {
    pub radius: f32,
}

// When or where a ray hits a ball, and whether it starts inside.
#[derive(Clone, Copy, PartialEq, Debug)]
pub struct BallHit<T> {
    pub inside: bool,
    pub at: T,
}

// When the ray hits the ball, by the parameters of parry's function. One that never does counts as starting outside.
// Under `solid` a ray from inside hits at once, else where it leaves. Rounding can put that time below zero.
#[tactic(auto, unfolding(crate::specs::Ball::ball_time, crate::specs::Ball::ball_roots, crate::specs::Ball::time_on_sphere))]
pub fn ray_toi_with_ball(
    center: Vector,
    radius: f32,
    ray: &Ray,
    solid: bool,
) -> Option<BallHit<f32>>
    ensures { result ≡ ball_time center radius ray.now solid }
{
    let from_center = ray.origin.sub(center);
    let a = ray.dir.dot(ray.dir);
    let b = from_center.dot(ray.dir);
    let c = from_center.dot(from_center) - radius * radius;
    let at_once = BallHit {
        inside: true,
        at: 0.0,
    };
    // The ray stands still.
    if a == 0.0 {
        return if c > 0.0 { None } else { Some(at_once) };
    }
    // It starts outside and goes away.
    if c > 0.0 && b > 0.0 {
        return None;
    }
    let delta = b * b - a * c;
    if delta < 0.0 {
        return None;
    }
    let root = scalar::sqrt(delta);
    let t = (-b - root) / a;
    let inside = t <= 0.0;
    if inside && solid {
        return Some(at_once);
    }
    let at = if inside { (-b + root) / a } else { t };
    Some(BallHit { inside, at })
}

// The same with the normal there, which is against the ray: into the ball where the ray starts inside.
#[tactic(auto, unfolding(crate::specs::Ball::ball_hit, crate::specs::Ball::ball_normal))]
pub fn ray_toi_and_normal_with_ball(
    center: Vector,
    radius: f32,
    ray: &Ray,
    solid: bool,
) -> Option<BallHit<RayIntersection>>
    ensures { result ≡ ball_hit center radius ray.now solid }
{
    let BallHit { inside, at: t } = ray_toi_with_ball(center, radius, ray, solid)?;
    let outward = ray.point_at(t).sub(center).normalize();
    let normal = if inside { outward.neg() } else { outward };
    Some(BallHit {
        inside,
        at: RayIntersection::new(t, normal, FeatureId::Face(0)),
    })
}

impl RayCast for Ball {
    ghost casts = { ball_cast };

    ghost timed = { ball_timed };

    ghost kept = { λ b r reach longer solid n. ball_kept b r reach longer solid };

    #[tactic(auto, unfolding(crate::specs::Ball::ball_cast))]
    fn cast_local_ray_and_get_normal(
        &self,
        ray: &Ray,
        max_time_of_impact: f32,
        solid: bool,
    ) -> Option<RayIntersection> {
        let hit = ray_toi_and_normal_with_ball(Vector::zero(), self.radius, ray, solid)?.at;
        // two comparisons: with `contains`, which is the same for floats, the proof was not found
        (hit.time_of_impact >= 0.0 && hit.time_of_impact <= max_time_of_impact).then_some(hit)
    }
}
