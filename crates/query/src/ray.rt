// Rays, what they hit, and the interface of everything that can be hit.
ghost use Rattle.std.specs.Prelude.{◌≡◌, Bool, true, T, is_some, Some, Option, Float};
ghost use Rattle.std.specs.Float.Ieee.{le};
ghost use Rattle.scalar.specs.Single.{NotBelowZero};
ghost use Rattle.query.specs.declared.ray.Ray.{Ray};
ghost use Rattle.query.specs.declared.ray.RayIntersection.{RayIntersection};
ghost use Rattle.query.specs.Cast.{Within, point_at, translated, hit, world_ray, local_ray, world_hit};

use crate::feature_id::FeatureId;
use math::Vector;
use math::pose::Pose;

// The points origin + time * dir, for times not below zero. `dir` has any length.
#[derive(Clone, Copy, PartialEq, Debug)]
pub struct Ray {
    pub origin: Vector,
    pub dir: Vector,
}

// Where a ray hits: the time along the ray, the normal there and the part of the shape.
#[derive(Clone, Copy, PartialEq, Debug)]
pub struct RayIntersection {
    pub time_of_impact: f32,
    pub normal: Vector,
    pub feature: FeatureId,
}

impl Ray {
    pub fn new(origin: Vector, dir: Vector) -> Ray
        ensures { result ≡ record { origin = origin; dir = dir } }
    {
        Ray { origin, dir }
    }

    // The ray of a shape's own frame, in the world.
    pub fn transform_by(&self, m: &Pose) -> Ray
        ensures { result ≡ world_ray m.now self.now }
    {
        Ray {
            origin: m.transform_point(self.origin),
            dir: m.rotation.rotate(self.dir),
        }
    }

    // The ray of the world, in a shape's own frame.
    pub fn inverse_transform_by(&self, m: &Pose) -> Ray
        ensures { result ≡ local_ray m.now self.now }
    {
        Ray {
            origin: m.inverse_transform_point(self.origin),
            dir: m.rotation.inverse().rotate(self.dir),
        }
    }

    // The ray moved by a vector.
    pub fn translate_by(&self, v: Vector) -> Ray
        ensures { result ≡ translated self.now v }
    {
        Ray {
            origin: self.origin.add(v),
            ..*self
        }
    }

    // The point at a time.
    pub fn point_at(&self, t: f32) -> Vector
        ensures { result ≡ point_at self.now t }
    {
        self.origin.add(self.dir.scale(t))
    }
}

impl RayIntersection {
    pub fn new(time_of_impact: f32, normal: Vector, feature: FeatureId) -> RayIntersection
        ensures { result ≡ hit time_of_impact normal feature }
    {
        RayIntersection {
            time_of_impact,
            normal,
            feature,
        }
    }

    // The hit of a shape's own frame, in the world: the normal turns, time and feature stay.
    pub fn transform_by(&self, m: &Pose) -> RayIntersection
        ensures { result ≡ world_hit m.now self.now }
    {
        RayIntersection {
            normal: m.rotation.rotate(self.normal),
            ..*self
        }
    }
}

// A thing that a ray can hit, by the three parameters of parry's casts. Its meaning is a function from a ray, a reach and the solid flag to a hit or none;
// under `solid` a ray that starts inside hits at once.
// For every reach that is a number not below zero:
// - time law: a hit's time is a number from 0 to the reach;
// - keeping law: where there is a hit within a reach, there is one within every longer reach.
pub trait RayCast {
    ghost casts: { Self → Ray → Float → Bool → Option RayIntersection };

    fn cast_local_ray_and_get_normal(
        &self,
        ray: &Ray,
        max_time_of_impact: f32,
        solid: bool,
    ) -> Option<RayIntersection>
        ensures { result ≡ casts self.now ray.now max_time_of_impact solid };

    ghost timed: { (x : Self) (r : Ray) (reach : Float) (solid : Bool) (h : RayIntersection) → NotBelowZero reach → casts x r reach solid ≡ Some h → Within h.time_of_impact reach };

    ghost kept: { (x : Self) (r : Ray) (reach longer : Float) (solid : Bool) → NotBelowZero reach → T (le reach longer) → is_some (casts x r reach solid) ≡ true → is_some (casts x r longer solid) ≡ true };
}
