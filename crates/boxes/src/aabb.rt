// A box along the axes.
ghost use Rattle.std.specs.Prelude.{◌≡◌};
ghost use Rattle.boxes.specs.Clip.{contains, clip_ray};
ghost use Rattle.boxes.specs.Box.{around_centre};

use crate::clip_aabb_line::clip_aabb_line;
use math::Vector;
use query::ray::Ray;

#[derive(Clone, Copy, PartialEq, Debug)]
pub struct Aabb {
    pub mins: Vector,
    pub maxs: Vector,
}

impl Aabb {
    pub fn new(mins: Vector, maxs: Vector) -> Aabb
        ensures { result ≡ record { mins = mins; maxs = maxs } }
    {
        Aabb { mins, maxs }
    }

    pub fn from_half_extents(center: Vector, half_extents: Vector) -> Aabb
        ensures { result ≡ around_centre center half_extents }
    {
        Aabb {
            mins: center.sub(half_extents),
            maxs: center.add(half_extents),
        }
    }

    // Whether the point lies within the box, faces included. A NaN is on no side of a face, so it passes.
    #[tactic(auto, unfolding(crate::specs::Clip::contains))]
    pub fn contains_local_point(&self, point: Vector) -> bool
        ensures { result ≡ contains self.now point }
    {
        !(point.x < self.mins.x
            || point.x > self.maxs.x
            || point.y < self.mins.y
            || point.y > self.maxs.y
            || point.z < self.mins.z
            || point.z > self.maxs.z)
    }

    // The times from which and until which a ray is within the box; none where it never is.
    #[tactic(auto, unfolding(crate::specs::Clip::clip_ray))]
    pub fn clip_ray_parameters(&self, ray: &Ray) -> Option<(f32, f32)>
        ensures { result ≡ clip_ray self.now ray.now }
    {
        let clip = clip_aabb_line(self, ray.origin, ray.dir)?;
        if clip.far.time < 0.0 {
            None
        } else {
            Some((scalar::max(clip.near.time, 0.0), clip.far.time))
        }
    }
}
