// The first hit among a list of things of one kind.
ghost use Rattle.std.specs.Prelude.{◌≡◌, length};
ghost use Rattle.scalar.specs.Single.{NotBelowZero};
ghost use Rattle.query.specs.FirstHit.{earlier, first_among, hits_of, Earliest};

use crate::ray::{Ray, RayCast, RayIntersection};

// The index of an element in the list, and its hit.
#[derive(Clone, Copy, PartialEq, Debug)]
pub struct FirstHit {
    pub index: usize,
    pub hit: RayIntersection,
}

// The best so far, or the element at `index` where it is hit earlier.
#[tactic(auto, unfolding(crate::specs::FirstHit::earlier))]
fn earlier(best: Option<FirstHit>, index: usize, found: Option<RayIntersection>) -> Option<FirstHit>
    ensures { result ≡ earlier best index found }
{
    let Some(hit) = found else {
        return best;
    };
    if best.is_none_or(|old| hit.time_of_impact < old.hit.time_of_impact) {
        Some(FirstHit { index, hit })
    } else {
        best
    }
}

// Asks every element in order, and keeps the earliest hit, the first on equal times.
pub fn first_hit<E: RayCast>(
    things: &[E],
    ray: &Ray,
    max_time_of_impact: f32,
    solid: bool,
) -> Option<FirstHit>
    ensures value { result ≡ first_among (hits_of (λ e. E.casts e ray.now max_time_of_impact solid) things.now) (length things.now) }
    ensures earliest { NotBelowZero max_time_of_impact → Earliest (hits_of (λ e. E.casts e ray.now max_time_of_impact solid) things.now) (length things.now) result }
{
    let mut best: Option<FirstHit> = None;
    for (i, thing) in things.iter().enumerate() {
        let found = thing.cast_local_ray_and_get_normal(ray, max_time_of_impact, solid);
        // an element that is not hit changes nothing, and is not to cost a copy of the best so far
        if found.is_some() {
            best = earlier(best, i, found);
        }
    }
    best
}
