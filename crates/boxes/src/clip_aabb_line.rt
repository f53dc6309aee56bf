// The part of a line that lies within a box.
ghost use Rattle.std.specs.Prelude.{◌≡◌};
ghost use Rattle.boxes.specs.Clip.{side_number, at_face, cut_end, unless_empty, cut_by_slab, clip_along, clip_slabs, end_point, inside_only, clip_line};

use crate::aabb::Aabb;
use math::{Axis, Vector};

// A side of a box: the face at the minimum or at the maximum of an axis.
#[derive(Clone, Copy, PartialEq, Eq, Debug)]
pub enum Side {
    Low(Axis),
    High(Axis),
}

// 0 where no face was passed, 1 to 3 for the low faces of x, y and z, -1 to -3 for the high ones.
// A number, as the rules have sides in comparison vectors.
pub fn side_number(side: Option<Side>) -> i32
    ensures { result ≡ side_number side }
{
    match side {
        None => 0,
        Some(Side::Low(Axis::X)) => 1,
        Some(Side::Low(Axis::Y)) => 2,
        Some(Side::Low(Axis::Z)) => 3,
        Some(Side::High(Axis::X)) => -1,
        Some(Side::High(Axis::Y)) => -2,
        Some(Side::High(Axis::Z)) => -3,
    }
}

// The two ends of a part of a line.
#[derive(Clone, Copy, PartialEq, Debug)]
pub struct Ends<T> {
    pub near: T,
    pub far: T,
}

// An end of the line so far: its side is none where no face was passed yet.
// Where `edge` is set, two slabs have it at the same time.
#[derive(Clone, Copy, PartialEq, Debug)]
pub struct Bound {
    pub time: f32,
    pub side: Option<Side>,
    pub edge: bool,
}

// What the slabs so far leave of the line.
pub type Interval = Ends<Bound>;

// An end of the clipped line: `origin + dir * time`, the normal of the face there, and which face it is:
// none where no face was passed, as where the direction is zero or no number and the origin is in the box.
#[derive(Clone, Copy, PartialEq, Debug)]
pub struct LinePoint {
    pub time: f32,
    pub normal: Vector,
    pub side: Option<Side>,
}

pub type LineClip = Ends<LinePoint>;

fn at_face(time: f32, side: Side) -> Bound
    ensures { result ≡ at_face time side }
{
    Bound {
        time,
        side: Some(side),
        edge: false,
    }
}

// The end so far, or the face in its place where that cuts off more. It is on an edge where both have the same time.
#[tactic(auto, unfolding(crate::specs::Clip::or_edge))]
fn cut_end(end: Bound, face: Bound, cuts_more: bool) -> Bound
    ensures { result ≡ cut_end end face cuts_more }
{
    if cuts_more {
        face
    } else if face.time == end.time {
        Bound { edge: true, ..end }
    } else {
        end
    }
}

#[tactic(auto, unfolding(crate::specs::Clip::unless_empty))]
fn unless_empty(interval: Interval) -> Option<Interval>
    ensures { result ≡ unless_empty interval }
{
    let empty = interval.far.time < 0.0 || interval.near.time > interval.far.time;
    (!empty).then_some(interval)
}

// The line is at the low face at `low`, and at the high one at `high`.
#[tactic(auto, unfolding(crate::specs::Clip::cut_by_slab, crate::specs::Clip::later_entry, crate::specs::Clip::earlier_exit))]
fn cut_by_slab(interval: Interval, axis: Axis, low: f32, high: f32) -> Option<Interval>
    ensures { result ≡ cut_by_slab interval axis low high }
{
    let low = at_face(low, Side::Low(axis));
    let high = at_face(high, Side::High(axis));
    let (first, last) = if low.time > high.time {
        (high, low)
    } else {
        (low, high)
    };
    unless_empty(Ends {
        near: cut_end(interval.near, first, first.time > interval.near.time),
        far: cut_end(interval.far, last, last.time < interval.far.time),
    })
}

// What the slab between the two faces of an axis leaves; a line along it is within it or not.
#[tactic(auto, unfolding(crate::specs::Clip::clip_axis))]
fn clip_along(
    aabb: &Aabb,
    origin: Vector,
    dir: Vector,
    axis: Axis,
    interval: Interval,
) -> Option<Interval>
    ensures { result ≡ clip_along aabb.now origin dir axis interval }
{
    let low = aabb.mins.vget(axis);
    let high = aabb.maxs.vget(axis);
    let origin = origin.vget(axis);
    let dir = dir.vget(axis);
    if dir == 0.0 {
        let outside = origin < low || origin > high;
        return (!outside).then_some(interval);
    }
    let denom = 1.0 / dir;
    cut_by_slab(
        interval,
        axis,
        (low - origin) * denom,
        (high - origin) * denom,
    )
}

fn clip_slabs(aabb: &Aabb, origin: Vector, dir: Vector) -> Option<Interval>
    ensures { result ≡ clip_slabs aabb.now origin dir }
{
    let far = Bound {
        time: f32::MAX,
        side: None,
        edge: false,
    };
    let near = Bound {
        time: -f32::MAX,
        ..far
    };
    let line = clip_along(aabb, origin, dir, Axis::X, Ends { near, far })?;
    let line = clip_along(aabb, origin, dir, Axis::Y, line)?;
    clip_along(aabb, origin, dir, Axis::Z, line)
}

// The end with its normal: of length `low` along the axis at a low face, and as much the other way at a high one.
// Over an edge the normal is against the direction. None where no face was passed.
#[tactic(auto, unfolding(crate::specs::Clip::end_point))]
fn end_point(end: Bound, dir: Vector, low: f32) -> Option<LinePoint>
    ensures { result ≡ end_point end dir low }
{
    let normal = if end.edge {
        dir.normalize().neg()
    } else {
        match end.side? {
            Side::Low(axis) => Vector::on_axis(axis, low),
            Side::High(axis) => Vector::on_axis(axis, -low),
        }
    };
    Some(LinePoint {
        time: end.time,
        normal,
        side: end.side,
    })
}

#[tactic(auto, unfolding(crate::specs::Clip::inside_only))]
fn inside_only(aabb: &Aabb, origin: Vector) -> Option<LineClip>
    ensures { result ≡ inside_only aabb.now origin }
{
    let at_origin = LinePoint {
        time: 0.0,
        normal: Vector::zero(),
        side: None,
    };
    let ends = Ends {
        near: at_origin,
        far: at_origin,
    };
    aabb.contains_local_point(origin).then_some(ends)
}

// The two ends of the line's part within the box, none where the line misses the box or lies wholly before its origin.
// Where the direction is zero or no number, both ends are the origin, if it is in the box.
// The line comes as two vectors, as in parry's function of this name; a `Ray` begins at its origin, and a line does not.
#[tactic(auto, using(crate::proofs::EndPoints::near_end, crate::proofs::EndPoints::far_end), unfolding(crate::specs::Clip::clip_line))]
pub fn clip_aabb_line(aabb: &Aabb, origin: Vector, dir: Vector) -> Option<LineClip>
    ensures { result ≡ clip_line aabb.now origin dir }
{
    let line = clip_slabs(aabb, origin, dir)?;
    // The normal is out of the box at the entry, and into it at the exit. That of the exit is made only where the entry has one.
    let Some(near) = end_point(line.near, dir, -1.0) else {
        return inside_only(aabb, origin);
    };
    let Some(far) = end_point(line.far, dir, 1.0) else {
        return inside_only(aabb, origin);
    };
    Some(Ends { near, far })
}
