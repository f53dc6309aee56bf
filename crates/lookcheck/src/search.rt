// What a line meets, cell by cell, in whole numbers: units of 1/128 of a cell's edge.
use grid::voxel_key::VoxelKey;
use math::IVector;

// A share of a line's way, as a fraction whose whole is above 0.
#[derive(Clone, Copy, Debug)]
pub(crate) struct Share {
    pub(crate) part: i32,
    pub(crate) whole: i32,
}

const BEGINNING: Share = Share { part: 0, whole: 1 };

const END: Share = Share { part: 1, whole: 1 };

impl Share {
    pub(crate) fn is_before(self, other: Share) -> bool {
        i64::from(self.part) * i64::from(other.whole)
            < i64::from(other.part) * i64::from(self.whole)
    }

    fn later(self, other: Share) -> Share {
        if self.is_before(other) { other } else { self }
    }

    fn earlier(self, other: Share) -> Share {
        if self.is_before(other) { self } else { other }
    }
}

// The shares from which and until which a line is within bounds. `strictly` is whether it is strictly within them in between.
#[derive(Clone, Copy)]
struct Within {
    from: Share,
    until: Share,
    strictly: bool,
}

// How a line meets a cell that it touches: when it enters it, and whether it crosses its inside.
#[derive(Clone, Copy, Debug)]
pub(crate) struct Meeting {
    pub(crate) entry: Share,
    pub(crate) crossed: bool,
}

impl Within {
    // Wider than any line from share 0 to 1.
    fn all() -> Within {
        Within {
            from: Share { part: -1, whole: 1 },
            until: Share { part: 2, whole: 1 },
            strictly: true,
        }
    }

    // What a cell's bounds on an axis leave of it; none where the line keeps its coordinate outside them.
    // No difference of coordinates of the chunk is too large for an i32.
    fn cut(self, camera: i32, target: i32, place: u8) -> Option<Within> {
        let low = 128 * i32::from(place);
        let high = low + 128;
        let whole = target.checked_sub(camera)?;
        let to_low = low.checked_sub(camera)?;
        let to_high = high.checked_sub(camera)?;
        if whole == 0 {
            let strictly = self.strictly && to_low < 0 && to_high > 0;
            return (to_low <= 0 && to_high >= 0).then_some(Within { strictly, ..self });
        }
        let (first, last) = if whole > 0 {
            (to_low, to_high)
        } else {
            (to_high.checked_neg()?, to_low.checked_neg()?)
        };
        let whole = whole.checked_abs()?;
        Some(Within {
            from: self.from.later(Share { part: first, whole }),
            until: self.until.earlier(Share { part: last, whole }),
            ..self
        })
    }
}

// What a line meets of a corner's cells: whether it touches a filled one, how many it crosses,
// and the least share at which it enters a filled one that it crosses.
#[derive(Clone, Copy, Default)]
pub(crate) struct Met {
    pub(crate) touches_filled: bool,
    pub(crate) crossed: usize,
    pub(crate) first_crossed: Option<Share>,
}

impl Met {
    pub(crate) fn add(&mut self, meeting: Meeting, is_filled: bool) {
        self.touches_filled |= is_filled;
        if !meeting.crossed {
            return;
        }
        self.crossed = self.crossed.saturating_add(1);
        if is_filled {
            let entry = meeting.entry;
            let first = self
                .first_crossed
                .map_or(entry, |share| share.earlier(entry));
            self.first_crossed = Some(first);
        }
    }
}

// How the line from camera to target meets the cell, if it touches it.
pub(crate) fn met_by(camera: IVector, target: IVector, cell: VoxelKey) -> Option<Meeting> {
    let within = Within::all()
        .cut(camera.x, target.x, cell.x)?
        .cut(camera.y, target.y, cell.y)?
        .cut(camera.z, target.z, cell.z)?;
    let entry = within.from.later(BEGINNING);
    if within.until.earlier(END).is_before(entry) {
        return None;
    }
    let crossed = within.strictly
        && within.from.is_before(within.until)
        && within.from.is_before(END)
        && BEGINNING.is_before(within.until);
    Some(Meeting { entry, crossed })
}

// Whether a time differs from a share by at most 2^-22.
// The time is digits / 2^places, and its difference from part / whole is |digits * whole - part * 2^places| / (whole * 2^places).
pub(crate) fn is_near(time: f32, share: Share) -> bool {
    difference_small(time, share).unwrap_or(false)
}

// None for a time below 0, from 2 on, or that is no number.
fn difference_small(time: f32, share: Share) -> Option<bool> {
    // The sign bit of -0 is no exponent.
    let bits = std::num::f32_to_bits_with_nan(if time == 0.0 { 0.0 } else { time });
    let exponent = bits >> 23;
    if exponent > 127 {
        return None;
    }
    // A time below 2^-26 is near a share only where that is 0: the least other is 1/1023.
    if exponent < 101 {
        return Some(share.part == 0);
    }
    let places = 150 - exponent;
    let digits = i64::from(bits % 0x80_0000 + 0x80_0000);
    let scale = 2i64.checked_pow(places)?;
    let whole = i64::from(share.whole);
    let gap = digits
        .checked_mul(whole)?
        .checked_sub(i64::from(share.part).checked_mul(scale)?)?
        .checked_abs()?;
    Some(gap <= whole.checked_mul(2i64.checked_pow(places - 22)?)?)
}
