// A scanned corner, whose looks are held against the search.
use crate::generator::Generator;
use crate::search::{Met, Share, is_near, met_by};
use crate::verdict::Verdict;
use grid::voxel_key::VoxelKey;
use looks::look;
use math::IVector;
use query::feature_id::FeatureId;
use query::ray::RayIntersection;
use refusals::Refusal;
use sight::grid_point::GridPoint;
use sight::scan::Scan;
use stores::cell_store::CellStore;
use stores::table_store::TableStore;
use voxels::chunk_cast::ChunkCast;

#[derive(Drop)]
pub(crate) struct Corner {
    scan: Scan<TableStore>,
    id: u32,
    filled: [bool; 512],
}

// The key of the cell with that number.
fn cell_at(number: usize) -> VoxelKey {
    VoxelKey {
        x: (number % 8) as u8,
        y: (number / 8 % 8) as u8,
        z: (number / 64 % 8) as u8,
    }
}

impl Corner {
    // A corner with some of its cells filled, many or few.
    pub(crate) fn filled_by(generator: &mut Generator) -> Result<Corner, Refusal> {
        let exponent = i32::from(generator.below(21)) - 10;
        let key = IVector {
            x: i32::from(generator.below(8193)) - 4096,
            y: i32::from(generator.below(8193)) - 4096,
            z: i32::from(generator.below(8193)) - 4096,
        };
        let id = 128 * u32::from(generator.below(u16::MAX));
        let one_in = generator.below(60);
        let mut scan = Scan::new(exponent, key, id)?;
        let mut filled = [false; 512];
        for (number, is_filled) in filled.iter_mut().enumerate() {
            if generator.below(one_in) == 0 {
                let VoxelKey { x, y, z } = cell_at(number);
                scan.mark(IVector {
                    x: i32::from(x),
                    y: i32::from(y),
                    z: i32::from(z),
                })?;
                *is_filled = true;
            }
        }
        Ok(Corner { scan, id, filled })
    }

    // The number of the cell that a hit names among all of this id; none where it names no cell from this id on.
    fn named(&self, hit: RayIntersection) -> Option<usize> {
        let FeatureId::Face(face) = hit.feature else {
            return None;
        };
        Some(face.checked_sub(self.id.checked_mul(512)?)? as usize)
    }

    // What the line meets of the corner's cells.
    fn met(&self, camera: IVector, target: IVector) -> Met {
        let mut met = Met::default();
        for (number, is_filled) in self.filled.iter().enumerate() {
            if let Some(meeting) = met_by(camera, target, cell_at(number)) {
                met.add(meeting, *is_filled);
            }
        }
        met
    }

    // How many of the corner's cells the line crosses, of those that it enters before a share.
    fn crossed_before(&self, camera: IVector, target: IVector, share: Share) -> usize {
        (0..512usize)
            .filter(|number| {
                met_by(camera, target, cell_at(*number)).is_some_and(|meeting| meeting.crossed
                    && meeting.entry.is_before(share))
            })
            .count()
    }

    fn judged(&self, camera: IVector, target: IVector, cast: ChunkCast) -> Verdict {
        let met = self.met(camera, target);
        if cast.visited > 22 {
            return Verdict::Wrong("more than 22 keys were visited");
        }
        let Some(hit) = cast.hit else {
            if met.first_crossed.is_some() {
                return Verdict::Wrong("clear, and crosses the inside of a filled cell");
            }
            if (cast.visited as usize) < met.crossed {
                return Verdict::Wrong("fewer keys were visited than it crosses cells");
            }
            return if met.touches_filled {
                Verdict::Open
            } else {
                Verdict::Clear
            };
        };
        let Some(number) = self.named(hit) else {
            return Verdict::Wrong("names no cell of the corner");
        };
        if self.filled.get(number) != Some(&true) {
            return Verdict::Wrong("names no filled cell of the corner");
        }
        let Some(named) = met_by(camera, target, cell_at(number)) else {
            return Verdict::Wrong("names a cell that it does not touch");
        };
        if met
            .first_crossed
            .is_some_and(|share| share.is_before(named.entry))
        {
            return Verdict::Wrong("names a cell that it enters later than one that it crosses");
        }
        if !is_near(hit.time_of_impact, named.entry) {
            return Verdict::Wrong("has a time that is not near its entry");
        }
        if cast.visited as usize <= self.crossed_before(camera, target, named.entry) {
            return Verdict::Wrong("fewer keys were visited than it crosses cells before the hit");
        }
        if met.first_crossed.is_some() {
            Verdict::Blocked
        } else {
            Verdict::Open
        }
    }

    // The look from camera to target, held against the search.
    pub(crate) fn look(&self, camera: IVector, target: IVector) -> Verdict {
        match (GridPoint::new(camera), GridPoint::new(target)) {
            (Ok(from), Ok(to)) => self.judged(camera, target, look(&self.scan, &from, &to)),
            _ => Verdict::Wrong("has an end that is no grid point"),
        }
    }
}
