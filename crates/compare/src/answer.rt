// The answer to what a vector line asks.
use crate::case::{Asked, Case, FilledChunk, Look};
use boxes::clip_aabb_line::{LineClip, LinePoint, clip_aabb_line, side_number};
use grid::frame::ChunkFrame;
use math::{IVector, Vector};
use query::feature_id::FeatureId;
use query::ray::{RayCast, RayIntersection};
use query::ray_cast::cast_ray_and_get_normal;
use refusals::Refusal;
use sight::grid_point::GridPoint;
use sight::scan::Scan;
use std::fmt;
use stores::cell_store::CellStore;
use stores::table_store::TableStore;
use voxels::chunk::Chunk;
use voxels::chunk_cast::ChunkCast;

// A number by its bits, for comparing as numbers: both zeros are one, and so are all NaNs.
#[derive(Clone, Copy)]
struct NumberText(f32);

impl fmt::Display for NumberText {
    fn fmt<W: fmt::Write>(&self, f: &mut fmt::Formatter<W>) -> fmt::Result {
        let x = self.0;
        let bits = if x.is_nan() {
            0x7fc0_0000
        } else if x == 0.0 {
            0
        } else {
            std::num::f32_to_bits_with_nan(x)
        };
        write!(f, "{bits:08x}")
    }
}

#[derive(Clone, Copy)]
struct VectorText(Vector);

impl fmt::Display for VectorText {
    fn fmt<W: fmt::Write>(&self, f: &mut fmt::Formatter<W>) -> fmt::Result {
        let x = NumberText(self.0.x);
        let y = NumberText(self.0.y);
        let z = NumberText(self.0.z);
        write!(f, "{x} {y} {z}")
    }
}

#[derive(Clone, Copy)]
struct HitText(Option<RayIntersection>);

impl fmt::Display for HitText {
    fn fmt<W: fmt::Write>(&self, f: &mut fmt::Formatter<W>) -> fmt::Result {
        let Some(hit) = self.0 else {
            return write!(f, "none");
        };
        let time = NumberText(hit.time_of_impact);
        let normal = VectorText(hit.normal);
        write!(f, "hit {time} {normal} ")?;
        match hit.feature {
            FeatureId::Face(face) => write!(f, "{face}"),
            FeatureId::Unknown => write!(f, "u"),
            // no cast names one of these
            FeatureId::Vertex(_) | FeatureId::Edge(_) => write!(f, "?"),
        }
    }
}

#[derive(Clone, Copy)]
struct EndText(LinePoint);

impl fmt::Display for EndText {
    fn fmt<W: fmt::Write>(&self, f: &mut fmt::Formatter<W>) -> fmt::Result {
        let time = NumberText(self.0.time);
        let normal = VectorText(self.0.normal);
        let side = side_number(self.0.side);
        write!(f, "{time} {normal} {side}")
    }
}

// The answer to a case. It is written in the words of a vector line.
#[derive(Clone, Copy)]
pub(crate) enum Answer {
    Hit(Option<RayIntersection>),
    LineClip(Option<LineClip>),
    RayClip(Option<(f32, f32)>),
    ChunkCast(Result<ChunkCast, Refusal>),
}

impl fmt::Display for Answer {
    fn fmt<W: fmt::Write>(&self, f: &mut fmt::Formatter<W>) -> fmt::Result {
        match self {
            Answer::Hit(hit) => {
                let hit = HitText(*hit);
                write!(f, "{hit}")
            }
            Answer::LineClip(None) | Answer::RayClip(None) => write!(f, "none"),
            Answer::LineClip(Some(clip)) => {
                let near = EndText(clip.near);
                let far = EndText(clip.far);
                write!(f, "{near} {far}")
            }
            Answer::RayClip(Some((start, end))) => {
                let start = NumberText(*start);
                let end = NumberText(*end);
                write!(f, "{start} {end}")
            }
            Answer::ChunkCast(Ok(cast)) => {
                let hit = HitText(cast.hit);
                let visited = cast.visited;
                write!(f, "{hit} {visited}")
            }
            Answer::ChunkCast(Err(refusal)) => {
                let number = refusal.number();
                write!(f, "refused {number}")
            }
        }
    }
}

fn cast_in_chunk(filled: &FilledChunk, asked: &Asked) -> Result<ChunkCast, Refusal> {
    let id = u32::try_from(filled.id).map_err(|_| Refusal::BadMaking)?;
    let frame = ChunkFrame::new(filled.key, filled.size, id)?;
    let mut chunk: Chunk<TableStore> = Chunk::new(frame);
    for (n, kind) in filled.kinds.iter().enumerate() {
        // never refused: a kind is 0 or 1 here, a number is below 512, and a table is never full
        let _ = chunk.cells.set(n as u16, *kind);
    }
    Ok(chunk.cast_ray(&asked.ray, asked.reach, asked.solid))
}

fn look(asked: &Look) -> Result<ChunkCast, Refusal> {
    let from = GridPoint::new(asked.camera)?;
    let to = GridPoint::new(asked.target)?;
    let mut scan: Scan<TableStore> = Scan::new(asked.exponent, asked.key, 0)?;
    for (n, kind) in asked.kinds.iter().enumerate() {
        if *kind == 1 {
            let x = (n % 8) as i32;
            let y = (n / 8 % 8) as i32;
            let z = (n / 64) as i32;
            scan.mark(IVector { x, y, z })?;
        }
    }
    Ok(scan.look(&from, &to))
}

impl Answer {
    pub(crate) fn new(case: &Case) -> Answer {
        match case {
            Case::Cast { shape, asked } => {
                Answer::Hit(shape.cast_local_ray_and_get_normal(
                    &asked.ray,
                    asked.reach,
                    asked.solid,
                ))
            }
            Case::Posed { shape, pose, asked } => {
                Answer::Hit(cast_ray_and_get_normal(
                    shape,
                    pose,
                    &asked.ray,
                    asked.reach,
                    asked.solid,
                ))
            }
            Case::LineClip { aabb, ray } => Answer::LineClip(clip_aabb_line(
                aabb, ray.origin, ray.dir,
            )),
            Case::RayClip { aabb, ray } => Answer::RayClip(aabb.clip_ray_parameters(ray)),
            Case::InChunk { filled, asked } => Answer::ChunkCast(cast_in_chunk(filled, asked)),
            Case::Look(asked) => Answer::ChunkCast(look(asked)),
        }
    }
}
