// The cast of a chunk: a walk from cell to cell along the ray.
ghost use Rattle.std.specs.Prelude.{◌≡◌, ◌≤◌, Some};
ghost use Rattle.voxels.specs.Chunk.{stops, cell_hit, turn_at, walk, chunk_cast, NamesCell, OnOtherCells};
ghost use Rattle.grid.specs.Frame.{cell_box};
ghost use Rattle.voxels.specs.Laws.{chunk_timed};
ghost use Rattle.voxels.specs.Keeping.{chunk_kept};

use crate::chunk::Chunk;
use crate::chunk_cast::{ChunkCast, Turn};
use crate::steps::step_from;
use boxes::aabb::Aabb;
use grid::voxel_key::VoxelKey;
use query::feature_id::FeatureId;
use query::ray::{Ray, RayCast, RayIntersection};
use stores::cell_store::CellStore;

// The cast of a ray that misses the chunk, or meets it past its reach.
const NOT_MET: ChunkCast = ChunkCast {
    hit: None,
    visited: 0,
};

// Whether a kind of cell, by its number as the stores have it, stops a line.
fn stops(kind: u8) -> bool
    ensures { result ≡ stops kind }
{
    kind == 1
}

// A walk along a ray through a chunk's cells, up to a limit.
#[derive_where(Clone, Copy)]
struct Walk<'a, S> {
    chunk: &'a Chunk<S>,
    ray: &'a Ray,
    limit: f32,
    solid: bool,
}

impl<'a, S: CellStore> Walk<'a, S> {
    // The hit of the cell at a key, if a cell is there, stops the line and is hit within the limit.
    #[tactic(auto, unfolding(crate::specs::Chunk::cell_hit))]
    fn cast_cell(&self, key: VoxelKey, aabb: &Aabb) -> Option<RayIntersection>
        requires { aabb.now ≡ cell_box self.now.chunk.now.frame key }
        ensures { result ≡ cell_hit self.now.chunk.now.frame (S.CellStore.kinds self.now.chunk.now.cells) self.now.ray.now self.now.limit self.now.solid key }
    {
        let kind = self.chunk.voxel_state(key)?;
        if !stops(kind) {
            return None;
        }
        let hit = aabb.cast_local_ray_and_get_normal(self.ray, self.limit, self.solid)?;
        let Some(id) = self.chunk.frame.flat_id(key) else {
            // a key with a kind is in the chunk, so it has an id
            unreachable!()
        };
        Some(RayIntersection {
            feature: FeatureId::Face(id),
            ..hit
        })
    }

    // One turn of the walk.
    #[tactic(auto, unfolding(crate::specs::Chunk::turn_at))]
    fn turn_at(&self, key: VoxelKey) -> Turn
        ensures { result ≡ turn_at self.now.chunk.now.frame (S.CellStore.kinds self.now.chunk.now.cells) self.now.ray.now self.now.limit self.now.solid key }
    {
        let aabb = self.chunk.frame.voxel_aabb(key);
        if let Some(hit) = self.cast_cell(key, &aabb) {
            return Turn::Hit(hit);
        }
        match step_from(key, &aabb, self.ray, self.limit) {
            Some(next) => Turn::Step(next),
            None => Turn::Stop,
        }
    }

    // The walk from a key on.
    fn walk_from(&self, first: VoxelKey) -> ChunkCast
        requires { (first.x ≤ 8) × ((first.y ≤ 8) × (first.z ≤ 8)) }
        ensures { result ≡ walk (turn_at self.now.chunk.now.frame (S.CellStore.kinds self.now.chunk.now.cells) self.now.ray.now self.now.limit self.now.solid) 25 first }
    {
        let mut key = first;
        // counted by hand, as it is part of the answer; a `for` to 25 would have an end that is never reached
        let mut visited = 0;
        loop {
            visited += 1;
            match self.turn_at(key) {
                Turn::Hit(hit) => return ChunkCast {
                    hit: Some(hit),
                    visited,
                },
                Turn::Stop => return ChunkCast { hit: None, visited },
                Turn::Step(next) => key = next,
            }
        }
    }
}

impl<S: CellStore> Chunk<S> {
    // The first filled cell whose box the ray hits within the reach, and the number of keys that the walk stood on.
    // The hit's feature is the face id * 512 + cell number.
    // On other cells, all else the same: filling some loses no hit, and emptying some brings none.
    pub fn cast_ray(&self, ray: &Ray, max_time_of_impact: f32, solid: bool) -> ChunkCast
        ensures value { result ≡ chunk_cast self.now.frame (S.CellStore.kinds self.now.cells) ray.now max_time_of_impact solid }
        ensures few { result.visited ≤ 25 }
        ensures named { (h : RayIntersection) → result.hit ≡ Some h → NamesCell self.now.frame (S.CellStore.kinds self.now.cells) h }
        ensures others { OnOtherCells self.now.frame (S.CellStore.kinds self.now.cells) ray.now max_time_of_impact solid result }
    {
        let Some((start, end)) = self.frame.local_aabb().clip_ray_parameters(ray) else {
            return NOT_MET;
        };
        if start > max_time_of_impact {
            return NOT_MET;
        }
        let limit = scalar::min(end, max_time_of_impact);
        let first = self.frame.voxel_at_point(ray.point_at(start));
        let walk = Walk {
            chunk: self,
            ray,
            limit,
            solid,
        };
        walk.walk_from(first)
    }
}

impl<S: CellStore> RayCast for Chunk<S> {
    ghost casts = { λ c r reach solid. (chunk_cast c.frame (S.CellStore.kinds c.cells) r reach solid).hit };

    ghost timed = { λ c. chunk_timed c.frame (S.CellStore.kinds c.cells) };

    ghost kept = { λ c r reach longer solid n. chunk_kept c.frame (S.CellStore.kinds c.cells) r reach longer solid };

    fn cast_local_ray_and_get_normal(
        &self,
        ray: &Ray,
        max_time_of_impact: f32,
        solid: bool,
    ) -> Option<RayIntersection> {
        self.cast_ray(ray, max_time_of_impact, solid).hit
    }
}
