// The worked rays through the code, and what a scanned corner does in everyday use.
use boxes::aabb::Aabb;
use grid::frame::ChunkFrame;
use math::{IVector, Vector};
use query::feature_id::FeatureId;
use query::ray::{Ray, RayCast, RayIntersection};
use refusals::Refusal;
use sight::grid_point::GridPoint;
use sight::scan::Scan;
use std::test::Fail;
use stores::cell_store::{CellStore, StoreRefusal};
use stores::few_store::FewStore;
use stores::table_store::TableStore;
use voxels::chunk::Chunk;
use voxels::chunk_cast::ChunkCast;

// A hit on a face whose normal is against x.
fn left_face(time: f32, face: u32) -> Option<RayIntersection> {
    Some(RayIntersection::new(time, Vector::new(-1.0, 0.0, 0.0), FeatureId::Face(face)))
}

// The box from (-1, -1, -1) to (1, 1, 1).
fn cube_at_origin() -> Aabb {
    Aabb::new(Vector::new(-1.0, -1.0, -1.0), Vector::new(1.0, 1.0, 1.0))
}

fn along_x(x: f32) -> Ray {
    Ray::new(Vector::new(x, 0.0, 0.0), Vector::new(1.0, 0.0, 0.0))
}

#[test]
fn box_from_outside(rt: HostRuntime) -> Result<(), Fail> {
    let ray = along_x(-3.0);
    let hit = cube_at_origin().cast_local_ray_and_get_normal(&ray, 2.0, true);
    assert_eq!(rt; hit, left_face(2.0, 0));
    assert_eq!(rt;
        cube_at_origin().cast_local_ray_and_get_normal(&ray, 1.5, true),
        None
    );
    Ok(())
}

#[test]
fn box_from_inside(rt: HostRuntime) -> Result<(), Fail> {
    let ray = along_x(0.0);
    let hit = cube_at_origin().cast_local_ray_and_get_normal(&ray, 10.0, true);
    assert_eq!(rt;
        hit,
        Some(RayIntersection::new(0.0, Vector::zero(), FeatureId::Face(3)))
    );
    let hit = cube_at_origin().cast_local_ray_and_get_normal(&ray, 10.0, false);
    assert_eq!(rt; hit, left_face(1.0, 3));
    assert_eq!(rt;
        cube_at_origin().cast_local_ray_and_get_normal(&ray, 0.5, false),
        None
    );
    let still = Ray::new(Vector::zero(), Vector::zero());
    let hit = cube_at_origin().cast_local_ray_and_get_normal(&still, 10.0, true);
    assert_eq!(rt;
        hit,
        Some(RayIntersection::new(0.0, Vector::zero(), FeatureId::Unknown))
    );
    Ok(())
}

fn grid_point(x: i32, y: i32, z: i32) -> Result<GridPoint, Refusal> {
    GridPoint::new(IVector { x, y, z })
}

fn empty_corner() -> Result<Scan<TableStore>, Refusal> {
    Scan::new(0, IVector { x: 0, y: 0, z: 0 }, 0)
}

// A look from (64, 64, 64) with one cell filled.
fn look_past(cell: IVector, target: &GridPoint) -> Result<ChunkCast, Refusal> {
    let mut corner = empty_corner()?;
    corner.mark(cell)?;
    Ok(corner.look(&grid_point(64, 64, 64)?, target))
}

#[test]
fn looks(rt: HostRuntime) -> Result<(), Fail> {
    let cast = look_past(IVector { x: 3, y: 0, z: 0 }, &grid_point(576, 64, 64)?)?;
    assert_eq!(rt; cast.hit, left_face(0.625, 3));
    assert_eq!(rt; cast.visited, 4);
    let across = grid_point(192, 192, 64)?;
    let cast = look_past(IVector { x: 1, y: 0, z: 0 }, &across)?;
    assert_eq!(rt; cast.hit, left_face(0.5, 1));
    assert_eq!(rt; cast.visited, 2);
    let cast = look_past(IVector { x: 0, y: 1, z: 0 }, &across)?;
    assert!(rt; cast.hit.is_none());
    assert_eq!(rt; cast.visited, 3);
    Ok(())
}

// 2^-21
const FINE: f32 = 1.0 / 2097152.0;

fn chunk_of(size: f32) -> Result<Chunk<TableStore>, Refusal> {
    let frame = ChunkFrame::new(
        IVector { x: 0, y: 0, z: 0 },
        Vector::new(size, size, size),
        0,
    )?;
    Ok(Chunk::new(frame))
}

// Rounding puts the face ahead behind the origin: its step time is below zero, and the cells ahead are still seen.
#[test]
fn face_behind_the_origin(rt: HostRuntime) -> Result<(), Fail> {
    let mut chunk = chunk_of(1.5 + FINE)?;
    chunk.cells.set(2, 1)?;
    let ray = Ray::new(
        Vector::new(7.5 + 5.0 * FINE, 1.0, 1.0),
        Vector::new(-1.0, 0.0, 0.0),
    );
    for solid in [true, false] {
        let cast = chunk.cast_ray(&ray, 10.0, solid);
        let normal = Vector::new(1.0, 0.0, 0.0);
        let hit = RayIntersection::new(3.0 + 2.0 * FINE, normal, FeatureId::Face(2));
        assert_eq!(rt; cast.hit, Some(hit));
        assert_eq!(rt; cast.visited, 4);
    }
    Ok(())
}

// Three metres before the cell on each side; on the high sides the walk begins one past the chunk.
#[test]
fn full_corner_from_six_sides(rt: HostRuntime) -> Result<(), Fail> {
    let mut chunk = chunk_of(1.0)?;
    for n in 0..512u16 {
        chunk.cells.set(n, 1)?;
    }
    let sides = [
        (
            Vector::new(-3.0, 2.5, 4.5),
            Vector::new(-1.0, 0.0, 0.0),
            272,
            1,
        ),
        (
            Vector::new(11.0, 2.5, 4.5),
            Vector::new(1.0, 0.0, 0.0),
            279,
            2,
        ),
        (
            Vector::new(2.5, -3.0, 4.5),
            Vector::new(0.0, -1.0, 0.0),
            258,
            1,
        ),
        (
            Vector::new(2.5, 11.0, 4.5),
            Vector::new(0.0, 1.0, 0.0),
            314,
            2,
        ),
        (
            Vector::new(2.5, 4.5, -3.0),
            Vector::new(0.0, 0.0, -1.0),
            34,
            1,
        ),
        (
            Vector::new(2.5, 4.5, 11.0),
            Vector::new(0.0, 0.0, 1.0),
            482,
            2,
        ),
    ];
    for (origin, normal, cell, visited) in sides {
        let cast = chunk.cast_ray(&Ray::new(origin, normal.neg()), 10.0, true);
        let hit = RayIntersection::new(3.0, normal, FeatureId::Face(cell));
        assert_eq!(rt; cast.hit, Some(hit));
        assert_eq!(rt; cast.visited, visited);
    }
    Ok(())
}

#[test]
fn marked_seen_wiped_clear(rt: HostRuntime) -> Result<(), Fail> {
    let mut corner = empty_corner()?;
    let camera = grid_point(64, 64, 64)?;
    let cot = grid_point(960, 960, 64)?;
    let cell = IVector { x: 4, y: 4, z: 0 };
    assert!(rt; corner.look(&camera, &cot).hit.is_none());
    corner.mark(cell)?;
    let seen = corner.look(&camera, &cot).hit.ok_or("not seen")?;
    assert_eq!(rt; seen.feature, FeatureId::Face(36));
    assert_eq!(rt;
        corner.mark(IVector { x: 4, y: 8, z: 0 }),
        Err(Refusal::CellOutside)
    );
    assert!(rt; corner.look(&camera, &cot).hit.is_some());
    corner.wipe(cell)?;
    assert!(rt; corner.look(&camera, &cot).hit.is_none());
    Ok(())
}

// A few store with the cells 0, 8, 16 and so on to 504.
fn full_few_store() -> Result<FewStore, StoreRefusal> {
    let mut store = <FewStore as CellStore>::new();
    for i in 0..64u16 {
        store.set(8 * i, 1)?;
    }
    Ok(store)
}

#[test]
fn wiped_place_used_again(rt: HostRuntime) -> Result<(), Fail> {
    let mut store = full_few_store()?;
    assert_eq!(rt; store.set(5, 1), Err(StoreRefusal::Full));
    assert_eq!(rt; store.read(5), 0);
    store.set(128, 0)?;
    store.set(5, 1)?;
    assert_eq!(rt; store.read(5), 1);
    assert_eq!(rt; store.read(128), 0);
    assert_eq!(rt; store.set(128, 1), Err(StoreRefusal::Full));
    Ok(())
}

#[test]
fn filled_again_at_full(rt: HostRuntime) -> Result<(), Fail> {
    let mut store = full_few_store()?;
    store.set(504, 1)?;
    for n in 0..513u16 {
        let filled = n < 512 && n % 8 == 0;
        assert_eq!(rt; store.read(n), if filled { 1 } else { 0 });
    }
    Ok(())
}

// A corner with a slanted row of cells and a straight one.
fn corner_with_rows<S: CellStore + Drop>() -> Result<Scan<S>, Refusal> {
    let mut corner = Scan::new(0, IVector { x: 0, y: 0, z: 0 }, 0)?;
    for i in 0..8i32 {
        corner.mark(IVector { x: i, y: 3, z: i })?;
        corner.mark(IVector { x: 5, y: i, z: 2 })?;
    }
    Ok(corner)
}

#[test]
fn same_looks_over_both_stores(rt: HostRuntime) -> Result<(), Fail> {
    let few: Scan<FewStore> = corner_with_rows()?;
    let table: Scan<TableStore> = corner_with_rows()?;
    let camera = grid_point(64, 64, 64)?;
    let (mut blocked, mut clear) = (false, false);
    let across = [64, 192, 320, 448, 576, 704, 832, 960];
    for x in across {
        for z in across {
            let target = grid_point(x, 960, z)?;
            let seen = few.look(&camera, &target);
            let known = table.look(&camera, &target);
            assert_eq!(rt; seen, known);
            match known.hit {
                Some(_) => blocked = true,
                None => clear = true,
            }
        }
    }
    assert!(rt; blocked && clear);
    Ok(())
}
