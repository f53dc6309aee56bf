// Where a chunk lies: its key, the size of its cells and its id.
ghost use Rattle.std.specs.Prelude.{◌≡◌, true, false, ◌&&◌, T, MatchResult};
ghost use Rattle.refusals.specs.declared.Refusal.TheVariants.{BadMaking};
ghost use Rattle.grid.specs.Lawful.{exponent_fits, size_fits, sizes_fit, chunk_fits, making_answer};

use math::{IVector, Vector};
use refusals::Refusal;

// The chunk's lowest cell key is 8 times its key. The id tells its cells from those of other chunks.
#[derive(Clone, Copy)]
pub struct ChunkFrame {
    pub key: IVector,
    pub voxel_size: Vector,
    pub id: u32,
    ghost ok: { T (chunk_fits key voxel_size id) },
}

fn size_fits(size: f32) -> bool
    ensures { result ≡ size_fits size }
{
    size > 0.0 && size <= f32::MAX
}

fn sizes_fit(size: Vector) -> bool
    ensures { result ≡ sizes_fit size }
{
    size_fits(size.x) && size_fits(size.y) && size_fits(size.z)
}

fn exponent_fits(exponent: Option<i32>) -> bool
    ensures { result ≡ exponent_fits exponent }
{
    exponent.is_none_or(|e| (-10..=10).contains(&e))
}

fn chunk_fits(key: IVector, voxel_size: Vector, id: u32) -> bool
    ensures { result ≡ chunk_fits key voxel_size id }
{
    key.all_between::<-4096, 4096>() && id <= 8_388_607 && sizes_fit(voxel_size)
}

// The test before a making: the size exponent, where there is one, the chunk key, the cell size and the id,
// one by one, as they are no frame before it.
pub fn check_making(
    exponent: Option<i32>,
    key: IVector,
    voxel_size: Vector,
    id: u32,
) -> Result<(), Refusal>
    ensures { result ≡ making_answer (exponent_fits exponent && chunk_fits key voxel_size id) }
{
    if exponent_fits(exponent) && chunk_fits(key, voxel_size, id) {
        Ok(())
    } else {
        Err(Refusal::BadMaking)
    }
}

impl ChunkFrame {
    pub fn new(key: IVector, voxel_size: Vector, id: u32) -> Result<ChunkFrame, Refusal>
        ensures { MatchResult result (λ f. (chunk_fits key voxel_size id ≡ true) × ((f.key ≡ key) × ((f.voxel_size ≡ voxel_size) × (f.id ≡ id)))) (λ e. (chunk_fits key voxel_size id ≡ false) × (e ≡ BadMaking)) }
    {
        check_making(None, key, voxel_size, id)?;
        Ok(ChunkFrame {
            key,
            voxel_size,
            id,
        })
    }
}
