// A scanned corner: a chunk whose cells are cubes of 2^e metres.
ghost use Rattle.std.specs.Prelude.{◌≡◌, ℕ, true, false, ◌&&◌, T, pos, negsuc, ◌≤ℤ◌, Some, MatchResult};
ghost use Rattle.refusals.specs.declared.Refusal.TheVariants.{BadMaking};
ghost use Rattle.grid.specs.Lawful.{exponent_fits, chunk_fits};
ghost use Rattle.sight.specs.Power.{power_of_two, cube};

use grid::frame::ChunkFrame;
use math::{IVector, Vector};
use refusals::Refusal;
use stores::cell_store::CellStore;
use voxels::chunk::Chunk;

#[derive(Drop)]
pub struct Scan<S> {
    pub(crate) exponent: i32,
    pub(crate) chunk: Chunk<S>,
    ghost range: { T (exponent_fits (Some exponent)) },
    ghost cubes: { ∥ chunk.frame.voxel_size ≡ cube exponent ∥₁ },
}

// 2^e, by its bits.
pub(crate) fn power_of_two(e: i32) -> f32
    requires { (negsuc 19 ≤ℤ e) × (e ≤ℤ pos 10) }
    ensures { result ≡ power_of_two e }
{
    std::num::f32_from_bits_with_nan(((e + 127) as u32) * 0x80_0000)
}

impl<S: CellStore> Scan<S> {
    // A corner of empty cells. What it is made of comes one by one, as it is tested here.
    pub fn new(exponent: i32, key: IVector, id: u32) -> Result<Scan<S>, Refusal>
        ensures { MatchResult result
            (λ s. ((exponent_fits (Some exponent) && chunk_fits key (cube exponent) id) ≡ true) × ((s.exponent ≡ exponent) × ((s.chunk.frame.key ≡ key) × ((s.chunk.frame.id ≡ id) × ((n : ℕ) → S.CellStore.kinds s.chunk.cells n ≡ 0)))))
            (λ e. ((exponent_fits (Some exponent) && chunk_fits key (cube exponent) id) ≡ false) × (e ≡ BadMaking)) }
    {
        if !(-10..=10).contains(&exponent) {
            return Err(Refusal::BadMaking);
        }
        let size = power_of_two(exponent);
        let frame = ChunkFrame::new(key, Vector::new(size, size, size), id)?;
        Ok(Scan {
            exponent,
            chunk: Chunk::new(frame),
        })
    }
}
