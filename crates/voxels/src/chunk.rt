// A chunk: 8 by 8 by 8 cells in a frame.
ghost use Rattle.std.specs.Prelude.{◌≡◌, ℕ};
ghost use Rattle.grid.specs.Frame.{kind_at};

use grid::frame::ChunkFrame;
use grid::geometry::cell_number;
use grid::voxel_key::VoxelKey;
use stores::cell_store::CellStore;

#[derive(Drop)]
pub struct Chunk<S> {
    pub frame: ChunkFrame,
    pub cells: S,
}

impl<S: CellStore> Chunk<S> {
    // A chunk of empty cells.
    pub fn new(frame: ChunkFrame) -> Chunk<S>
        ensures frame { result.frame ≡ frame }
        ensures empty { (n : ℕ) → S.CellStore.kinds result.cells n ≡ 0 }
    {
        Chunk {
            frame,
            cells: S::new(),
        }
    }

    // The kind of the cell at a key, by its number as the store has it; none outside the chunk.
    pub fn voxel_state(&self, key: VoxelKey) -> Option<u8>
        ensures { result ≡ kind_at (S.CellStore.kinds self.now.cells) key }
    {
        let number = cell_number(key)?;
        Some(self.cells.read(number))
    }
}
