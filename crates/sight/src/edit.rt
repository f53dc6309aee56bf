// Filling and emptying the cells of a scanned corner.
ghost use Rattle.std.specs.Prelude.{◌≡◌, ◌≤◌};
ghost use Rattle.sight.specs.Cells.{index_answer};
ghost use Rattle.sight.specs.Changes.{GivesKindIn};

use crate::scan::Scan;
use grid::geometry::cell_number;
use grid::voxel_key::VoxelKey;
use math::IVector;
use refusals::Refusal;
use stores::cell_store::{CellStore, StoreRefusal};

// The number of the cell with these coordinates: x + 8 y + 64 z; refused where one is outside 0..=7.
pub fn cell_index(cell: IVector) -> Result<u16, Refusal>
    ensures { result ≡ index_answer cell }
{
    let (Ok(x), Ok(y), Ok(z)) = (
        u8::try_from(cell.x),
        u8::try_from(cell.y),
        u8::try_from(cell.z),
    ) else {
        return Err(Refusal::CellOutside);
    };
    cell_number(VoxelKey { x, y, z }).ok_or(Refusal::CellOutside)
}

impl<S: CellStore> Scan<S> {
    // Gives a cell a kind, by its number as the store takes it; only that cell changes.
    fn give_kind(&mut self, cell: IVector, kind: u8) -> Result<(), Refusal>
        requires { kind ≤ 1 }
        ensures { GivesKindIn S.CellStore.kinds S.CellStore.capacity self.old self.new cell kind result }
    {
        let number = cell_index(cell)?;
        // no `map_err`: of a closure for any refusal it would not be known that it never meets `Bad`
        match self.chunk.cells.set(number, kind) {
            Ok(()) => Ok(()),
            Err(StoreRefusal::Full) => Err(Refusal::StoreFull),
            // the number is below 512 and the kind 0 or 1
            Err(StoreRefusal::Bad) => unreachable!(),
        }
    }

    // Fills a cell, also one that is filled.
    pub fn mark(&mut self, cell: IVector) -> Result<(), Refusal>
        ensures { GivesKindIn S.CellStore.kinds S.CellStore.capacity self.old self.new cell 1 result }
    {
        self.give_kind(cell, 1)
    }

    // Empties a cell, also one that is empty.
    pub fn wipe(&mut self, cell: IVector) -> Result<(), Refusal>
        ensures { GivesKindIn S.CellStore.kinds S.CellStore.capacity self.old self.new cell 0 result }
    {
        self.give_kind(cell, 0)
    }
}
