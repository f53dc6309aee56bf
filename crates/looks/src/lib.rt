// A look that is exact: its answer holds of the exact line from camera to target.
#![tactic(auto)]

ghost use Rattle.std.specs.Prelude.{◌≡◌, ℕ};
ghost use Rattle.sight.specs.Sight.{look_at};
ghost use Rattle.looks.specs.Units.{point_of};
ghost use Rattle.looks.specs.Exact.{ExactLook, SameWhereTouched};

use sight::grid_point::GridPoint;
use sight::scan::Scan;
use stores::cell_store::CellStore;
use voxels::chunk_cast::ChunkCast;

// The look from camera to target: what stops the line, and how many keys the walk stood on.
// A line that crosses the inside of a filled cell is not clear. A hit names a filled cell that the line touches and enters
// no later than any filled cell that it crosses, and its time is within 2^-22 of that entry.
// Cells that the line does not touch do not matter: whatever they hold, hit and count are the same.
pub fn look<S: CellStore>(scan: &Scan<S>, camera: &GridPoint, target: &GridPoint) -> ChunkCast
    ensures value { result ≡ look_at scan.now.exponent scan.now.chunk.frame (S.CellStore.kinds scan.now.chunk.cells) camera.now target.now }
    ensures exact { ExactLook (point_of camera.now) (point_of target.now) scan.now.chunk.frame.id (S.CellStore.kinds scan.now.chunk.cells) result }
    ensures untouched { (others : ℕ → ℕ) → SameWhereTouched (point_of camera.now) (point_of target.now) (S.CellStore.kinds scan.now.chunk.cells) others → result ≡ look_at scan.now.exponent scan.now.chunk.frame others camera.now target.now }
{
    scan.look(camera, target)
}
