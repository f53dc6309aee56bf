// The table store: a byte for each of the 512 cells, so it is never full.
ghost use Rattle.stores.specs.Kinds.{Kinds};

pub mod cells;

#[derive(Drop)]
pub struct TableStore {
    cells: [u8; 512],
    ghost ok: { Kinds cells },
}
