// The few store: the numbers of up to 64 filled cells, each in a place of its own.
ghost use Rattle.stores.specs.Few.{DistinctCells};

pub mod cells;

// A place has the number of a filled cell, or none. An array, since a store takes no heap.
#[derive(Drop)]
pub struct FewStore {
    places: [Option<u16>; 64],
    ghost ok: { DistinctCells places },
}
