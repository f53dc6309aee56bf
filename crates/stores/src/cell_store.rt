// Stores of 512 cells by what they mean; the walk through the cells is the same over each.
ghost use Rattle.std.specs.Prelude.{◌≡◌, ℕ, ◌≤◌};
ghost use Rattle.stores.specs.Store.{Sets};

#[derive(Clone, Copy, PartialEq, Eq, Debug)]
pub enum StoreRefusal {
    // A cell number above 511, or a kind above 1.
    Bad,
    // An empty cell was to be filled, and as many cells are filled as the capacity.
    Full,
}

// `kinds` maps a cell number to its kind, 0 empty or 1 filled; numbers above 511 have kind 0.
// A kind is a number and no enum: `set` is told one by its number and refuses a number that is none, and what is read is what was set.
pub trait CellStore: Sized {
    ghost kinds: { Self → ℕ → ℕ };

    ghost capacity: { ℕ };

    // An empty store.
    fn new() -> Self
        ensures { (n : ℕ) → kinds result n ≡ 0 };

    // The kind of a cell, 0 for a number above 511.
    fn read(&self, n: u16) -> u8
        ensures { result ≡ kinds self.now n };

    // Gives a cell a kind.
    fn set(&mut self, n: u16, kind: u8) -> Result<(), StoreRefusal>
        ensures { Sets (kinds self.old) (kinds self.new) capacity n kind result };

    ghost binary: { (s : Self) (n : ℕ) → kinds s n ≤ 1 };

    ghost outside: { (s : Self) (n : ℕ) → 512 ≤ n → kinds s n ≡ 0 };
}
