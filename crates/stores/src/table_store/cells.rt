// The table store as a cell store.
ghost use Rattle.stores.specs.Table.{table_kinds};
ghost use Rattle.stores.specs.TableLemmas.{outside_empty};

use super::TableStore;
use crate::cell_store::{CellStore, StoreRefusal};

impl CellStore for TableStore {
    ghost kinds = { table_kinds };

    ghost capacity = { 512 };

    ghost binary = { λ s n. s.ok.1 n };

    ghost outside = { λ s. outside_empty s.cells s.ok };

    fn new() -> TableStore {
        TableStore { cells: [0; 512] }
    }

    fn read(&self, n: u16) -> u8 {
        if n < 512 { self.cells[n as usize] } else { 0 }
    }

    fn set(&mut self, n: u16, kind: u8) -> Result<(), StoreRefusal> {
        if n > 511 || kind > 1 {
            return Err(StoreRefusal::Bad);
        }
        self.cells[n as usize] = kind;
        Ok(())
    }
}
