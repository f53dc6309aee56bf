// The few store as a cell store.
ghost use Rattle.stores.specs.Few.{FirstAt, few_kinds};

use super::FewStore;
use crate::cell_store::{CellStore, StoreRefusal};

impl FewStore {
    // Where the first such place is.
    fn position(&self, wanted: Option<u16>) -> Option<usize>
        ensures { FirstAt self.now.places wanted result }
    {
        self.places.iter().position(|place| *place == wanted)
    }
}

impl CellStore for FewStore {
    ghost kinds = { λ s. few_kinds s.places };

    ghost capacity = { 64 };

    ghost binary = { λ s n. s.ok.1 n };

    ghost outside = { λ s n h. s.ok.2 n h };

    fn new() -> FewStore {
        FewStore { places: [None; 64] }
    }

    fn read(&self, n: u16) -> u8 {
        match self.position(Some(n)) {
            Some(_) => 1,
            None => 0,
        }
    }

    fn set(&mut self, n: u16, kind: u8) -> Result<(), StoreRefusal> {
        if n > 511 || kind > 1 {
            return Err(StoreRefusal::Bad);
        }
        match self.position(Some(n)) {
            Some(i) if kind == 0 => self.places[i] = None,
            None if kind == 1 => match self.position(None) {
                Some(free) => self.places[free] = Some(n),
                None => return Err(StoreRefusal::Full),
            },
            _ => {}
        }
        Ok(())
    }
}
