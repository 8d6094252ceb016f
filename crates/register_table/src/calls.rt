// The table as a register: how it is made, and its calls.
ghost use Rattle.std.specs.Prelude.{◌≡◌, ◌+◌, max, IfOk};
ghost use Rattle.register.specs.Pairs.{empty};
ghost use Rattle.register_table.specs.Meaning.{meaning, width};
ghost use Rattle.register_table.specs.Laws.{counted_cells};

use crate::TableRegister;
use crate::cells::Entry;
use crate::gap::vacate;
use link::ObjIdx;
use register::Register;
use std::alloc::{AllocError, Global};

impl TableRegister {
    // A table without pairs, which may hold `capacity` of them and allocates nothing more. It has so many cells, but
    // at least one more than the capacity, so that each search comes to a free one. The fuller the cells, the longer
    // the searches: with twice the capacity at most half of them are ever full, and a search takes a few steps.
    pub fn new(heap: Global, capacity: usize, cells: usize) -> Result<TableRegister, AllocError>
        ensures register { IfOk result (λ t. meaning t ≡ empty capacity) }
        ensures cells { IfOk result (λ t. width t ≡ max cells (capacity + 1)) }
    {
        // At the largest capacity this is not one more, but then no memory holds so many cells, and the Vec is refused.
        let least = capacity.saturating_add(1);
        let cells = vec![in heap; None; cells.max(least)]?;
        Ok(TableRegister {
            cells,
            capacity,
            count: 0,
        })
    }
}

impl Register for TableRegister {
    ghost holds = { meaning };

    ghost counted = { λ s. counted_cells s.cells.items s.count s.capacity s.once s.counted s.within };

    fn enter(&mut self, hash: u64, number: ObjIdx) -> bool {
        let entry = Entry { hash, number };
        let Err(at) = self.seek(entry) else {
            return true;
        };
        if self.count == self.capacity {
            return false;
        }
        self.cells[at] = Some(entry);
        self.count += 1;
        true
    }

    fn strike(&mut self, hash: u64, number: ObjIdx) {
        if let Ok(at) = self.seek(Entry { hash, number }) {
            vacate(&mut self.cells, at);
            self.count -= 1;
        }
    }

    fn next(&self, hash: u64, from: ObjIdx) -> Option<ObjIdx> {
        self.least(hash, from)
    }

    fn capacity(&self) -> usize {
        self.capacity
    }
}
