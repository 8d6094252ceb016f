// Both registers, made with the same capacity and asked the same calls.
ghost use Rattle.std.specs.Iterator.{IsFinite};

use crate::call::{Answer, Call, play};
use crate::tally::Tally;
use register_list::ListRegister;
use register_table::TableRegister;
use std::alloc::{AllocError, Global};
use std::fmt;

// What a match looks its key up in: shorter than the numbers go, so that some are past its end.
const ENTRIES: [u32; 7] = [3, 1, 3, 2, 1, 3, 2];

#[derive(Drop)]
pub(crate) struct Both {
    list: ListRegister,
    table: TableRegister,
    tally: Tally,
}

// A call that the two answer differently.
#[derive(Clone, Copy)]
pub(crate) struct Difference {
    call: Call,
    list: Answer,
    table: Answer,
}

// Why a group of calls did not come to its end.
#[derive(Drop)]
pub(crate) enum Stop {
    Memory,
    Differ(Difference),
}

impl Both {
    pub(crate) fn new(heap: Global, capacity: usize, cells: usize) -> Result<Both, AllocError> {
        let list = ListRegister::new(heap, capacity)?;
        let table = TableRegister::new(heap, capacity, cells)?;
        Ok(Both {
            list,
            table,
            tally: Tally::default(),
        })
    }

    pub(crate) fn ask(&mut self, call: Call) -> Result<(), Difference> {
        let list = play(&mut self.list, call, &ENTRIES);
        let table = play(&mut self.table, call, &ENTRIES);
        if list != table {
            return Err(Difference { call, list, table });
        }
        self.tally.count(list);
        Ok(())
    }

    pub(crate) fn ask_all<I: Iterator<Item = Call> + Drop>(
        &mut self,
        calls: I,
    ) -> Result<(), Difference>
        requires can { I.can_next calls }
        requires ends { IsFinite (I.remaining calls) }
    {
        for call in calls {
            self.ask(call)?;
        }
        Ok(())
    }

    pub(crate) fn tally(&self) -> Tally {
        self.tally
    }
}

impl fmt::Display for Difference {
    fn fmt<W: fmt::Write>(&self, f: &mut fmt::Formatter<W>) -> fmt::Result {
        write!(
            f,
            "{:?}: the list answers {:?}, the table {:?}",
            self.call, self.list, self.table
        )
    }
}

impl From<AllocError> for Stop {
    fn from(_: AllocError) -> Stop {
        Stop::Memory
    }
}

impl From<Difference> for Stop {
    fn from(difference: Difference) -> Stop {
        Stop::Differ(difference)
    }
}
