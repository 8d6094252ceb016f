// Groups of pseudo-random calls, the same on every run.
ghost use Rattle.std.specs.Prelude.{◌<◌};

use crate::both::{Both, Difference, Stop};
use crate::call::Call;
use crate::tally::Tally;
use link::ObjIdx;
use std::alloc::Global;

const CALLS: u32 = 20_000;

// What a group draws its calls from. Few hashes and numbers make hits, misses and a full register frequent.
#[derive(Clone, Copy)]
pub(crate) struct Ranges {
    pub(crate) capacity: usize,
    pub(crate) cells: usize,
    pub(crate) first_hash: u64,
    pub(crate) hashes: u64,
    pub(crate) numbers: u64,
}

// Xorshift: 64 bits that never are all zero.
#[derive(Clone, Copy)]
struct Random(u64);

impl Random {
    fn below(&mut self, end: u64) -> u64
        ensures { 0 < end → result < end }
    {
        self.0 ^= self.0 << 13;
        self.0 ^= self.0 >> 7;
        self.0 ^= self.0 << 17;
        self.0.checked_rem(end).unwrap_or(0)
    }

    fn call(&mut self, ranges: &Ranges) -> Call {
        let hash = ranges.first_hash.wrapping_add(self.below(ranges.hashes));
        let number = ObjIdx(self.below(ranges.numbers) as usize);
        match self.below(10) {
            0..=3 => Call::Enter(hash, number),
            4..=5 => Call::Strike(hash, number),
            6..=7 => Call::Next(hash, number),
            8 => Call::Match(hash, self.below(4) as u32),
            _ => Call::Capacity,
        }
    }
}

// The whole content, by every `next` that the ranges allow. The hashes are a loop: one chain over both ranges would be
// no plainer.
fn sweep(both: &mut Both, ranges: &Ranges) -> Result<(), Difference> {
    for i in 0..ranges.hashes {
        let hash = ranges.first_hash.wrapping_add(i);
        both.ask_all((0..ranges.numbers).map(|number| Call::Next(hash, ObjIdx(number as usize))))?;
    }
    Ok(())
}

pub(crate) fn random_calls(heap: Global, ranges: &Ranges) -> Result<Tally, Stop> {
    let mut both = Both::new(heap, ranges.capacity, ranges.cells)?;
    let mut random = Random(0x2545_f491_4f6c_dd1d);
    // Each call changes the state that the next is drawn from, so the calls are a loop and no chain.
    for _ in 0..CALLS {
        both.ask(random.call(ranges))?;
    }
    sweep(&mut both, ranges)?;
    Ok(both.tally())
}
