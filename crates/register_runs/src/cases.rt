// The edges, each by name.
use crate::both::{Both, Stop};
use crate::call::Call;
use crate::tally::Tally;
use link::ObjIdx;
use std::alloc::Global;

const LARGEST: ObjIdx = ObjIdx(usize::MAX);

// Makes the calls of new registers.
fn fresh(heap: Global, capacity: usize, cells: usize, calls: &[Call]) -> Result<Tally, Stop> {
    let mut both = Both::new(heap, capacity, cells)?;
    both.ask_all(calls.iter().copied())?;
    Ok(both.tally())
}

// As many pairs as the capacity, one more, a held one again, and one struck for another.
pub(crate) fn exactly_full(heap: Global) -> Result<Tally, Stop> {
    let mut both = Both::new(heap, 8, 9)?;
    both.ask_all((0..8u64).map(|i| Call::Enter(i, ObjIdx(i as usize))))?;
    both.ask_all([
        Call::Capacity,
        Call::Enter(8, ObjIdx(8)),
        Call::Enter(3, ObjIdx(4)),
        Call::Enter(3, ObjIdx(3)),
        Call::Next(8, ObjIdx(0)),
        Call::Strike(8, ObjIdx(8)),
        Call::Strike(5, ObjIdx(5)),
        Call::Enter(8, ObjIdx(8)),
        Call::Enter(9, ObjIdx(9)),
        Call::Next(5, ObjIdx(0)),
        Call::Next(8, ObjIdx(0)),
    ]
    .into_iter())?;
    Ok(both.tally())
}

// Every pair is declined, and none is found.
pub(crate) fn capacity_none(heap: Global) -> Result<Tally, Stop> {
    fresh(
        heap,
        0,
        0,
        &[
            Call::Capacity,
            Call::Enter(1, ObjIdx(1)),
            Call::Strike(1, ObjIdx(1)),
            Call::Next(1, ObjIdx(0)),
            Call::Enter(0, ObjIdx(0)),
            Call::Next(0, ObjIdx(0)),
        ],
    )
}

// A second pair is declined until the first is struck.
pub(crate) fn capacity_one(heap: Global) -> Result<Tally, Stop> {
    fresh(
        heap,
        1,
        2,
        &[
            Call::Capacity,
            Call::Enter(1, ObjIdx(7)),
            Call::Enter(1, ObjIdx(8)),
            Call::Enter(1, ObjIdx(7)),
            Call::Next(1, ObjIdx(0)),
            Call::Next(1, ObjIdx(8)),
            Call::Strike(1, ObjIdx(7)),
            Call::Enter(1, ObjIdx(8)),
            Call::Next(1, ObjIdx(0)),
        ],
    )
}

// Many numbers under one hash, entered downwards and read upwards.
pub(crate) fn equal_hashes(heap: Global) -> Result<Tally, Stop> {
    let mut both = Both::new(heap, 100, 128)?;
    both.ask_all((0..100).rev().map(|i| Call::Enter(77, ObjIdx(2 * i))))?;
    both.ask_all((0..200).map(|from| Call::Next(77, ObjIdx(from))))?;
    both.ask_all((0..50).map(|i| Call::Strike(77, ObjIdx(4 * i))))?;
    both.ask_all((0..200).map(|from| Call::Next(77, ObjIdx(from))))?;
    Ok(both.tally())
}

// The pair under one hash comes and goes without the other.
pub(crate) fn two_hashes(heap: Global) -> Result<Tally, Stop> {
    fresh(
        heap,
        4,
        8,
        &[
            Call::Enter(1, ObjIdx(5)),
            Call::Enter(2, ObjIdx(5)),
            Call::Next(1, ObjIdx(5)),
            Call::Next(2, ObjIdx(5)),
            Call::Strike(1, ObjIdx(5)),
            Call::Next(1, ObjIdx(0)),
            Call::Next(2, ObjIdx(0)),
        ],
    )
}

// The least number under the hash whose entry is the key: numbers of another key or past the entries, and those
// under another hash, are passed over.
pub(crate) fn least_match(heap: Global) -> Result<Tally, Stop> {
    fresh(
        heap,
        8,
        16,
        &[
            Call::Enter(5, ObjIdx(9)),
            Call::Enter(5, ObjIdx(4)),
            Call::Enter(5, ObjIdx(1)),
            Call::Enter(6, ObjIdx(0)),
            Call::Match(5, 1),
            Call::Match(5, 3),
            Call::Enter(5, ObjIdx(2)),
            Call::Match(5, 3),
            Call::Strike(5, ObjIdx(1)),
            Call::Match(5, 1),
            Call::Match(6, 3),
            Call::Match(7, 1),
        ],
    )
}

// The largest hash with the largest number, and `next` from the largest number.
pub(crate) fn largest(heap: Global) -> Result<Tally, Stop> {
    fresh(
        heap,
        4,
        8,
        &[
            Call::Next(u64::MAX, LARGEST),
            Call::Enter(u64::MAX, LARGEST),
            Call::Enter(u64::MAX, ObjIdx(0)),
            Call::Enter(0, LARGEST),
            Call::Next(u64::MAX, LARGEST),
            Call::Next(u64::MAX, ObjIdx(1)),
            Call::Next(u64::MAX, ObjIdx(0)),
            Call::Next(0, LARGEST),
            Call::Strike(u64::MAX, LARGEST),
            Call::Next(u64::MAX, LARGEST),
            Call::Next(0, LARGEST),
        ],
    )
}
