// Runs the two registers side by side: every call is made of both, and they must answer alike.
// With the argument `long` it times a million calls of each instead, to show that neither grows slower:
//     cd crates/register_runs && rt run -- long
#![tactic(auto)]

mod both;
mod call;
mod cases;
mod random;
mod tally;
mod timing;

use anyhow::anyhow;
use both::Stop;
use random::{Ranges, random_calls};
use std::env;
use tally::Tally;

// The hashes begin near the end of the table and go on at its start; one cell is to spare.
const CROWDED: Ranges = Ranges {
    capacity: 24,
    cells: 25,
    first_hash: 22,
    hashes: 5,
    numbers: 12,
};

// Three cells of four are always free.
const ROOMY: Ranges = Ranges {
    capacity: 40,
    cells: 160,
    first_hash: 0,
    hashes: 6,
    numbers: 16,
};

// The hashes go past the largest and on from zero.
const FAR: Ranges = Ranges {
    capacity: 30,
    cells: 32,
    first_hash: u64::MAX - 3,
    hashes: 8,
    numbers: 9,
};

fn tell(rt: &HostRuntime, group: &str, ended: Result<Tally, Stop>) -> anyhow::Result<()> {
    match ended {
        Ok(tally) => {
            println!(rt; "{group}: {tally}")?;
            Ok(())
        }
        Err(Stop::Memory) => Err(anyhow!("no memory for the registers")),
        Err(Stop::Differ(difference)) => {
            println!(rt; "{group}: {difference}")?;
            Err(anyhow!("the registers differ"))
        }
    }
}

fn compare(rt: &HostRuntime) -> anyhow::Result<()> {
    let heap = rt.alloc();
    tell(rt, "random, crowded", random_calls(heap, &CROWDED))?;
    tell(rt, "random, roomy", random_calls(heap, &ROOMY))?;
    tell(rt, "random, far hashes", random_calls(heap, &FAR))?;
    tell(rt, "exactly full", cases::exactly_full(heap))?;
    tell(rt, "capacity 0", cases::capacity_none(heap))?;
    tell(rt, "capacity 1", cases::capacity_one(heap))?;
    tell(rt, "equal hashes", cases::equal_hashes(heap))?;
    tell(rt, "one number, two hashes", cases::two_hashes(heap))?;
    tell(rt, "least match", cases::least_match(heap))?;
    tell(rt, "largest hash and number", cases::largest(heap))
}

fn wants_long(rt: &HostRuntime) -> anyhow::Result<bool> {
    let mut args = env::args(rt)?;
    let _ = args.next();
    Ok(args.next().is_some_and(|word| word.as_str() == "long"))
}

fn run(rt: &HostRuntime) -> anyhow::Result<()> {
    if wants_long(rt)? {
        return timing::long(rt);
    }
    compare(rt)
}

fn main(rt: HostRuntime) -> anyhow::Result<()> {
    run(&rt)
}
