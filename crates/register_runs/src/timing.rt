// How long each hundred thousand of a million calls takes, with a quarter of the cells in use.
use link::ObjIdx;
use register::Register;
use register_list::ListRegister;
use register_table::TableRegister;
use std::time::Instant;

const HELD: u64 = 4096;

const CELLS: usize = 16_384;

const STRETCHES: u64 = 10;

// A turn is two calls, so that a stretch is 100,000.
const TURNS: u64 = 50_000;

// The pair that is entered as the i-th. Hashes are scattered, so that some meet at one cell, and numbers come
// in no order.
fn pair(i: u64) -> (u64, ObjIdx) {
    let spread = i.wrapping_mul(0x9e37_79b9_7f4a_7c15);
    let mixed = (spread ^ spread >> 30).wrapping_mul(0xbf58_476d_1ce4_e5b9);
    (mixed ^ mixed >> 27, ObjIdx((mixed >> 24) as usize))
}

fn enter_nth<R: Register>(register: &mut R, i: u64) -> bool {
    let (hash, number) = pair(i);
    register.enter(hash, number)
}

fn strike_nth<R: Register>(register: &mut R, i: u64) {
    let (hash, number) = pair(i);
    register.strike(hash, number);
}

// Strikes the oldest pair and enters a new one, again and again; answers how many were declined. Each turn changes the
// register, so the turns are a loop and no chain.
fn stretch<R: Register>(register: &mut R, first: u64) -> u64 {
    let mut declined: u64 = 0;
    for turn in 0..TURNS {
        let i = first.wrapping_add(turn);
        strike_nth(register, i);
        if !enter_nth(register, i.wrapping_add(HELD)) {
            declined = declined.saturating_add(1);
        }
    }
    declined
}

// Each stretch changes the register and is told as it ends, so the stretches are a loop.
fn time<R: Register>(rt: &HostRuntime, name: &str, register: &mut R) -> anyhow::Result<()> {
    for i in 0..HELD {
        let _ = enter_nth(register, i);
    }
    for k in 0..STRETCHES {
        let start = Instant::now(rt)?;
        let declined = stretch(register, k * TURNS);
        let micros = start.elapsed(rt)?.as_micros();
        let calls = 2 * TURNS * (k + 1);
        println!(rt; "{name}, up to call {calls}: {micros} us, {declined} declined")?;
    }
    Ok(())
}

pub(crate) fn long(rt: &HostRuntime) -> anyhow::Result<()> {
    let mut list = ListRegister::new(rt.alloc(), HELD as usize)?;
    time(rt, "list", &mut list)?;
    let mut table = TableRegister::new(rt.alloc(), HELD as usize, CELLS)?;
    time(rt, "table", &mut table)
}
