// The calls of a register and their answers as values, so that two registers can be asked the same.
ghost use Rattle.register_runs.specs.Play.{Played};

use link::ObjIdx;
use register::{Register, least_match};

#[derive(Clone, Copy, Debug)]
pub(crate) enum Call {
    Enter(u64, ObjIdx),
    Strike(u64, ObjIdx),
    Next(u64, ObjIdx),
    // By a hash and a key.
    Match(u64, u32),
    Capacity,
}

#[derive(Clone, Copy, PartialEq, Eq, Debug)]
pub(crate) enum Answer {
    Entered(bool),
    Struck,
    Least(Option<ObjIdx>),
    Capacity(usize),
}

// The entries are the table that a match looks its key up in.
pub(crate) fn play<R: Register>(register: &mut R, call: Call, entries: &[u32]) -> Answer
    ensures { Played (R.Register.holds register.old) entries.now call result (R.Register.holds register.new) }
{
    match call {
        Call::Enter(hash, number) => Answer::Entered(register.enter(hash, number)),
        Call::Strike(hash, number) => {
            register.strike(hash, number);
            Answer::Struck
        }
        Call::Next(hash, from) => Answer::Least(register.next(hash, from)),
        Call::Match(hash, key) => Answer::Least(least_match(register, hash, entries, key)),
        Call::Capacity => Answer::Capacity(register.capacity()),
    }
}
