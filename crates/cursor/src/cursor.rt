// The cursor: memory from 0 to `end`, filled from its start up to `head` and from its end down to `tail`.
ghost use Rattle.std.specs.Prelude.{◌≤◌};

pub mod moves;

#[derive(Clone, Copy)]
pub struct Cursor {
    pub head: usize,
    pub tail: usize,
    pub end: usize,
    ghost apart: { head ≤ tail },
    ghost within: { tail ≤ end },
}
