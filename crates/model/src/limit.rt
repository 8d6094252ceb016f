// Why a serializer cannot be made: which limit its memory or its register does not keep.
ghost use Rattle.std.specs.Prelude.{◌≡◌};
ghost use Rattle.model.specs.Limit.{limit_number};
ghost use Rattle.model.specs.New.{checked};

use std::error::Error;
use std::fmt;

pub const MOST_BYTES: usize = 4_294_967_295;

pub const MOST_SLOTS: usize = 1_048_576;

pub const MOST_CELLS: usize = 1_048_576;

#[derive(Clone, Copy, PartialEq, Eq, Debug)]
pub enum Limit {
    // More bytes, slots or link cells than a serializer takes.
    Memory,
    // A register that may hold fewer pairs than there are slots.
    Register,
}

impl Limit {
    // The number by which it is reported, under the name that the list of refusals has for it.
    pub fn number(self) -> u8
        ensures answer { result ≡ limit_number self }
    {
        match self {
            Limit::Memory => 1,
            Limit::Register => 2,
        }
    }

    // Declines with the first limit that this much memory and a register of this capacity do not keep.
    pub fn check(size: usize, slots: usize, cells: usize, capacity: usize) -> Result<(), Limit>
        ensures answer { result ≡ checked size slots cells capacity }
    {
        if size > MOST_BYTES || slots > MOST_SLOTS || cells > MOST_CELLS {
            return Err(Limit::Memory);
        }
        if capacity < slots {
            return Err(Limit::Register);
        }
        Ok(())
    }
}

impl fmt::Display for Limit {
    fn fmt<W: fmt::Write>(&self, f: &mut fmt::Formatter<W>) -> fmt::Result {
        f.write_str(match self {
            Limit::Memory => "more bytes, slots or link cells than a serializer takes",
            Limit::Register => "the register may hold fewer pairs than there are slots",
        })
    }
}

impl Error for Limit {}
