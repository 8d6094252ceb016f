// The data types of OpenType that Rust has no type for: a number of three bytes, and a tag.
ghost use Rattle.std.specs.Prelude.{◌^◌, ◌<◌};

use std::error::Error;
use std::fmt;

pub mod scalars;

// A number of three bytes: at most 16,777,215.
#[derive(Clone, Copy, PartialEq, Eq, Debug)]
pub struct Uint24 {
    value: u32,
    ghost small: { value < 256 ^ 3 },
}

// A number that takes more than three bytes.
#[derive(Clone, Copy, PartialEq, Eq, Debug)]
pub struct Uint24Overflow(pub u32);

impl fmt::Display for Uint24Overflow {
    fn fmt<W: fmt::Write>(&self, f: &mut fmt::Formatter<W>) -> fmt::Result {
        write!(f, "{} takes more than three bytes", self.0)
    }
}

impl Error for Uint24Overflow {}

// Four bytes that name a table, a script, a language system or a feature.
#[derive(Clone, Copy, Eq, Debug)]
pub struct Tag(pub [u8; 4]);
