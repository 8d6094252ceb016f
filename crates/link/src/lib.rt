// What a link is: where an offset field stands in its object, how wide it is, from where the offset is
// measured, and the number of the object that it leads to.
#![tactic(auto)]

ghost use Rattle.std.specs.Prelude.{◌≡◌, Decides};
ghost use Rattle.link.specs.Feed.{whence_code};
ghost use Rattle.link.specs.Width.{width_of_length, bytes_of_width};

use std::fmt;

// The number of a packed object: how many were packed before it.
#[derive(Clone, Copy, PartialEq, Eq, PartialOrd, Ord, Debug)]
pub struct ObjIdx(pub usize);

// A slot of the pool of objects. It is no object number, and neither can be passed for the other.
#[derive(Clone, Copy, PartialEq, Eq, Debug)]
pub struct PoolIdx(pub usize);

// How many bytes an offset field has; a virtual link has no field.
#[derive(Clone, Copy, PartialEq, Eq, Debug)]
pub enum LinkWidth {
    Zero,
    Two,
    Three,
    Four,
}

// From where an offset is measured: the head or the tail of the object that holds the field, or the start
// of the output.
#[derive(Clone, Copy, PartialEq, Eq, Debug)]
pub enum OffsetWhence {
    Head,
    Tail,
    Absolute,
}

#[derive(Clone, Copy, PartialEq, Eq, Debug)]
pub struct Link {
    pub width: LinkWidth,
    pub is_signed: bool,
    pub whence: OffsetWhence,
    pub bias: u32,
    pub position: u32,
    pub objidx: ObjIdx,
}

impl LinkWidth {
    // The width of a field of so many bytes, if there is one.
    pub fn new_checked(len: usize) -> Option<LinkWidth>
        ensures { result ≡ width_of_length len }
    {
        match len {
            0 => Some(LinkWidth::Zero),
            2 => Some(LinkWidth::Two),
            3 => Some(LinkWidth::Three),
            4 => Some(LinkWidth::Four),
            _ => None,
        }
    }

    // How many bytes the field has.
    pub fn size(self) -> usize
        ensures { result ≡ bytes_of_width self }
    {
        match self {
            LinkWidth::Zero => 0,
            LinkWidth::Two => 2,
            LinkWidth::Three => 3,
            LinkWidth::Four => 4,
        }
    }
}

impl fmt::Display for ObjIdx {
    fn fmt<W: fmt::Write>(&self, f: &mut fmt::Formatter<W>) -> fmt::Result {
        write!(f, "{}", self.0)
    }
}

impl fmt::Display for OffsetWhence {
    fn fmt<W: fmt::Write>(&self, f: &mut fmt::Formatter<W>) -> fmt::Result {
        f.write_str(match self {
            OffsetWhence::Head => "head",
            OffsetWhence::Tail => "tail",
            OffsetWhence::Absolute => "abs",
        })
    }
}

// The byte that stands for it where the links of an object are hashed.
impl From<OffsetWhence> for u8 {
    ghost from_gives = { λ whence code. code ≡ whence_code whence };

    fn from(whence: OffsetWhence) -> u8 {
        match whence {
            OffsetWhence::Head => 0,
            OffsetWhence::Tail => 1,
            OffsetWhence::Absolute => 2,
        }
    }
}

// Whether two links are equal in every field.
pub fn same_link(a: Link, b: Link) -> bool
    ensures { Decides result (a ≡ b) }
{
    a == b
}
