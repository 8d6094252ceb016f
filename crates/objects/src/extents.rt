// Which object is meant and which of its links, where it lies, and what is read of one at once.
use link::{ObjIdx, PoolIdx};

// An object, by where it stands: the innermost open one, the one packed last, or the packed one of a number.
#[derive(Clone, Copy)]
pub enum Which {
    Innermost,
    LastPacked,
    Numbered(ObjIdx),
}

// The kinds of an object's links: a real one has an offset field, and a virtual one only orders objects.
#[derive(Clone, Copy)]
pub(crate) enum Kind {
    Real,
    Virtual,
}

// A packed object's bytes are those from head up to tail; of an open object these are head and tail of the
// cursor when it was opened.
#[derive(Clone, Copy)]
pub struct Extent {
    pub head: usize,
    pub tail: usize,
}

// All of an object but its links and bytes: its slot, where it lies, and how many links it has.
#[derive(Clone, Copy)]
pub struct Outline {
    pub slot: PoolIdx,
    pub extent: Extent,
    pub num_real_links: usize,
    pub num_virtual_links: usize,
}
