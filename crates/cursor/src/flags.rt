// The error flags: a set of sixteen, joined bit by bit and never taken away one by one. A set is soft if it
// is exactly one of the three overflows, after which objects may still be closed; any other set but none
// is hard.
ghost use Rattle.std.specs.Prelude.{◌≡◌, not};
ghost use Rattle.cursor.specs.Flags.{named, none, out_of_room, offset_overflow, joined, same_flags, contains, soft, hard};

use std::fmt;
use std::ops::BitOrAssign;

#[derive(Clone, Copy, PartialEq, Eq, Debug)]
pub struct SerializeErrorFlags(pub u16);

// By their number.
impl fmt::Display for SerializeErrorFlags {
    fn fmt<W: fmt::Write>(&self, f: &mut fmt::Formatter<W>) -> fmt::Result {
        write!(f, "{}", self.0)
    }
}

// No flag stands at first.
impl Default for SerializeErrorFlags {
    ghost is_default = { λ flags. flags ≡ none };

    fn default() -> SerializeErrorFlags {
        SerializeErrorFlags::SERIALIZE_ERROR_NONE
    }
}

// Joins two sets: the flags of both stand.
impl BitOrAssign for SerializeErrorFlags {
    ghost bitor_assign_gives = { λ old flags new. new ≡ joined old flags };

    fn bitor_assign(&mut self, flags: SerializeErrorFlags) {
        self.0 |= flags.0;
    }
}

impl SerializeErrorFlags {
    pub const SERIALIZE_ERROR_NONE: Self = Self(0x0000);

    pub const SERIALIZE_ERROR_OTHER: Self = Self(0x0001);

    pub const SERIALIZE_ERROR_OFFSET_OVERFLOW: Self = Self(0x0002);

    pub const SERIALIZE_ERROR_OUT_OF_ROOM: Self = Self(0x0004);

    pub const SERIALIZE_ERROR_INT_OVERFLOW: Self = Self(0x0008);

    pub const SERIALIZE_ERROR_ARRAY_OVERFLOW: Self = Self(0x0010);

    pub const SERIALIZE_ERROR_READ_ERROR: Self = Self(0x0020);

    pub const SERIALIZE_ERROR_EMPTY: Self = Self(0x0040);

    // The sets that have a name, in the order of their bits.
    pub fn named() -> [SerializeErrorFlags; 8]
        ensures answer { result ≡ named }
    {
        [
            Self::SERIALIZE_ERROR_NONE,
            Self::SERIALIZE_ERROR_OTHER,
            Self::SERIALIZE_ERROR_OFFSET_OVERFLOW,
            Self::SERIALIZE_ERROR_OUT_OF_ROOM,
            Self::SERIALIZE_ERROR_INT_OVERFLOW,
            Self::SERIALIZE_ERROR_ARRAY_OVERFLOW,
            Self::SERIALIZE_ERROR_READ_ERROR,
            Self::SERIALIZE_ERROR_EMPTY,
        ]
    }

    // Joins flags to those that stand, and answers all that stand then.
    pub fn set_err(&mut self, error_type: SerializeErrorFlags) -> SerializeErrorFlags
        ensures answer { result ≡ joined self.old error_type }
        ensures state { self.new ≡ joined self.old error_type }
    {
        *self |= error_type;
        *self
    }

    // Whether every flag of the other set stands. Asked of the bits: no operator takes flags away from a set.
    pub fn contains(self, other: SerializeErrorFlags) -> bool
        ensures answer { result ≡ contains self other }
    {
        self.0 & other.0 == other.0
    }

    // Whether no flag stands.
    pub fn successful(self) -> bool
        ensures answer { result ≡ same_flags self none }
    {
        self == Self::SERIALIZE_ERROR_NONE
    }

    // Whether a flag stands.
    pub fn in_error(self) -> bool
        ensures answer { result ≡ not (same_flags self none) }
    {
        self != Self::SERIALIZE_ERROR_NONE
    }

    pub fn ran_out_of_room(self) -> bool
        ensures answer { result ≡ contains self out_of_room }
    {
        self.contains(Self::SERIALIZE_ERROR_OUT_OF_ROOM)
    }

    pub fn offset_overflow(self) -> bool
        ensures answer { result ≡ contains self offset_overflow }
    {
        self.contains(Self::SERIALIZE_ERROR_OFFSET_OVERFLOW)
    }

    pub fn only_offset_overflow(self) -> bool
        ensures answer { result ≡ same_flags self offset_overflow }
    {
        self == Self::SERIALIZE_ERROR_OFFSET_OVERFLOW
    }

    // Whether the set is soft: exactly one overflow.
    pub fn only_overflow(self) -> bool
        ensures answer { result ≡ soft self }
    {
        self.only_offset_overflow()
            || self == Self::SERIALIZE_ERROR_INT_OVERFLOW
            || self == Self::SERIALIZE_ERROR_ARRAY_OVERFLOW
    }

    // Whether the set is hard: any but the empty one and the soft ones.
    pub fn is_hard(self) -> bool
        ensures answer { result ≡ hard self }
    {
        self.in_error() && !self.only_overflow()
    }
}
