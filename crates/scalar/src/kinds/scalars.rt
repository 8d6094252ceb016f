// What the kinds that are structs do: a number of three bytes is made from a u32 and turned back into one, tags
// are compared, and both are scalars.
ghost use Rattle.std.specs.Prelude.{◌≡◌, ℕ, ◌-◌, ◌%◌, ◌^◌, false, length, if◌then◌else◌, Some, None, Decides, nat_eq, nat_lt};
ghost use Rattle.std.proofs.Common.{mod-eq_of_lt, lit≤, rules, arith};
ghost use Rattle.scalar.specs.BigEndian.{number, big_endian, Bytes};
ghost use Rattle.scalar.specs.Kinds.{value_of, uint24, checked, tag_bytes, tag};
ghost use Rattle.scalar.specs.Laws.{number_big_endian, number_shown};
ghost use Rattle.scalar.specs.Numbers.{as_number};
ghost use Rattle.scalar.specs.Small.{uint24_again};
ghost use Rattle.std.specs.Cmp.Lexicographic.{pointwise};
ghost use Rattle.std.specs.Cmp.Rules.{comparing};
ghost use Rattle.std.specs.Cmp as Keys;

use super::{Tag, Uint24, Uint24Overflow};
use crate::{CountScalar, Scalar};

impl TryFrom<u32> for Uint24 {
    type Error = Uint24Overflow;

    ghost try_from_gives = { λ value result. result ≡ checked value };

    fn try_from(value: u32) -> Result<Uint24, Uint24Overflow> {
        if value < 1 << 24 {
            Ok(Uint24 { value })
        } else {
            Err(Uint24Overflow(value))
        }
    }
}

impl From<Uint24> for u32 {
    ghost from_gives = { λ number result. result ≡ value_of number };

    fn from(number: Uint24) -> u32 {
        number.value
    }
}

impl Uint24 {
    // The number, exactly if three bytes hold it.
    pub fn new_checked(value: u32) -> Option<Uint24>
        ensures { result ≡ (if nat_lt value (256 ^ 3) then Some (uint24 value) else None) }
    {
        Uint24::try_from(value).ok()
    }

    // The number as a u32.
    pub fn to_u32(self) -> u32
        ensures { result ≡ value_of self }
    {
        u32::from(self)
    }
}

impl Scalar for Uint24 {
    ghost width = { 3 };

    ghost bytes = { λ x. big_endian 3 (value_of x) };

    ghost reads = { λ bs. uint24 (number bs) };

    ghost fits = { λ _. Unit {0} };

    ghost laws = { as_number 3 (λ _. Unit {0}) value_of uint24 (lit≤ tt) (lit≤ tt) (number_big_endian 3) (number_shown 3) (λ x _. x.small) (λ x _. uint24_again x) (λ _ l. mod-eq_of_lt l) };

    fn size() -> usize {
        3
    }

    fn raw(self) -> [u8; 4] {
        let [_, a, b, c] = self.value.to_be_bytes();
        [a, b, c, 0]
    }

    fn from_raw(raw: [u8; 4]) -> Uint24 {
        let [a, b, c, _] = raw;
        Uint24 {
            value: u32::from_be_bytes([0, a, b, c]),
        }
    }
}

impl CountScalar for Uint24 {
    ghost signed = { false };

    ghost most = { 256 ^ 3 - 1 };

    ghost counting = { uint24 };

    ghost laws = { record { largest = Prim.search rules; held = Prim.search rules; counted = Prim.search rules } };

    fn from_count(n: usize) -> Option<Uint24> {
        let value = u32::try_from(n).ok()?;
        Uint24::new_checked(value)
    }
}

impl Scalar for Tag {
    ghost width = { 4 };

    ghost bytes = { tag_bytes };

    ghost reads = { tag };

    ghost fits = { λ x. (length (tag_bytes x) ≡ 4) × Bytes (tag_bytes x) };

    ghost laws = { record { wide = Prim.search rules; short = Prim.search rules; sized = Prim.search rules; small = Prim.search rules; back = Prim.search rules; again = Prim.search rules } };

    fn size() -> usize {
        4
    }

    fn raw(self) -> [u8; 4] {
        self.0
    }

    fn from_raw(raw: [u8; 4]) -> Tag {
        Tag(raw)
    }
}

// Written out, since a derived one, which decides the same, leaves no text that an edit could turn and the prover refuse.
impl PartialEq for Tag {
    ghost eq = { λ x y. pointwise nat_eq x.0 y.0 };

    ghost laws = { Keys.partial_equiv_from_equiv (Prim.search (comparing, rules)) };

    fn eq(&self, other: &Tag) -> bool
        ensures eq { result ≡ pointwise nat_eq self.now.0 other.now.0 }
        ensures decides { Decides result (self.now ≡ other.now) }
    {
        self.0 == other.0
    }
}
