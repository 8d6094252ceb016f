// The numbers of Rust as scalars, in big-endian bytes: a signed one by its two's complement. What is the same for all of
// them stands once in the lemmas over the width; an impl is its data and its functions, which know the type's own width.
ghost use Rattle.std.specs.Prelude.{◌-◌, ◌/◌, ◌^◌, ◌<◌, true, false, pos, FitsSigned};
ghost use Rattle.std.proofs.Common.{to_z, of_z, rules, lit≤};
ghost use Rattle.std.specs.Int.{w16};
ghost use Rattle.scalar.specs.BigEndian.{number, big_endian};
ghost use Rattle.scalar.specs.Laws.{number_big_endian, number_shown};
ghost use Rattle.scalar.specs.Numbers.{as_number, unsigned, unsigned_counts};
ghost use Rattle.std.proofs.lemmas.Int.{of_z-to_z};

use crate::{CountScalar, Scalar};

impl Scalar for u8 {
    ghost width = { 1 };

    ghost bytes = { big_endian 1 };

    ghost reads = { number };

    ghost fits = { λ x. x < 256 ^ 1 };

    ghost laws = { unsigned 1 (lit≤ tt) (lit≤ tt) (number_big_endian 1) (number_shown 1) };

    fn size() -> usize {
        1
    }

    fn raw(self) -> [u8; 4] {
        [self, 0, 0, 0]
    }

    fn from_raw(raw: [u8; 4]) -> u8 {
        raw[0]
    }
}

impl Scalar for u16 {
    ghost width = { 2 };

    ghost bytes = { big_endian 2 };

    ghost reads = { number };

    ghost fits = { λ x. x < 256 ^ 2 };

    ghost laws = { unsigned 2 (lit≤ tt) (lit≤ tt) (number_big_endian 2) (number_shown 2) };

    fn size() -> usize {
        2
    }

    fn raw(self) -> [u8; 4] {
        let [a, b] = self.to_be_bytes();
        [a, b, 0, 0]
    }

    fn from_raw(raw: [u8; 4]) -> u16 {
        let [a, b, _, _] = raw;
        u16::from_be_bytes([a, b])
    }
}

// It stands as the u16 that has its bits.
impl Scalar for i16 {
    ghost width = { 2 };

    ghost bytes = { λ x. big_endian 2 (of_z w16 x) };

    ghost reads = { λ bs. to_z w16 (number bs) };

    ghost fits = { FitsSigned w16 };

    ghost laws = { as_number 2 (FitsSigned w16) (of_z w16) (to_z w16) (lit≤ tt) (lit≤ tt) (number_big_endian 2) (number_shown 2) (Prim.search rules) (Prim.search rules) (of_z-to_z w16) };

    fn size() -> usize {
        u16::size()
    }

    fn raw(self) -> [u8; 4] {
        self.cast_unsigned().raw()
    }

    fn from_raw(raw: [u8; 4]) -> i16 {
        u16::from_raw(raw).cast_signed()
    }
}

impl Scalar for u32 {
    ghost width = { 4 };

    ghost bytes = { big_endian 4 };

    ghost reads = { number };

    ghost fits = { λ x. x < 256 ^ 4 };

    ghost laws = { unsigned 4 (lit≤ tt) (lit≤ tt) (number_big_endian 4) (number_shown 4) };

    fn size() -> usize {
        4
    }

    fn raw(self) -> [u8; 4] {
        self.to_be_bytes()
    }

    fn from_raw(raw: [u8; 4]) -> u32 {
        u32::from_be_bytes(raw)
    }
}

impl CountScalar for u8 {
    ghost signed = { false };

    ghost most = { 256 ^ 1 - 1 };

    ghost counting = { λ n. n };

    ghost laws = { unsigned_counts 1 };

    fn from_count(n: usize) -> Option<u8> {
        u8::try_from(n).ok()
    }
}

impl CountScalar for u16 {
    ghost signed = { false };

    ghost most = { 256 ^ 2 - 1 };

    ghost counting = { λ n. n };

    ghost laws = { unsigned_counts 2 };

    fn from_count(n: usize) -> Option<u16> {
        u16::try_from(n).ok()
    }
}

impl CountScalar for i16 {
    ghost signed = { true };

    ghost most = { 256 ^ 2 / 2 - 1 };

    ghost counting = { pos };

    ghost laws = { record { largest = Prim.search rules; held = Prim.search rules; counted = Prim.search rules } };

    fn from_count(n: usize) -> Option<i16> {
        i16::try_from(n).ok()
    }
}

impl CountScalar for u32 {
    ghost signed = { false };

    ghost most = { 256 ^ 4 - 1 };

    ghost counting = { λ n. n };

    ghost laws = { unsigned_counts 4 };

    fn from_count(n: usize) -> Option<u32> {
        u32::try_from(n).ok()
    }
}
