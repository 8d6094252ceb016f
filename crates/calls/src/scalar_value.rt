// Scalars of every kind as one type, and the kinds by themselves.
ghost use Rattle.std.specs.Prelude.{◌≡◌};
ghost use Rattle.calls.specs.Meaning.{kind_of_value, kind_of_count};

use scalar::kinds::Tag;

#[derive(Clone, Copy, PartialEq, Eq, Debug)]
pub enum ScalarValue {
    U8(u8),
    U16(u16),
    I16(i16),
    U32(u32),
    // The low 24 bits.
    U24(u32),
    Tag(Tag),
}

#[derive(Clone, Copy, PartialEq, Eq, Debug)]
pub enum ScalarKind {
    U8,
    U16,
    I16,
    U32,
    U24,
    Tag,
}

// The kinds that a count can be made into.
#[derive(Clone, Copy, PartialEq, Eq, Debug)]
pub enum CountKind {
    U8,
    U16,
    I16,
    U32,
    U24,
}

// The kind of a scalar.
impl From<ScalarValue> for ScalarKind {
    ghost from_gives = { λ value kind. kind ≡ kind_of_value value };

    fn from(value: ScalarValue) -> ScalarKind {
        match value {
            ScalarValue::U8(_) => ScalarKind::U8,
            ScalarValue::U16(_) => ScalarKind::U16,
            ScalarValue::I16(_) => ScalarKind::I16,
            ScalarValue::U32(_) => ScalarKind::U32,
            ScalarValue::U24(_) => ScalarKind::U24,
            ScalarValue::Tag(_) => ScalarKind::Tag,
        }
    }
}

// A kind of count is a kind of scalar.
impl From<CountKind> for ScalarKind {
    ghost from_gives = { λ count kind. kind ≡ kind_of_count count };

    fn from(count: CountKind) -> ScalarKind {
        match count {
            CountKind::U8 => ScalarKind::U8,
            CountKind::U16 => ScalarKind::U16,
            CountKind::I16 => ScalarKind::I16,
            CountKind::U32 => ScalarKind::U32,
            CountKind::U24 => ScalarKind::U24,
        }
    }
}
