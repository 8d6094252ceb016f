// The calls that are generic over scalars, at a scalar whose kind is a value.
ghost use Rattle.std.specs.Prelude.{◌≡◌, ◌%◌, ◌^◌};
ghost use Rattle.std.specs.Option.{option_map};
ghost use Rattle.scalar.specs.Kinds.{value_of};
ghost use Rattle.model.specs.Writing.{embed as embedded, copy_assign, check_assign};
ghost use Rattle.model.specs.Reading.{value_at};
ghost use Rattle.calls.specs.Meaning.{scalar_bytes, width_of, count_bytes};
ghost use Rattle.scalar.specs.BigEndian.{big_endian};

use calls::{CountKind, ScalarKind, ScalarValue};
use cursor::flags::SerializeErrorFlags;
use scalar::Scalar;
use scalar::kinds::Uint24;
use serialize::Serializer;

// The low 24 bits of a number.
fn low_bits(value: u32) -> Uint24
    ensures answer { big_endian 3 (value_of result) ≡ big_endian 3 value }
{
    let [_, a, b, c] = value.to_be_bytes();
    Uint24::from_raw([a, b, c, 0])
}

// `embed` at a scalar of any kind. It and `copy_assign` are a match each: a closure takes values of one type, and
// each kind is a type of its own.
pub(crate) fn embed(s: &mut Serializer, value: ScalarValue) -> Result<usize, SerializeErrorFlags>
    ensures answer { result ≡ (embedded (scalar_bytes value) s.old).1 }
    ensures state { s.new ≡ (embedded (scalar_bytes value) s.old).0 }
{
    match value {
        ScalarValue::U8(x) => s.embed(x),
        ScalarValue::U16(x) => s.embed(x),
        ScalarValue::I16(x) => s.embed(x),
        ScalarValue::U32(x) => s.embed(x),
        ScalarValue::U24(x) => s.embed(low_bits(x)),
        ScalarValue::Tag(x) => s.embed(x),
    }
}

// `copy_assign` at a scalar of any kind.
pub(crate) fn copy_assign(s: &mut Serializer, pos: usize, value: ScalarValue)
    ensures state { s.new ≡ copy_assign pos (scalar_bytes value) s.old }
{
    match value {
        ScalarValue::U8(x) => s.copy_assign(pos, x),
        ScalarValue::U16(x) => s.copy_assign(pos, x),
        ScalarValue::I16(x) => s.copy_assign(pos, x),
        ScalarValue::U32(x) => s.copy_assign(pos, x),
        ScalarValue::U24(x) => s.copy_assign(pos, low_bits(x)),
        ScalarValue::Tag(x) => s.copy_assign(pos, x),
    }
}

// `check_assign` at a count of any kind. Its parameters are those of the serializer's method, and the kind.
pub(crate) fn check_assign(
    s: &mut Serializer,
    pos: usize,
    kind: CountKind,
    count: usize,
    flags: SerializeErrorFlags,
) -> Result<(), SerializeErrorFlags>
    ensures answer { result ≡ (check_assign pos (count_bytes kind count) flags s.old).1 }
    ensures state { s.new ≡ (check_assign pos (count_bytes kind count) flags s.old).0 }
{
    match kind {
        CountKind::U8 => s.check_assign::<u8>(pos, count, flags),
        CountKind::U16 => s.check_assign::<u16>(pos, count, flags),
        CountKind::I16 => s.check_assign::<i16>(pos, count, flags),
        CountKind::U32 => s.check_assign::<u32>(pos, count, flags),
        CountKind::U24 => s.check_assign::<Uint24>(pos, count, flags),
    }
}

// `get_value_at` at a kind of scalar.
pub(crate) fn get_value_at(s: &Serializer, kind: ScalarKind, pos: usize) -> Option<ScalarValue>
    ensures answer { option_map scalar_bytes result ≡ value_at (λ bs. bs) (width_of kind) pos s.now }
{
    match kind {
        ScalarKind::U8 => s.get_value_at(pos).map(ScalarValue::U8),
        ScalarKind::U16 => s.get_value_at(pos).map(ScalarValue::U16),
        ScalarKind::I16 => s.get_value_at(pos).map(ScalarValue::I16),
        ScalarKind::U32 => s.get_value_at(pos).map(ScalarValue::U32),
        ScalarKind::U24 => s
            .get_value_at(pos)
            .map(Uint24::to_u32)
            .map(ScalarValue::U24),
        ScalarKind::Tag => s.get_value_at(pos).map(ScalarValue::Tag),
    }
}
