// Bytes at a place that was taken before: assigned, and read.
ghost use Rattle.std.specs.Prelude.{◌≡◌, IfSome, if◌then◌else◌, Some, None, nat_le};
ghost use Rattle.std.specs.Option.{option_map};
ghost use Rattle.model.specs.Writing.{copy_assign_from_bytes, copy_assign, check_assign};
ghost use Rattle.model.specs.Reading.{value_at};
ghost use Rattle.serializer_state.specs.View.{view};

use cursor::flags::SerializeErrorFlags;
use scalar::{CountScalar, Scalar, has_room, read_at};
use serializer_state::SerializerState;

// Assigns bytes from a place on, which must end at or before tail.
pub fn copy_assign_from_bytes(s: &mut SerializerState, at: usize, bytes: &[u8])
    ensures state { view s.new ≡ copy_assign_from_bytes at bytes.now (view s.old) }
{
    if s.ended {
        return;
    }
    if !has_room(s.cursor.tail, at, bytes.len()) {
        let _ = s.other();
        return;
    }
    let _ = s.put(at, bytes);
}

// Assigns a scalar from a place on, which must end at or before tail.
pub fn copy_assign<S: Scalar>(s: &mut SerializerState, at: usize, value: S)
    ensures state { view s.new ≡ copy_assign at (S.Scalar.bytes value) (view s.old) }
    ensures fits { S.Scalar.fits value }
{
    // From 0 and not `..S::size()`, for which no proof was found.
    let raw = value.raw();
    copy_assign_from_bytes(s, at, &raw[0..S::size()])
}

// Assigns a count from a place on; one that the scalar cannot hold sets the flags that the caller names.
pub fn check_assign<S: CountScalar>(
    s: &mut SerializerState,
    at: usize,
    count: usize,
    flags: SerializeErrorFlags,
) -> Result<(), SerializeErrorFlags>
    ensures answer { result ≡ (check_assign at (option_map S.Scalar.bytes (if nat_le count S.CountScalar.most then Some (S.CountScalar.counting count) else None)) flags (view s.old)).1 }
    ensures state { view s.new ≡ (check_assign at (option_map S.Scalar.bytes (if nat_le count S.CountScalar.most then Some (S.CountScalar.counting count) else None)) flags (view s.old)).0 }
{
    s.changeable()?;
    // Written out, since no proof knows what a closure in ok_or_else did to the serializer that it held.
    let Some(value) = S::from_count(count) else {
        return Err(s.flag(flags));
    };
    copy_assign(s, at, value);
    Ok(())
}

// Reads a scalar from a place on, wherever it lies in the memory.
pub fn get_value_at<S: Scalar>(s: &SerializerState, at: usize) -> Option<S>
    ensures answer { result ≡ value_at S.Scalar.reads S.Scalar.width at (view s.now) }
    ensures bytes { option_map S.Scalar.bytes result ≡ value_at (λ bs. bs) S.Scalar.width at (view s.now) }
    ensures fits { IfSome result S.Scalar.fits }
{
    read_at(&s.memory, at)
}
