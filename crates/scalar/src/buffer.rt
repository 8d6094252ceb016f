// A scalar at a place of a byte buffer: written, read, and read back after it was written.
ghost use Rattle.std.specs.Prelude.{◌≡◌, ◌+◌, IfSome, if◌then◌else◌, Some, None, nat_le};
ghost use Rattle.std.specs.Option.{option_map};
ghost use Rattle.scalar.specs.Place.{room, write, read};

use crate::Scalar;

// Whether `size` bytes from `at` on lie within a buffer of `len`; their sum need not be a usize.
pub fn has_room(len: usize, at: usize, size: usize) -> bool
    ensures answer { result ≡ nat_le (at + size) len }
{
    size <= len && at <= len - size
}

// Writes the bytes of a scalar from `at` on, exactly if they have room there: a bool says whether, since there is
// one way to decline, and nothing to hand on.
pub fn write_at<S: Scalar>(buf: &mut [u8], at: usize, value: S) -> bool
    ensures answer { result ≡ room buf.old at S.Scalar.width }
    ensures state { buf.new ≡ (if result then write buf.old at (S.Scalar.bytes value) else buf.old) }
    ensures fits { S.Scalar.fits value }
{
    let size = S::size();
    let raw = value.raw();
    let has = has_room(buf.len(), at, size);
    if has {
        buf[at..at + size].copy_from_slice(&raw[0..size]);
    }
    has
}

// Reads a scalar from `at` on, exactly if all its bytes are there. Its bytes are those that stand there.
pub fn read_at<S: Scalar>(buf: &[u8], at: usize) -> Option<S>
    ensures answer { result ≡ read S.Scalar.reads S.Scalar.width buf.now at }
    ensures bytes { option_map S.Scalar.bytes result ≡ read (λ bs. bs) S.Scalar.width buf.now at }
    ensures fits { IfSome result S.Scalar.fits }
{
    let size = S::size();
    let bytes = buf.get(at..at.checked_add(size)?)?;
    let mut raw = [0; 4];
    raw[0..size].copy_from_slice(bytes);
    Some(S::from_raw(raw))
}

// Writes a scalar and reads it again: what was written is read back.
pub fn write_read<S: Scalar + Copy>(buf: &mut [u8], at: usize, value: S) -> Option<S>
    ensures answer { result ≡ (if room buf.old at S.Scalar.width then Some value else None) }
    ensures state { buf.new ≡ (if room buf.old at S.Scalar.width then write buf.old at (S.Scalar.bytes value) else buf.old) }
{
    if write_at(buf, at, value) {
        read_at(buf, at)
    } else {
        None
    }
}
