// Bytes taken at head: as they are, cleared, or written.
ghost use Rattle.std.specs.Prelude.{◌≡◌};
ghost use Rattle.model.specs.Writing.{allocate_size, pad as padded, embed_bytes, embed as embedded};
ghost use Rattle.serializer_state.specs.View.{view};

use cursor::flags::SerializeErrorFlags;
use scalar::Scalar;
use serializer_state::SerializerState;

// Takes so many bytes at head as they are, and answers where they start.
pub fn pad(s: &mut SerializerState, size: usize) -> Result<usize, SerializeErrorFlags>
    ensures answer { result ≡ (padded size (view s.old)).1 }
    ensures state { view s.new ≡ (padded size (view s.old)).0 }
{
    s.ready()?;
    // Written out, since no proof knows what a closure in map_err did to the serializer that it held.
    match s.cursor.advance(size) {
        Ok(at) => Ok(at),
        Err(flags) => Err(s.flag(flags)),
    }
}

// Takes so many bytes at head, cleared if told, and answers where they start.
pub fn allocate_size(
    s: &mut SerializerState,
    size: usize,
    clear: bool,
) -> Result<usize, SerializeErrorFlags>
    ensures answer { result ≡ (allocate_size size clear (view s.old)).1 }
    ensures state { view s.new ≡ (allocate_size size clear (view s.old)).0 }
{
    let at = pad(s, size)?;
    if clear {
        let _ = s.clear(at, size);
    }
    Ok(at)
}

// Writes bytes at head, and answers where they start.
pub fn embed_bytes(s: &mut SerializerState, bytes: &[u8]) -> Result<usize, SerializeErrorFlags>
    ensures answer { result ≡ (embed_bytes bytes.now (view s.old)).1 }
    ensures state { view s.new ≡ (embed_bytes bytes.now (view s.old)).0 }
{
    let at = pad(s, bytes.len())?;
    let _ = s.put(at, bytes);
    Ok(at)
}

// Writes a scalar at head, and answers where it starts.
pub fn embed<S: Scalar>(s: &mut SerializerState, value: S) -> Result<usize, SerializeErrorFlags>
    ensures answer { result ≡ (embedded (S.Scalar.bytes value) (view s.old)).1 }
    ensures state { view s.new ≡ (embedded (S.Scalar.bytes value) (view s.old)).0 }
    ensures fits { S.Scalar.fits value }
{
    // From 0 and not `..S::size()`, for which no proof was found.
    let raw = value.raw();
    embed_bytes(s, &raw[0..S::size()])
}
