// The output: the loose bytes below head, then the bytes from tail to the end, and nothing under a flag.
ghost use Rattle.std.specs.Prelude.{◌≡◌, ◌+◌, ◌≤◌, ◌++◌, length};
ghost use Rattle.model.specs.Reading.{output, copy_bytes};
ghost use Rattle.serializer_state.specs.View.{view};

use serializer_state::SerializerState;

// The two parts of the output, one after the other.
fn output_ends(s: &SerializerState) -> (&[u8], &[u8])
    ensures answer { result.0.now ++ result.1.now ≡ output (view s.now) }
    ensures inside { length result.0.now + length result.1.now ≤ s.now.cursor.end }
{
    if s.flags.in_error() {
        return (&[], &[]);
    }
    (&s.memory[..s.cursor.head], &s.memory[s.cursor.tail..])
}

// Copies the output to the start of the bytes handed over and answers how many bytes it has. Where they are
// too few it answers none, and they stay as they were.
pub fn copy_bytes(s: &SerializerState, out: &mut [u8]) -> Option<usize>
    ensures answer { result ≡ (copy_bytes out.old (view s.now)).1 }
    ensures state { out.new ≡ (copy_bytes out.old (view s.now)).0 }
{
    let (front, back) = output_ends(s);
    let len = front.len() + back.len();
    if len > out.len() {
        return None;
    }
    out[..front.len()].copy_from_slice(front);
    out[front.len()..len].copy_from_slice(back);
    Some(len)
}
