// The rewind: head and tail go back, and the objects packed since are released.
ghost use Rattle.std.specs.Prelude.{◌≡◌, ◌≤◌, ◌||◌, length, nat_lt};
ghost use Rattle.model.specs.Declining.{flagged};
ghost use Rattle.model.specs.Rewinding.{discard, edge, on_edge, rewind as rewinds};
ghost use Rattle.serializer_state.specs.View.{view};
ghost use Rattle.serializer_rewind.specs.Left.{left_from};

use link::ObjIdx;
use objects::{Extent, Which};
use register::Register;
use serializer_state::SerializerState;

// Releases each packed object that starts below a place, the newest first, and strikes its own pair.
fn discard_below<R: Register>(s: &mut SerializerState, tail: usize, register: &mut R)
    ensures state { view s.new ≡ left_from tail (view s.old) (R.Register.holds register.old) }
    ensures register { R.Register.holds register.new ≡ (discard (view s.old).memory tail (view s.old).packed (view s.old).pool (R.Register.holds register.old)).register }
{
    // A loop, since each turn takes off the object that it looked at and strikes its pair: what the next turn
    // sees is what this one left.
    while let Some(last) = s.objects.outline(Which::LastPacked)
        && last.extent.head < tail
    {
        let hash = s.hash_of(Which::LastPacked, last.extent);
        let number = ObjIdx(s.objects.packed_count() - 1);
        s.objects.unpack();
        register.strike(hash, number);
    }
}

// Where tail must stand: at the lowest packed object, or at the end if none is packed.
fn edge_of(s: &SerializerState) -> usize
    ensures answer { result ≡ edge (view s.now) }
{
    s.objects
        .outline(Which::LastPacked)
        .map_or(s.memory.len(), |last| last.extent.head)
}

// Joins OTHER where tail stands elsewhere than at the edge.
fn check_edge(s: &mut SerializerState)
    ensures state { view s.new ≡ on_edge (view s.old) }
{
    if edge_of(s) != s.cursor.tail {
        let _ = s.other();
    }
}

// Whether the rewind is left out: a flag stands, or head is below its target, or tail above it.
fn left_out(s: &SerializerState, to: Extent) -> bool
    ensures answer { result ≡ (flagged (view s.now) || (nat_lt (view s.now).head to.head || nat_lt to.tail (view s.now).tail)) }
{
    s.flags.in_error() || s.cursor.head < to.head || to.tail < s.cursor.tail
}

// Goes back to a head and a tail.
pub(crate) fn rewind<R: Register>(s: &mut SerializerState, to: Extent, register: &mut R)
    requires within { to.tail ≤ length (view s.old).memory }
    ensures state { view s.new ≡ (rewinds to.head to.tail (view s.old) (R.Register.holds register.old)).state }
    ensures register { R.Register.holds register.new ≡ (rewinds to.head to.tail (view s.old) (R.Register.holds register.old)).register }
{
    if left_out(s, to) {
        return;
    }
    let _ = s.place(to.head, to.tail);
    discard_below(s, to.tail, register);
    check_edge(s);
}
