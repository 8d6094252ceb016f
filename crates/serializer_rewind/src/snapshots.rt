// Snapshots taken and reverted to.
ghost use Rattle.std.specs.Prelude.{◌≡◌, not};
ghost use Rattle.model.specs.Rewinding.{same_slot, open_slot, snapshot as recorded, revert_snapshot};
ghost use Rattle.serializer_state.specs.View.{view};
ghost use Rattle.serializer_rewind.specs.Left.{stale as is_stale, restored};

use crate::rewinds::rewind;
use link::PoolIdx;
use model::snapshot::Snapshot;
use objects::{Extent, Which};
use register::Register;
use serializer_state::SerializerState;

// Records where the serializer stands.
pub fn snapshot(s: &SerializerState) -> Snapshot
    ensures answer { result ≡ recorded (view s.now) }
{
    let innermost = s.objects.outline(Which::Innermost);
    Snapshot {
        head: s.cursor.head,
        tail: s.cursor.tail,
        current: innermost.map(|object| object.slot),
        num_real_links: innermost.map_or(0, |object| object.num_real_links),
        num_virtual_links: innermost.map_or(0, |object| object.num_virtual_links),
        errors: s.flags,
    }
}

// Whether the innermost object has another slot than this one; none is the slot where nothing is open.
fn moved(s: &SerializerState, current: Option<PoolIdx>) -> bool
    ensures answer { result ≡ not (same_slot current (open_slot (view s.now))) }
{
    let innermost = s.objects.outline(Which::Innermost);
    current != innermost.map(|object| object.slot)
}

// Whether a snapshot is not reverted to: nothing can be, or another slot is open, or its tail is past the end.
fn stale(s: &SerializerState, snapshot: &Snapshot) -> bool
    ensures answer { result ≡ is_stale snapshot.now.current snapshot.now.tail (view s.now) }
{
    s.idle() || moved(s, snapshot.current) || snapshot.tail > s.memory.len()
}

// Restores the flags, and cuts the innermost object's links back to as many as it had.
fn restore(s: &mut SerializerState, snapshot: &Snapshot)
    ensures state { view s.new ≡ restored snapshot.now.errors snapshot.now.num_real_links snapshot.now.num_virtual_links (view s.old) }
{
    s.flags = snapshot.errors;
    s.objects
        .cut(snapshot.num_real_links, snapshot.num_virtual_links);
}

// Goes back to where a snapshot was taken.
pub fn revert_snapshot<R: Register>(s: &mut SerializerState, snapshot: Snapshot, register: &mut R)
    ensures state { view s.new ≡ (revert_snapshot snapshot (view s.old) (R.Register.holds register.old)).state }
    ensures register { R.Register.holds register.new ≡ (revert_snapshot snapshot (view s.old) (R.Register.holds register.old)).register }
{
    if stale(s, &snapshot) {
        return;
    }
    restore(s, &snapshot);
    let to = Extent {
        head: snapshot.head,
        tail: snapshot.tail,
    };
    rewind(s, to, register);
}
