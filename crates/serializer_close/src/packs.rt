// Closing the innermost object.
ghost use Rattle.std.specs.Prelude.{◌≡◌, ◌+◌, ◌-◌, ◌<◌, ◌≤◌, false, length, Some, ◌==◌};
ghost use Rattle.model.specs.State.{index};
ghost use Rattle.model.specs.Declining.{nothing_open};
ghost use Rattle.model.specs.Closing.{pop_pack};
ghost use Rattle.serializer_state.specs.View.{view};
ghost use Rattle.serializer_close.specs.Steps.{closed, flagged_closed, lifted, packed_at, shared_at, pack_at};

use crate::twins::find_twin;
use link::ObjIdx;
use memory::move_part;
use objects::{Extent, Outline, Which};
use register::Register;
use serializer_state::SerializerState;
use std::cmp::Ordering;

// Whether an object has no links.
fn linkless(object: Outline) -> bool
    ensures answer { result ≡ (object.num_real_links + object.num_virtual_links == 0) }
{
    object.num_real_links == 0 && object.num_virtual_links == 0
}

// Closes the innermost object, which is not packed.
fn close_empty(s: &mut SerializerState)
    ensures state { view s.new ≡ closed (view s.old) }
{
    s.objects.close();
}

// Closes the innermost object, which is not packed, with OTHER.
fn close_flagged(s: &mut SerializerState)
    ensures state { view s.new ≡ flagged_closed (view s.old) }
{
    close_empty(s);
    let _ = s.other();
}

// Moves the bytes from a place up to head so that they end at tail, and answers where they lie then.
fn lift(s: &mut SerializerState, from: usize) -> Extent
    requires { from ≤ (view s.old).head }
    ensures state { view s.new ≡ lifted from (view s.old) }
    ensures head { result.head ≡ (view s.old).tail - ((view s.old).head - from) }
    ensures tail { result.tail ≡ (view s.old).tail }
{
    let head = s.cursor.head;
    let tail = s.cursor.tail;
    let to = tail - (head - from);
    let _ = move_part(&mut s.memory, from, head, to);
    s.cursor.head = from;
    Extent { head: to, tail }
}

// Packs the innermost object, whose bytes lie at tail.
fn pack_new(s: &mut SerializerState, at: Extent) -> ObjIdx
    requires ordered { at.head ≤ at.tail }
    requires above { (view s.old).head ≤ at.head }
    requires tail { at.tail ≡ (view s.old).tail }
    ensures state { view s.new ≡ packed_at at (view s.old) }
    ensures answer { result ≡ index (length (view s.old).packed) }
{
    let number = ObjIdx(s.objects.packed_count());
    s.objects.pack(at);
    s.cursor.tail = at.head;
    number
}

// The innermost object is shared: the packed object of that number takes over its virtual links.
fn share_with(s: &mut SerializerState, number: ObjIdx)
    requires opened { nothing_open (view s.old) ≡ false }
    requires packed { number.0 < length (view s.old).packed }
    ensures state { view s.new ≡ shared_at number.0 (view s.old) }
{
    let _ = s.objects.share(number);
}

// Packs the innermost object, whose bytes lie at tail, or shares it with an equal one that is entered; it is
// entered where it is new.
fn pack_shared<R: Register>(s: &mut SerializerState, at: Extent, register: &mut R) -> ObjIdx
    requires ordered { at.head ≤ at.tail }
    requires above { (view s.old).head ≤ at.head }
    requires tail { at.tail ≡ (view s.old).tail }
    requires opened { nothing_open (view s.old) ≡ false }
    ensures state { view s.new ≡ (pack_at at (view s.old) (R.Register.holds register.old)).state }
    ensures register { R.Register.holds register.new ≡ (pack_at at (view s.old) (R.Register.holds register.old)).register }
    ensures answer { Some result ≡ (pack_at at (view s.old) (R.Register.holds register.old)).answer }
{
    let hash = s.hash_of(Which::Innermost, at);
    if let Some(number) = find_twin(s, register, hash, at) {
        share_with(s, number);
        return number;
    }
    let number = pack_new(s, at);
    let _ = register.enter(hash, number);
    number
}

// Closes the innermost object: the number that it has then, if it has any bytes.
pub fn pop_pack<R: Register>(
    s: &mut SerializerState,
    share: bool,
    register: &mut R,
) -> Option<ObjIdx>
    ensures state { view s.new ≡ (pop_pack share (view s.old) (R.Register.holds register.old)).state }
    ensures register { R.Register.holds register.new ≡ (pop_pack share (view s.old) (R.Register.holds register.old)).register }
    ensures answer { result ≡ (pop_pack share (view s.old) (R.Register.holds register.old)).answer }
{
    if s.idle() {
        return None;
    }
    let object = s.objects.outline(Which::Innermost)?;
    match s.cursor.head.cmp(&object.extent.head) {
        Ordering::Greater => {
            let at = lift(s, object.extent.head);
            Some(if share {
                pack_shared(s, at, register)
            } else {
                pack_new(s, at)
            })
        }
        Ordering::Equal if linkless(object) => {
            close_empty(s);
            None
        }
        Ordering::Equal | Ordering::Less => {
            close_flagged(s);
            None
        }
    }
}
