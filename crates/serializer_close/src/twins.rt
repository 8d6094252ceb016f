// The search for an equal object among those that are entered.
ghost use Rattle.std.specs.Prelude.{◌≡◌, false};
ghost use Rattle.std.specs.Option.{option_map};
ghost use Rattle.scalar.specs.Place.{part};
ghost use Rattle.model.specs.State.{index};
ghost use Rattle.model.specs.Declining.{nothing_open};
ghost use Rattle.model.specs.Closing.{same_bytes, twin as least_twin};
ghost use Rattle.model.specs.Reading.{real_of};
ghost use Rattle.objects.specs.Change.{first};
ghost use Rattle.serializer_state.specs.View.{view};
ghost use Rattle.serializer_close.specs.Twins.{like_numbered};

use link::ObjIdx;
use memory::{part_of, same_parts};
use objects::{Extent, Which};
use register::{Register, least_where};
use serializer_state::SerializerState;

// Whether the bytes at two extents are the same.
fn same_bytes_at(s: &SerializerState, a: Extent, b: Extent) -> bool
    ensures answer { result ≡ same_bytes (part (view s.now).memory a.head a.tail) (part (view s.now).memory b.head b.tail) }
{
    same_parts(
        part_of(&s.memory, a.head, a.tail),
        part_of(&s.memory, b.head, b.tail),
    )
}

// Whether a packed object has the bytes at an extent, and the real links of the innermost object.
fn like(s: &SerializerState, number: ObjIdx, at: Extent) -> bool
    requires opened { nothing_open (view s.now) ≡ false }
    ensures answer { result ≡ like_numbered (view s.now) at.head at.tail number.0 }
{
    let which = Which::Numbered(number);
    s.objects.outline(which).is_some_and(|other| {
        same_bytes_at(s, other.extent, at) && s.objects.same_links(which, Which::Innermost)
    })
}

// The least number entered under the hash whose object has the bytes at an extent and the real links of the
// innermost object.
pub(crate) fn find_twin<R: Register>(
    s: &SerializerState,
    register: &R,
    hash: u64,
    at: Extent,
) -> Option<ObjIdx>
    requires opened { nothing_open (view s.now) ≡ false }
    ensures answer { result ≡ option_map index (least_twin (view s.now).memory (R.Register.holds register.now) hash (part (view s.now).memory at.head at.tail) (real_of (first (view s.now).opened)) (view s.now).packed) }
{
    let end = ObjIdx(s.objects.packed_count());
    least_where(register, hash, end, |number| like(s, number, at))
}
