// Packed objects and their links, read by the objects' numbers.
ghost use Rattle.std.specs.Prelude.{◌≡◌};
ghost use Rattle.std.specs.Option.{option_map};
ghost use Rattle.model.specs.Reading.{object as object_seen, packed_count, real_link, virtual_link};
ghost use Rattle.serializer_state.specs.View.{view};
ghost use Rattle.serializer_read.specs.Reads.{seen_in};

use crate::view::ObjectView;
use link::{Link, ObjIdx};
use memory::part_of;
use objects::Which;
use serializer_state::SerializerState;

// The packed object of a number, if there is one.
pub fn object(s: &SerializerState, number: ObjIdx) -> Option<ObjectView<&[u8]>>
    ensures answer { option_map seen_in result ≡ object_seen number (view s.now) }
{
    let outline = s.objects.outline(Which::Numbered(number))?;
    Some(ObjectView {
        head: outline.extent.head,
        tail: outline.extent.tail,
        num_real_links: outline.num_real_links,
        num_virtual_links: outline.num_virtual_links,
        bytes: part_of(&s.memory, outline.extent.head, outline.extent.tail),
    })
}

// How many objects are packed.
pub fn packed_count(s: &SerializerState) -> usize
    ensures answer { result ≡ packed_count (view s.now) }
{
    s.objects.packed_count()
}

// The i-th real link of a packed object, from 0, if there is one.
pub fn real_link(s: &SerializerState, number: ObjIdx, i: usize) -> Option<Link>
    ensures answer { result ≡ real_link number i (view s.now) }
{
    s.objects.real_link(Which::Numbered(number), i)
}

// The i-th virtual link of a packed object, from 0, if there is one.
pub fn virtual_link(s: &SerializerState, number: ObjIdx, i: usize) -> Option<Link>
    ensures answer { result ≡ virtual_link number i (view s.now) }
{
    s.objects.virtual_link(Which::Numbered(number), i)
}
