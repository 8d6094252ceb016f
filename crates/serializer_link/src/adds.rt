// Links added to the open object: real ones, by which offsets are written, and virtual ones, which only
// order objects.
ghost use Rattle.std.specs.Prelude.{◌≡◌};
ghost use Rattle.model.specs.Linking.{add_link, add_virtual_link};
ghost use Rattle.serializer_state.specs.View.{view};
ghost use Rattle.serializer_link.specs.Range.{field_in};

use cursor::flags::SerializeErrorFlags;
use link::{Link, LinkWidth, ObjIdx, OffsetWhence};
use objects::Which;
use serializer_state::SerializerState;
use std::ops::Range;

// A field of an object: how wide it is, and how far past the object's head it starts.
#[derive(Clone, Copy)]
struct Field {
    width: LinkWidth,
    position: u32,
}

// The field that a range of the memory is in an object with this head, if it may be one. A reversed range
// has length 0.
fn field_in(head: usize, range: Range<usize>) -> Option<Field>
    ensures answer { result ≡ field_in head range.start range.end }
{
    Some(Field {
        width: LinkWidth::new_checked(range.end.saturating_sub(range.start))?,
        position: u32::try_from(range.start.checked_sub(head)?).ok()?,
    })
}

// Links the field at a range of the memory to an object: declined where none is open, the range can be no
// field of it, or no cell is free. The parameters stand one by one, as in the Rust crate's call.
pub fn add_link(
    s: &mut SerializerState,
    from: usize,
    to: usize,
    objidx: ObjIdx,
    whence: OffsetWhence,
    bias: u32,
    is_signed: bool,
) -> Result<(), SerializeErrorFlags>
    ensures answer { result ≡ (add_link from to objidx whence bias is_signed (view s.old)).1 }
    ensures state { view s.new ≡ (add_link from to objidx whence bias is_signed (view s.old)).0 }
{
    s.ready()?;
    // On a line of its own: a field cannot be lent in the arguments of `found`, which holds the whole state.
    let innermost = s.objects.outline(Which::Innermost);
    let object = s.found(innermost)?;
    let field = s.found(field_in(object.extent.head, from..to))?;
    let linked = s.objects.add_real(Link {
        width: field.width,
        is_signed,
        whence,
        bias,
        position: field.position,
        objidx,
    });
    s.required(linked)
}

// Orders the open object before another one: declined where none is open, or no cell is free.
pub fn add_virtual_link(s: &mut SerializerState, objidx: ObjIdx) -> Result<(), SerializeErrorFlags>
    ensures answer { result ≡ (add_virtual_link objidx (view s.old)).1 }
    ensures state { view s.new ≡ (add_virtual_link objidx (view s.old)).0 }
{
    s.changeable()?;
    let ordered = s.objects.add_virtual(objidx);
    s.required(ordered)
}
