// The children of the open object: ordered before another object, and the one added last.
ghost use Rattle.std.specs.Prelude.{◌≡◌, length};
ghost use Rattle.model.specs.Linking.{repacking, repack_last, open_links, last_added_child_index};
ghost use Rattle.serializer_state.specs.View.{view};
ghost use Rattle.serializer_link.specs.Order.{order as ordered};

use cursor::flags::SerializeErrorFlags;
use link::{Link, ObjIdx};
use objects::Which;
use serializer_state::SerializerState;

// Orders the child of a link before an object, unless it is that object: declined where the child is not
// packed, or no cell is free.
fn order(s: &mut SerializerState, link: Link, objidx: ObjIdx) -> Result<(), SerializeErrorFlags>
    ensures answer { result ≡ (ordered objidx link (view s.old)).1 }
    ensures state { view s.new ≡ (ordered objidx link (view s.old)).0 }
{
    if link.objidx == objidx {
        return Ok(());
    }
    let ordered = s.objects.add_virtual_to(link.objidx, objidx);
    s.required(ordered)
}

// Orders each child before an object, up to the first that cannot be.
fn order_all(
    s: &mut SerializerState,
    objidx: ObjIdx,
    count: usize,
) -> Result<(), SerializeErrorFlags>
    requires { count ≡ length (open_links (view s.old)) }
    ensures answer { result ≡ (repacking objidx (open_links (view s.old)) (view s.old)).1 }
    ensures state { view s.new ≡ (repacking objidx (open_links (view s.old)) (view s.old)).0 }
{
    // By number, since each child that is ordered changes the objects, over which an iterator would hold a borrow.
    for i in 0..count {
        if let Some(link) = s.objects.real_link(Which::Innermost, i) {
            order(s, link, objidx)?;
        }
    }
    Ok(())
}

// Orders the children of the open object, but for that object itself, before an object, so that it is laid
// out after them.
pub fn repack_last(s: &mut SerializerState, objidx: ObjIdx) -> Result<(), SerializeErrorFlags>
    ensures answer { result ≡ (repack_last objidx (view s.old)).1 }
    ensures state { view s.new ≡ (repack_last objidx (view s.old)).0 }
{
    s.changeable()?;
    // On a line of its own: a field cannot be lent in the arguments of `found`, which holds the whole state.
    let innermost = s.objects.outline(Which::Innermost);
    let object = s.found(innermost)?;
    order_all(s, objidx, object.num_real_links)
}

// The object that the open object's last link leads to.
pub fn last_added_child_index(s: &SerializerState) -> Option<ObjIdx>
    ensures answer { result ≡ last_added_child_index (view s.now) }
{
    s.objects.last_child()
}
