// The offset of a link: how far the object that it leads to lies beyond the place that it is measured from.
ghost use Rattle.std.specs.Prelude.{◌≡◌, ◌+◌};
ghost use Rattle.offset_fields.specs.Passes.{base, beyond, free, offset_of, packed};

use crate::walk::Placed;
use cursor::cursor::Cursor;
use link::OffsetWhence;
use objects::{Extent, Objects, Which};

// What offsets are measured by: the packed objects, and the cursor, whose free bytes lie before all of them.
#[derive(Clone, Copy)]
pub(crate) struct Measure<'a> {
    pub(crate) objects: &'a Objects,
    pub(crate) cursor: Cursor,
}

// By how much `place` lies beyond `from` and the bias; none if it lies before.
fn distance(place: usize, from: usize, bias: u32) -> Option<usize>
    ensures answer { result ≡ beyond place (from + bias) }
{
    place.checked_sub(from)?.checked_sub(bias as usize)
}

impl Measure<'_> {
    // The place that an offset of the object `parent` is measured from. The output has none of the free bytes,
    // so that its start counts as their number.
    fn base_of(&self, parent: Extent, whence: OffsetWhence) -> usize
        ensures answer { result ≡ base (free self.now) parent whence }
    {
        match whence {
            OffsetWhence::Head => parent.head,
            OffsetWhence::Tail => parent.tail,
            OffsetWhence::Absolute => self.cursor.room(),
        }
    }

    // The offset of a link, if the link leads to a packed object and the offset is not negative.
    pub(crate) fn offset(&self, placed: Placed) -> Option<usize>
        ensures answer { result ≡ offset_of (free self.now) (packed self.now) placed }
    {
        let link = placed.link;
        let child = self.objects.outline(Which::Numbered(link.objidx))?;
        let from = self.base_of(placed.parent, link.whence);
        distance(child.extent.head, from, link.bias)
    }
}
