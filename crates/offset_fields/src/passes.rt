// The two passes over the links of all packed objects: first every offset is measured, so that nothing is written
// unless each link has one, then the fields are written.
ghost use Rattle.std.specs.Prelude.{◌≡◌};
ghost use Rattle.std.specs.List.{fold, list_all};
ghost use Rattle.model.specs.Ending.{fields, resolved};
ghost use Rattle.objects.specs.Contents.{contents};
ghost use Rattle.offset_fields.specs.Passes.{ending, free, packed, placed_from, put_link, reaches};

use crate::measure::Measure;
use crate::writing::put_offset;
use cursor::cursor::Cursor;
use cursor::flags::SerializeErrorFlags;
use objects::Objects;

impl Measure<'_> {
    // Whether each link of each packed object has its offset.
    fn all_reach(&self) -> bool
        ensures answer { result ≡ list_all (reaches (free self.now) (packed self.now)) (placed_from 0 (packed self.now)) }
    {
        self.links().all(|placed| self.offset(placed).is_some())
    }

    // Writes the field of each link that has its offset.
    fn put_all(&self, memory: &mut [u8], flags: &mut SerializeErrorFlags)
        ensures state { ending memory.new flags.new self.now.cursor (contents self.now.objects.now) ≡ fold (put_link (free self.now) (packed self.now)) (ending memory.old flags.old self.now.cursor (contents self.now.objects.now)) (placed_from 0 (packed self.now)) }
    {
        for placed in self.links() {
            if let Some(offset) = self.offset(placed) {
                put_offset(memory, flags, placed, offset);
            }
        }
    }
}

// Writes the fields of all links of packed objects, or sets OTHER and writes none if a link leads to no packed
// object or has a negative offset.
pub fn write_fields(
    objects: &Objects,
    cursor: Cursor,
    memory: &mut [u8],
    flags: &mut SerializeErrorFlags,
)
    ensures state { ending memory.new flags.new cursor (contents objects.now) ≡ resolved (fields (ending memory.old flags.old cursor (contents objects.now)) (contents objects.now).packed) (ending memory.old flags.old cursor (contents objects.now)) }
{
    let measure = Measure { objects, cursor };
    if !measure.all_reach() {
        flags.set_err(SerializeErrorFlags::SERIALIZE_ERROR_OTHER);
        return;
    }
    measure.put_all(memory, flags);
}
