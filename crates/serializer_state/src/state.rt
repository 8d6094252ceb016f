// The struct: the memory with its cursor, the flags that stand, whether it is ended, and the objects.
ghost use Rattle.std.specs.Prelude.{◌≡◌, true, vec_len};
ghost use Rattle.objects.specs.Contents.{contents};
ghost use Rattle.serializer_state.specs.Extents.{within, lying};

use cursor::cursor::Cursor;
use cursor::flags::SerializeErrorFlags;
use objects::Objects;

pub mod changes;
pub mod declines;
pub mod hashes;

// Its contracts say `view` of it where a model would make it its value: its fields are public, and the crates that
// are built on it change them one by one, so that contracts and invariants name fields as well as the view.
#[derive(Drop)]
pub struct SerializerState {
    pub memory: Vec<u8>,
    pub cursor: Cursor,
    pub flags: SerializeErrorFlags,
    pub ended: bool,
    pub objects: Objects,
    // The cursor is over the whole memory.
    ghost sized: { vec_len memory ≡ cursor.end },
    // What open objects recorded, and where packed objects lie, is within the memory.
    ghost inside: { within (vec_len memory) (contents objects).opened ≡ true },
    ghost lies: { lying (vec_len memory) (contents objects).packed ≡ true },
}
