// Links of the open object.
ghost use Rattle.std.specs.Prelude.{◌≡◌};
ghost use Rattle.model.specs.Linking.{add_link, add_virtual_link, repack_last, last_added_child_index};

use super::Serializer;
use cursor::flags::SerializeErrorFlags;
use link::{ObjIdx, OffsetWhence};
use std::ops::Range;

impl Serializer {
    // Links the field at a range of the memory to an object. When all is packed, the object's offset less the
    // bias is written there. The parameters are those of the Rust crate's method.
    pub fn add_link(
        &mut self,
        offset_byte_range: Range<usize>,
        obj_idx: ObjIdx,
        whence: OffsetWhence,
        bias: u32,
        is_signed: bool,
    ) -> Result<(), SerializeErrorFlags>
        ensures answer { result ≡ (add_link offset_byte_range.start offset_byte_range.end obj_idx whence bias is_signed self.old).1 }
        ensures state { self.new ≡ (add_link offset_byte_range.start offset_byte_range.end obj_idx whence bias is_signed self.old).0 }
    {
        let Range { start, end } = offset_byte_range;
        serializer_link::add_link(
            &mut self.state,
            start,
            end,
            obj_idx,
            whence,
            bias,
            is_signed,
        )
    }

    // Orders the open object before another one.
    pub fn add_virtual_link(&mut self, obj_idx: ObjIdx) -> Result<(), SerializeErrorFlags>
        ensures answer { result ≡ (add_virtual_link obj_idx self.old).1 }
        ensures state { self.new ≡ (add_virtual_link obj_idx self.old).0 }
    {
        serializer_link::add_virtual_link(&mut self.state, obj_idx)
    }

    // The object that the open object's last link leads to.
    pub fn last_added_child_index(&self) -> Option<ObjIdx>
        ensures answer { result ≡ last_added_child_index self.now }
    {
        serializer_link::last_added_child_index(&self.state)
    }

    // Orders the children of the open object, but for that object itself, before an object, so that it is laid
    // out after them.
    pub fn repack_last(&mut self, obj_idx: ObjIdx) -> Result<(), SerializeErrorFlags>
        ensures answer { result ≡ (repack_last obj_idx self.old).1 }
        ensures state { self.new ≡ (repack_last obj_idx self.old).0 }
    {
        serializer_link::repack_last(&mut self.state, obj_idx)
    }
}
