// What can be read: places and lengths, packed objects with their links, and the output.
ghost use Rattle.std.specs.Prelude.{◌≡◌, ◌≤◌, true, length};
ghost use Rattle.std.specs.Option.{option_map};
ghost use Rattle.model.specs.Reading.{allocated as allocated_of, open_length, packed_count, object as object_seen, real_link, virtual_link, copy_bytes};
ghost use Rattle.serializer_read.specs.Reads.{seen_in};
ghost use Rattle.serializer_state.specs.Extents.{within, lying};
ghost use Rattle.serialize.specs.Kept.{Kept};

use super::Serializer;
use link::{Link, ObjIdx};
use serializer_read::ObjectView;

impl Serializer {
    // Where the next byte is written: never above tail.
    pub fn head(&self) -> usize
        ensures answer { result ≡ self.now.head }
        ensures apart { self.now.head ≤ self.now.tail }
    {
        self.state.cursor.head
    }

    // Where the packed objects begin: within the memory.
    pub fn tail(&self) -> usize
        ensures answer { result ≡ self.now.tail }
        ensures within { self.now.tail ≤ length self.now.memory }
    {
        self.state.cursor.tail
    }

    // How many bytes the memory has: what open objects recorded, and where packed objects lie, is within them. With it comes all
    // that the fields of a serializer keep.
    pub fn allocated(&self) -> usize
        ensures answer { result ≡ allocated_of self.now }
        ensures inside { within (length self.now.memory) self.now.opened ≡ true }
        ensures lies { lying (length self.now.memory) self.now.packed ≡ true }
        ensures kept { Kept self.now }
    {
        serializer_write::allocated(&self.state)
    }

    // How many bytes were taken since the open object was opened: 0 if head lies before its start, or none is open.
    pub fn length(&self) -> usize
        ensures answer { result ≡ open_length self.now }
    {
        serializer_write::length(&self.state)
    }

    // How many objects are packed.
    pub fn packed_count(&self) -> usize
        ensures answer { result ≡ packed_count self.now }
    {
        serializer_read::packed_count(&self.state)
    }

    // The packed object of a number, if there is one.
    pub fn object(&self, number: ObjIdx) -> Option<ObjectView<&[u8]>>
        ensures answer { option_map seen_in result ≡ object_seen number self.now }
    {
        serializer_read::object(&self.state, number)
    }

    // The i-th real link of a packed object, from 0, if there is one.
    pub fn real_link(&self, number: ObjIdx, i: usize) -> Option<Link>
        ensures answer { result ≡ real_link number i self.now }
    {
        serializer_read::real_link(&self.state, number, i)
    }

    // The i-th virtual link of a packed object, from 0, if there is one.
    pub fn virtual_link(&self, number: ObjIdx, i: usize) -> Option<Link>
        ensures answer { result ≡ virtual_link number i self.now }
    {
        serializer_read::virtual_link(&self.state, number, i)
    }

    // Copies the output to the start of the bytes handed over and answers how many bytes it has. Where they are
    // too few it answers none, and they stay as they were.
    pub fn copy_bytes(&self, out: &mut [u8]) -> Option<usize>
        ensures answer { result ≡ (copy_bytes out.old self.now).1 }
        ensures state { out.new ≡ (copy_bytes out.old self.now).0 }
    {
        serializer_read::copy_bytes(&self.state, out)
    }
}
