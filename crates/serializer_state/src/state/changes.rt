// Changes of one part: bytes of the memory, and the places of head and tail. Each answers by a bool whether it
// was made, since the caller can tell beforehand why it would be declined.
ghost use Rattle.std.specs.Prelude.{◌≡◌, length, replicate, if◌then◌else◌};
ghost use Rattle.scalar.specs.Place.{room, write};
ghost use Rattle.model.specs.State.{with_memory, with_cursor};
ghost use Rattle.serializer_state.specs.Extents.{placeable};
ghost use Rattle.serializer_state.specs.View.{view};

use super::SerializerState;
use cursor::cursor::Cursor;
use memory::{clear, put_bytes};

impl SerializerState {
    // Writes bytes from a place of the memory on, exactly if they have room there.
    pub fn put(&mut self, at: usize, bytes: &[u8]) -> bool
        ensures answer { result ≡ room (view self.old).memory at (length bytes.now) }
        ensures state { view self.new ≡ with_memory (view self.old) (if result then write (view self.old).memory at bytes.now else (view self.old).memory) }
    {
        put_bytes(&mut self.memory, at, bytes)
    }

    // Clears bytes from a place of the memory on, exactly if they lie within it.
    pub fn clear(&mut self, at: usize, size: usize) -> bool
        ensures answer { result ≡ room (view self.old).memory at size }
        ensures state { view self.new ≡ with_memory (view self.old) (if result then write (view self.old).memory at (replicate size 0) else (view self.old).memory) }
    {
        clear(&mut self.memory, at, size)
    }

    // Puts head and tail at these places, exactly if they are in order and within the memory.
    pub fn place(&mut self, head: usize, tail: usize) -> bool
        ensures answer { result ≡ placeable head tail (length (view self.old).memory) }
        ensures state { view self.new ≡ (if result then with_cursor (view self.old) head tail else view self.old) }
    {
        let end = self.cursor.end;
        if head > tail || tail > end {
            return false;
        }
        self.cursor = Cursor { head, tail, end };
        true
    }
}
