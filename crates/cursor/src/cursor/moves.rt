// How the cursor begins and how bytes are allocated at its head.
ghost use Rattle.std.specs.Prelude.{◌≡◌, ◌-◌};
ghost use Rattle.cursor.specs.Cursor.{At, advanced, allocated};

use super::Cursor;
use crate::flags::SerializeErrorFlags;

impl Cursor {
    // Where memory starts.
    pub const START: usize = 0;

    // Over memory of so many bytes, of which none is taken.
    pub fn new(end: usize) -> Cursor
        ensures answer { At result 0 end end }
    {
        Cursor {
            head: Self::START,
            tail: end,
            end,
        }
    }

    // How many bytes are free.
    pub fn room(&self) -> usize
        ensures answer { result ≡ self.now.tail - self.now.head }
    {
        self.tail - self.head
    }

    // Takes so many bytes at the head and answers where they start, or declines where fewer are free.
    pub fn advance(&mut self, size: usize) -> Result<usize, SerializeErrorFlags>
        ensures answer { result ≡ allocated self.old size }
        ensures state { At self.new (advanced self.old size) self.old.tail self.old.end }
    {
        let old = self.head;
        if size > self.room() {
            return Err(SerializeErrorFlags::SERIALIZE_ERROR_OUT_OF_ROOM);
        }
        self.head = old + size;
        Ok(old)
    }
}
