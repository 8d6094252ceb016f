// Where a serializer begins, and where its memory goes when it is done with.
ghost use Rattle.std.specs.Prelude.{◌≡◌, length};
ghost use Rattle.model.specs.New.{new as begun_with};
ghost use Rattle.serializer_new.specs.Amount.{size_of, slots_of, cells_of};

use super::Serializer;
use register::Register;
use serializer_new::{Memory, begin, give_back};

impl Serializer {
    // A new serializer over a memory, which is cleared. Where the memory or the register does not keep a limit,
    // it is ended, over no memory, with OTHER.
    pub fn new<R: Register>(memory: Memory, register: &R) -> Serializer
        ensures answer { result ≡ begun_with (size_of memory) (slots_of memory) (cells_of memory) (R.Register.holds register.now).capacity }
    {
        Serializer {
            state: begin(memory, register),
        }
    }

    // The memory, to be used again.
    pub fn into_memory(self) -> Memory
        ensures size { size_of result ≡ length self.memory }
        ensures slots { slots_of result ≡ self.pool.slots }
        ensures cells { cells_of result ≡ self.pool.cells }
    {
        let Serializer { state } = self;
        give_back(state)
    }
}
