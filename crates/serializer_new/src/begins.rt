// The state that a new serializer has, and its memory handed back.
ghost use Rattle.std.specs.Prelude.{◌≡◌, length};
ghost use Rattle.model.specs.New.{fresh, barred, new};
ghost use Rattle.serializer_state.specs.View.{view};
ghost use Rattle.serializer_new.specs.Amount.{size_of, slots_of, cells_of};

use crate::storage::Memory;
use cursor::cursor::Cursor;
use cursor::flags::SerializeErrorFlags;
use objects::Objects;
use register::Register;
use serializer_state::SerializerState;
use std::alloc::Global;

// All bytes zero and free, no slot or cell in use.
fn over(memory: Memory) -> SerializerState
    ensures answer { view result ≡ fresh (size_of memory) (slots_of memory) (cells_of memory) }
{
    let Memory {
        mut bytes,
        mut objects,
    } = memory;
    bytes.fill(0);
    objects.reset();
    SerializerState {
        cursor: Cursor::new(bytes.len()),
        memory: bytes,
        flags: SerializeErrorFlags::SERIALIZE_ERROR_NONE,
        ended: false,
        objects,
    }
}

// Ended from the start, over no memory.
fn over_nothing(heap: Global) -> SerializerState
    ensures answer { view result ≡ barred }
{
    SerializerState {
        memory: Vec::new(heap),
        cursor: Cursor::new(0),
        flags: SerializeErrorFlags::SERIALIZE_ERROR_OTHER,
        ended: true,
        objects: Objects::none(heap),
    }
}

// The state of a new serializer over a memory, which is let go where a limit is not kept.
pub fn begin<R: Register>(memory: Memory, register: &R) -> SerializerState
    ensures answer { view result ≡ new (size_of memory) (slots_of memory) (cells_of memory) (R.Register.holds register.now).capacity }
{
    match memory.check(register) {
        Ok(()) => over(memory),
        Err(_) => over_nothing(*memory.bytes.allocator()),
    }
}

// The memory that a serializer was over, to be used again.
pub fn give_back(state: SerializerState) -> Memory
    ensures size { size_of result ≡ length (view state).memory }
    ensures slots { slots_of result ≡ (view state).pool.slots }
    ensures cells { cells_of result ≡ (view state).pool.cells }
{
    let SerializerState {
        memory,
        cursor: _,
        flags: _,
        ended: _,
        objects,
    } = state;
    Memory {
        bytes: memory,
        objects,
    }
}
