// Memory made with an allocator, and asked whether it keeps the limits.
ghost use Rattle.std.specs.Prelude.{◌≡◌, IfOk};
ghost use Rattle.model.specs.New.{checked};
ghost use Rattle.serializer_new.specs.Amount.{size_of, slots_of, cells_of};

use super::Memory;
use model::limit::Limit;
use objects::Objects;
use register::Register;
use std::alloc::{AllocError, Global};

impl Memory {
    // So many bytes, slots for objects and cells for links.
    pub fn new(heap: Global, size: usize, slots: usize, cells: usize) -> Result<Memory, AllocError>
        ensures answer { IfOk result (λ m. (size_of m ≡ size) × (slots_of m ≡ slots) × (cells_of m ≡ cells)) }
    {
        let bytes = vec![in heap; 0u8; size]?;
        let objects = Objects::new(heap, slots, cells)?;
        Ok(Memory { bytes, objects })
    }

    // Declines with the first limit that this memory and a register do not keep: what a serializer over them
    // would be declined for.
    pub fn check<R: Register>(&self, register: &R) -> Result<(), Limit>
        ensures answer { result ≡ checked (size_of self.now) (slots_of self.now) (cells_of self.now) (R.Register.holds register.now).capacity }
    {
        Limit::check(
            self.bytes.len(),
            self.objects.slot_count(),
            self.objects.cell_count(),
            register.capacity(),
        )
    }
}
