// Opening objects, closing them, and letting go of them; and the state in which none is.
ghost use Rattle.std.specs.Prelude.{◌≡◌, if◌then◌else◌, IfOk};
ghost use Rattle.model.specs.State.{slot_free};
ghost use Rattle.objects.specs.Contents.{contents};
ghost use Rattle.objects.specs.Change.{fresh, opens as opened_with, closes, packs, discards, unpacks};

use super::Objects;
use crate::extents::Extent;
use links::Links;
use std::alloc::{AllocError, Global};

impl Objects {
    // So many slots and link cells, none of them in use. The extents are made first: where memory holds as
    // many, the number of lists is a `usize` too.
    pub fn new(heap: Global, slot_count: usize, cell_count: usize) -> Result<Objects, AllocError>
        ensures answer { IfOk result (λ s. contents s ≡ fresh slot_count cell_count) }
    {
        let extents = vec![in heap; Extent { head: 0, tail: 0 }; slot_count]?;
        let list_count = 2 * slot_count;
        let links = Links::new(heap, list_count, cell_count)?;
        let opened = Vec::with_capacity(heap, slot_count)?;
        let packed = Vec::with_capacity(heap, slot_count)?;
        let released = Vec::with_capacity(heap, slot_count)?;
        Ok(Objects {
            extents,
            links,
            opened,
            packed,
            released,
            used: 0,
        })
    }

    // No slot and no link cell. Nothing is allocated.
    #[tactic(auto, using(crate::proofs::Frame::none_linked), unfolding(crate::specs::Contents::contents))]
    pub fn none(heap: Global) -> Objects
        ensures answer { contents result ≡ fresh 0 0 }
    {
        Objects {
            extents: Vec::new(heap),
            links: Links::none(heap),
            opened: Vec::new(heap),
            packed: Vec::new(heap),
            released: Vec::new(heap),
            used: 0,
        }
    }

    // As new, over the same slots and link cells, also those of objects that are on no stack. Nothing is
    // allocated; it takes a step a slot.
    #[tactic(auto, using(crate::proofs::Frame::none_linked), unfolding(crate::specs::Contents::contents))]
    pub fn reset(&mut self)
        ensures state { contents self.new ≡ fresh (contents self.old).pool.slots (contents self.old).pool.cells }
    {
        self.links.clear_all();
        self.opened.clear();
        self.packed.clear();
        self.released.clear();
        self.used = 0;
    }

    // Opens an object, inside the innermost: false where no slot is free. `is_some_and` would not say that
    // nothing changes where its closure is not called.
    pub fn open(&mut self, extent: Extent) -> bool
        ensures answer { result ≡ slot_free (contents self.old).pool }
        ensures state { contents self.new ≡ (if result then opened_with extent (contents self.old) else contents self.old) }
    {
        let Some(slot) = self.take_slot() else {
            return false;
        };
        self.push_opened(slot, extent);
        true
    }

    // The innermost object is open no more, and its slot stays taken.
    pub fn close(&mut self)
        ensures state { contents self.new ≡ closes (contents self.old) }
    {
        let _ = self.pop_opened();
    }

    // The innermost object becomes the one packed last, with another extent.
    pub fn pack(&mut self, extent: Extent)
        ensures state { contents self.new ≡ packs extent (contents self.old) }
    {
        if let Some(slot) = self.pop_opened() {
            self.push_packed(slot, extent);
        }
    }

    // The innermost object is released.
    pub fn discard(&mut self)
        ensures state { contents self.new ≡ discards (contents self.old) }
    {
        if let Some(innermost) = self.pop_opened() {
            self.release(innermost);
        }
    }

    // The object packed last is released.
    pub fn unpack(&mut self)
        ensures state { contents self.new ≡ unpacks (contents self.old) }
    {
        if let Some(last) = self.pop_packed() {
            self.release(last);
        }
    }
}
