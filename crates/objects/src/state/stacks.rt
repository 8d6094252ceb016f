// Slots found on the stacks, taken from them and put on them. A slot that is on no stack is `Loose`, which is one fact and
// is said wherever such a slot is handed on.
ghost use Rattle.std.specs.Prelude.{◌≡◌, ◌<◌, [], is_some, IfSome, if◌then◌else◌};
ghost use Rattle.std.specs.Option.{option_map};
ghost use Rattle.model.specs.State.{slot_free, slot_next};
ghost use Rattle.objects.specs.Slots.{held};
ghost use Rattle.objects.specs.Contents.{parts, contents, object_at, built};
ghost use Rattle.objects.specs.Change.{first, chosen, closes, unstacks, takes, with_open, with_pack, laid, releases};
ghost use Rattle.objects.specs.Loose.{Loose, slot_at};

use super::Objects;
use crate::extents::{Extent, Kind, Which};
use link::PoolIdx;

impl Objects {
    // The slot of an object, if there is such an object.
    #[tactic(auto, using(crate::proofs::Place::slice_at, crate::proofs::Place::found, crate::proofs::Place::found_within))]
    pub(crate) fn slot_of(&self, which: Which) -> Option<PoolIdx>
        ensures answer { result ≡ slot_at which (parts self.now) }
        ensures object { option_map (object_at self.now) result ≡ chosen which (contents self.now) }
        ensures within { IfSome result (λ x. x.0 < self.now.used) }
    {
        match which {
            Which::Innermost => self.opened.last().copied(),
            Which::LastPacked => self.packed.last().copied(),
            Which::Numbered(number) => self.packed.get(number.0).copied(),
        }
    }

    // Open and packed objects have a function each: one over the name of a stack would be a match between two
    // lines that are the bodies here.

    // Takes the innermost open object off its stack.
    pub(crate) fn pop_opened(&mut self) -> Option<PoolIdx>
        ensures answer { option_map (object_at self.new) result ≡ first (contents self.old).opened }
        ensures state { contents self.new ≡ closes (contents self.old) }
        ensures loose { IfSome result (λ x. Loose (parts self.new) x) }
    {
        self.opened.pop()
    }

    // Takes the object packed last off its stack.
    pub(crate) fn pop_packed(&mut self) -> Option<PoolIdx>
        ensures answer { option_map (object_at self.new) result ≡ first (contents self.old).packed }
        ensures state { contents self.new ≡ unstacks (contents self.old) }
        ensures loose { IfSome result (λ x. Loose (parts self.new) x) }
    {
        self.packed.pop()
    }

    // Takes the slot released last, else the lowest never used.
    pub(crate) fn take_slot(&mut self) -> Option<PoolIdx>
        ensures free { is_some result ≡ slot_free (contents self.old).pool }
        ensures answer { IfSome result (λ x. x ≡ slot_next (contents self.old).pool) }
        ensures state { contents self.new ≡ (if is_some result then takes (contents self.old) else contents self.old) }
        ensures loose { IfSome result (λ x. Loose (parts self.new) x) }
        ensures blank { IfSome result (λ x. held (parts self.new).links x.0 ≡ 0) }
    {
        if let Some(slot) = self.released.pop() {
            return Some(slot);
        }
        if self.used >= self.extents.len() {
            return None;
        }
        let slot = PoolIdx(self.used);
        self.used += 1;
        Some(slot)
    }

    // Puts a slot on the stack of the open objects, for a new object.
    pub(crate) fn push_opened(&mut self, slot: PoolIdx, extent: Extent)
        requires loose { Loose (parts self.old) slot }
        requires blank { held (parts self.old).links slot.0 ≡ 0 }
        ensures state { contents self.new ≡ with_open (built slot extent [] []) (contents self.old) }
    {
        self.extents[slot.0] = extent;
        self.opened.push_reserved(slot);
    }

    // Puts a slot on the stack of the packed objects, with another extent.
    pub(crate) fn push_packed(&mut self, slot: PoolIdx, extent: Extent)
        requires loose { Loose (parts self.old) slot }
        ensures state { contents self.new ≡ with_pack (laid extent (object_at self.old slot)) (contents self.old) }
    {
        self.extents[slot.0] = extent;
        self.packed.push_reserved(slot);
    }

    // Empties a slot and puts it on the stack of the released ones.
    pub(crate) fn release(&mut self, slot: PoolIdx)
        requires loose { Loose (parts self.old) slot }
        ensures state { contents self.new ≡ releases (object_at self.old slot) (contents self.old) }
    {
        let reals = self.list(slot, Kind::Real);
        let virtuals = self.list(slot, Kind::Virtual);
        let _ = self.links.clear(reals);
        let _ = self.links.clear(virtuals);
        self.released.push_reserved(slot);
    }
}
