// The two lists of links that the object in a slot has, one of each kind, and what is read of a list.
ghost use Rattle.std.specs.Prelude.{◌≡◌, ◌<◌, length, IfSome};
ghost use Rattle.std.specs.Option.{option_map};
ghost use Rattle.links.specs.Meaning.{lists, list_at};
ghost use Rattle.model.specs.Reading.{nth};
ghost use Rattle.objects.specs.Contents.{parts, contents, object_at};
ghost use Rattle.objects.specs.Kinds.{list_number, of_kind, links_in};
ghost use Rattle.objects.specs.Change.{chosen};
ghost use Rattle.objects.specs.Loose.{slot_at};

use super::Objects;
use crate::extents::{Kind, Which};
use link::{Link, PoolIdx};

impl Objects {
    // The list of a slot's links of a kind.
    #[tactic(auto, unfolding(crate::specs::Contents::object_at))]
    pub(crate) fn list(&self, slot: PoolIdx, kind: Kind) -> usize
        requires within { slot.0 < self.now.used }
        ensures answer { result ≡ list_number kind slot }
        ensures links { list_at self.now.links result ≡ of_kind kind (object_at self.now slot) }
        ensures inside { result < length (lists self.now.links) }
    {
        match kind {
            Kind::Real => 2 * slot.0,
            Kind::Virtual => 2 * slot.0 + 1,
        }
    }

    // The list of an object's links of a kind, if there is such an object.
    pub(crate) fn list_of(&self, which: Which, kind: Kind) -> Option<usize>
        ensures answer { result ≡ option_map (list_number kind) (slot_at which (parts self.now)) }
        ensures links { option_map (list_at self.now.links) result ≡ option_map (of_kind kind) (chosen which (contents self.now)) }
        ensures inside { IfSome result (λ list. list < length (lists self.now.links)) }
    {
        let slot = self.slot_of(which)?;
        Some(self.list(slot, kind))
    }

    // How many links a list has.
    #[tactic(auto, using(crate::proofs::Reading::length_is))]
    pub(crate) fn list_len(&self, list: usize) -> usize
        ensures answer { result ≡ length (list_at self.now.links list) }
    {
        self.links.len(list).unwrap_or(0)
    }

    // The i-th link of a kind that an object has, from 0. It takes i steps.
    pub(crate) fn link(&self, which: Which, kind: Kind, i: usize) -> Option<Link>
        ensures answer { result ≡ nth (links_in kind (chosen which (contents self.now))) i }
    {
        self.links.get(self.list_of(which, kind)?, i)
    }
}
