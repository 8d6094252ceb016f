// What can be read of the open and the packed objects.
ghost use Rattle.std.specs.Prelude.{◌≡◌, length};
ghost use Rattle.std.specs.Option.{option_map};
ghost use Rattle.fnv.specs.Fnv.{hashed_from};
ghost use Rattle.link.specs.Feed.{links_feed};
ghost use Rattle.links.specs.Rest.{rest};
ghost use Rattle.model.specs.Linking.{last_number};
ghost use Rattle.model.specs.Reading.{nth, real_of, virtual_of};
ghost use Rattle.objects.specs.Contents.{contents};
ghost use Rattle.objects.specs.Change.{first, chosen, outlined, alike};

use super::Objects;
use crate::extents::{Kind, Outline, Which};
use fnv::FnvHasher;
use link::{Link, ObjIdx};
use links::LinkIter;

impl Objects {
    // How many slots there are.
    #[tactic(auto, unfolding(crate::specs::Contents::contents))]
    pub fn slot_count(&self) -> usize
        ensures answer { result ≡ (contents self.now).pool.slots }
    {
        self.extents.len()
    }

    // How many link cells there are.
    #[tactic(auto, unfolding(crate::specs::Contents::contents))]
    pub fn cell_count(&self) -> usize
        ensures answer { result ≡ (contents self.now).pool.cells }
    {
        self.links.cells()
    }

    // How many objects are packed.
    #[tactic(auto, using(crate::proofs::Place::stacked_length), unfolding(crate::specs::Contents::contents))]
    pub fn packed_count(&self) -> usize
        ensures answer { result ≡ length (contents self.now).packed }
    {
        self.packed.len()
    }

    // The outline of an object, if there is such an object.
    pub fn outline(&self, which: Which) -> Option<Outline>
        ensures answer { result ≡ option_map outlined (chosen which (contents self.now)) }
    {
        let slot = self.slot_of(which)?;
        Some(Outline {
            slot,
            extent: self.extents[slot.0],
            num_real_links: self.list_len(self.list(slot, Kind::Real)),
            num_virtual_links: self.list_len(self.list(slot, Kind::Virtual)),
        })
    }

    // The i-th real link of an object, from 0. It takes i steps.
    pub fn real_link(&self, which: Which, i: usize) -> Option<Link>
        ensures answer { result ≡ nth (real_of (chosen which (contents self.now))) i }
    {
        self.link(which, Kind::Real, i)
    }

    // The i-th virtual link of an object, from 0. It takes i steps.
    pub fn virtual_link(&self, which: Which, i: usize) -> Option<Link>
        ensures answer { result ≡ nth (virtual_of (chosen which (contents self.now))) i }
    {
        self.link(which, Kind::Virtual, i)
    }

    // The real links of an object, from the first on at one step a link; none where there is no such object.
    pub fn real_links(&self, which: Which) -> LinkIter<'_>
        ensures answer { rest result ≡ real_of (chosen which (contents self.now)) }
    {
        // A way with no links is one through a list that is not there, as the one past the last: a function of `Links` for
        // this caller alone would be no plainer.
        let list = self.list_of(which, Kind::Real);
        self.links.iter(list.unwrap_or(2 * self.extents.len()))
    }

    // The object that the innermost object's last real link leads to.
    pub fn last_child(&self) -> Option<ObjIdx>
        ensures answer { result ≡ last_number (real_of (first (contents self.now).opened)) }
    {
        let list = self.list_of(Which::Innermost, Kind::Real)?;
        Some(self.links.last(list)?.objidx)
    }

    // Whether there are both objects, and they have the same real links.
    pub fn same_links(&self, a: Which, b: Which) -> bool
        ensures answer { result ≡ alike (chosen a (contents self.now)) (chosen b (contents self.now)) }
    {
        let first = self.list_of(a, Kind::Real);
        let second = self.list_of(b, Kind::Real);
        first
            .zip(second)
            .is_some_and(|(first, second)| self.links.same(first, second))
    }

    // Feeds the real links of an object to a hash, in their order.
    pub fn feed(&self, which: Which, hasher: &mut FnvHasher)
        ensures state { hasher.new.0 ≡ hashed_from hasher.old.0 (links_feed (real_of (chosen which (contents self.now)))) }
    {
        if let Some(list) = self.list_of(which, Kind::Real) {
            self.links.feed(list, hasher);
        }
    }
}
