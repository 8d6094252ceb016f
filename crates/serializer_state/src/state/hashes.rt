// The hash under which an object is entered in a register.
ghost use Rattle.std.specs.Prelude.{◌≡◌};
ghost use Rattle.scalar.specs.Place.{part};
ghost use Rattle.model.specs.Closing.{hash as hashed};
ghost use Rattle.model.specs.Reading.{real_of};
ghost use Rattle.objects.specs.Change.{chosen};
ghost use Rattle.objects.specs.Contents.{contents};
ghost use Rattle.serializer_state.specs.View.{view};

use super::SerializerState;
use memory::{hash_of, part_of};
use objects::{Extent, Which};
use std::hash::Hasher;

impl SerializerState {
    // The hash of the bytes at an extent and of the real links of an object.
    #[tactic(auto, unfolding(model::specs::Closing::hash))]
    pub fn hash_of(&self, which: Which, at: Extent) -> u64
        ensures answer { result ≡ hashed (part (view self.now).memory at.head at.tail) (real_of (chosen which (contents self.now.objects))) }
    {
        let mut hasher = hash_of(part_of(&self.memory, at.head, at.tail));
        self.objects.feed(which, &mut hasher);
        hasher.finish()
    }
}
