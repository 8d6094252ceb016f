// The struct: where the object of each slot lies, its links, and the stacks of slots.
ghost use Rattle.std.specs.Prelude.{◌≡◌, ◌+◌, ◌≤◌, length, vec_len, vec_capacity};
ghost use Rattle.links.specs.Meaning.{lists};
ghost use Rattle.objects.specs.Slots.{Apart, Blank};

use crate::extents::Extent;
use link::PoolIdx;
use links::Links;

pub mod adds;
pub mod lists;
pub mod opens;
pub mod reads;
pub mod stacks;

// The object in the slot i has the list 2i of `links` as its real links and the list 2i + 1 as its virtual
// ones. Slots from `used` on have never held an object. Nothing allocates after `new`: a slot is taken from
// those released, the last one first, else it is the lowest never used, so that the stacks are of slots in
// memory of a fixed size, and `used` stands beside the extents of all slots.
#[derive(Drop)]
pub struct Objects {
    extents: Vec<Extent>,
    links: Links,
    opened: Vec<PoolIdx>,
    packed: Vec<PoolIdx>,
    released: Vec<PoolIdx>,
    used: usize,
    ghost paired: { length (lists links) ≡ vec_len extents + vec_len extents },
    ghost reserved: { (vec_len extents ≤ vec_capacity opened) × (vec_len extents ≤ vec_capacity packed) × (vec_len extents ≤ vec_capacity released) },
    ghost counted: { length opened.items + length packed.items + length released.items ≤ used },
    ghost roomy: { used ≤ vec_len extents },
    ghost apart: { Apart opened.items packed.items released.items used },
    ghost blank: { Blank (lists links) released.items used },
}
