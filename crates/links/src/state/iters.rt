// A way through the links of one list, from its first to its last, at one step a link.
ghost use Rattle.std.specs.Prelude.{ℕ, ◌<◌, vec_len};
ghost use Rattle.links.specs.Walk.{hop};

use super::Links;

pub mod steps;

#[derive(Drop)]
pub struct LinkIter<'a> {
    owner: &'a Links,
    cell: usize,
    left: usize,
    ghost inside: { (i : ℕ) → i < left → hop owner.now.nexts.items cell i < vec_len owner.now.nexts },
}
