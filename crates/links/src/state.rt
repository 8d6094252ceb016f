// The struct: its cells, the chain of those that are free, and a chain for each list.
ghost use Rattle.std.specs.Prelude.{◌≡◌, ◌∷◌, vec_len};
ghost use Rattle.std.specs.List.{slice_get};
ghost use Rattle.links.specs.Walk.{Once, Ended, Filled};

use crate::chains::Chain;
use link::Link;

pub mod edits;
pub mod feeds;
pub mod iters;
pub mod reads;

// `links[i]` and `nexts[i]` are the cell i: the link that it holds, and the cell after it in its chain. They are two rows, since
// a walk steps from next to next: with both in one cell a step goes over four times the bytes, and was measured to take longer.
#[derive(Drop)]
pub struct Links {
    links: Vec<Link>,
    nexts: Vec<usize>,
    free: Chain,
    chains: Vec<Chain>,
    ghost sized: { vec_len links ≡ vec_len nexts },
    ghost once: { Once nexts.items (free ∷ chains.items) },
    ghost ended: { Ended nexts.items (free ∷ chains.items) },
    ghost filled: { Filled nexts.items (free ∷ chains.items) },
}

impl Links {
    // The chain of the list, if there is such a list.
    fn chain(&self, list: usize) -> Option<Chain>
        ensures answer { result ≡ slice_get self.now.chains.items list }
    {
        self.chains.get(list).copied()
    }
}
