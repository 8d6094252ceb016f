// What can be read: the links of a list one by one, its length and its last link, and how many cells are used.
ghost use Rattle.std.specs.Prelude.{◌≡◌, ◌-◌, ◌≤◌, length, Decides};
ghost use Rattle.std.specs.Option.{option_map};
ghost use Rattle.std.specs.List.{slice_get};
ghost use Rattle.links.specs.Meaning.{Same, lists, list_at, used, cells};

use super::Links;
use link::{Link, same_link};

impl Links {
    // How many links the list has, if there is such a list.
    pub fn len(&self, list: usize) -> Option<usize>
        ensures answer { result ≡ option_map length (slice_get (lists self.now) list) }
    {
        self.chain(list).map(|chain| chain.count)
    }

    // The i-th link of the list, from 0. It takes i steps.
    pub fn get(&self, list: usize, i: usize) -> Option<Link>
        ensures answer { result ≡ slice_get (list_at self.now list) i }
    {
        let chain = self.chain(list).filter(|chain| i < chain.count)?;
        let at = chain.cell(&self.nexts, i);
        Some(self.links[at])
    }

    // The last link of the list.
    pub fn last(&self, list: usize) -> Option<Link>
        ensures answer { result ≡ slice_get (list_at self.now list) (length (list_at self.now list) - 1) }
    {
        let chain = self.chain(list).filter(|chain| chain.count > 0)?;
        Some(self.links[chain.last])
    }

    // How many cells hold a link: never more than there are.
    #[tactic(auto, using(crate::proofs::Reading::used_is), unfolding(crate::specs::Meaning::cells))]
    pub fn used(&self) -> usize
        ensures answer { result ≡ used self.now }
        ensures bound { result ≤ cells self.now }
    {
        self.cells() - self.free.count
    }

    // How many cells there are.
    #[tactic(auto, unfolding(crate::specs::Meaning::cells))]
    pub fn cells(&self) -> usize
        ensures answer { result ≡ cells self.now }
    {
        self.links.len()
    }

    // Whether both lists exist and have the same links in the same order. Lists of different length are told apart at
    // once.
    pub fn same(&self, a: usize, b: usize) -> bool
        ensures answer { Decides result (Same self.now a b) }
    {
        a < self.chains.len()
            && b < self.chains.len()
            && self.chains[a].count == self.chains[b].count
            && self.iter(a).zip(self.iter(b)).all(|(x, y)| same_link(x, y))
    }
}
