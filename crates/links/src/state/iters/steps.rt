// Starting on the way through a list, and each step of it.
ghost use Rattle.std.specs.Prelude.{◌≡◌, length};
ghost use Rattle.links.specs.Meaning.{list_at};
ghost use Rattle.links.specs.Rest.{rest, Step};
ghost use Rattle.std.specs.Iterator.{at_most};

use super::LinkIter;
use crate::chains::Chain;
use crate::state::Links;
use link::Link;

impl Links {
    // The links of the list, from the first; none where there is no such list.
    pub fn iter(&self, list: usize) -> LinkIter<'_>
        ensures answer { rest result ≡ list_at self.now list }
    {
        let chain = self.chain(list).unwrap_or(Chain::EMPTY);
        LinkIter {
            owner: self,
            cell: chain.first,
            left: chain.count,
        }
    }
}

impl Iterator for LinkIter<'_> {
    type Item = Link;

    ghost next_gives = { λ s r t. Step (rest s) r (rest t) };

    ghost remaining = { λ s. at_most (length (rest s)) };

    fn next(&mut self) -> Option<Link> {
        self.left = self.left.checked_sub(1)?;
        let link = self.owner.links[self.cell];
        self.cell = self.owner.nexts[self.cell];
        Some(link)
    }
}
