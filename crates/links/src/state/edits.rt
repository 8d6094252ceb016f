// What makes lists and changes them. None but `new` allocates, and each takes constant time but `new`, `cut`
// and `clear_all`, since a change moves whole chains or one cell. Each says by itself that no cell is lost, since their
// number is read off the struct that changes. What changes a list answers a bool, as a set of the library does: no caller
// tells one way to decline from another, and a let-else hands it on where `?` has no bool to hand on.
ghost use Rattle.std.specs.Prelude.{◌≡◌, ◌+◌, map, not, ◌&&◌, [], ◌∷◌, ◌++◌, length, take, replicate, IfOk, if◌then◌else◌, ◌==◌, nat_lt, slice_set};
ghost use Rattle.std.specs.List.{range_with_len};
ghost use Rattle.links.specs.Meaning.{lists, list_at, is_list, used, cells};

use super::Links;
use crate::chains::Chain;
use link::{Link, LinkWidth, ObjIdx, OffsetWhence};
use std::alloc::{AllocError, Global};

impl Links {
    // So many empty lists over so many free cells.
    pub fn new(heap: Global, list_count: usize, cell_count: usize) -> Result<Links, AllocError>
        ensures answer { IfOk result (λ s. (lists s ≡ replicate list_count []) × (cells s ≡ cell_count)) }
    {
        let blank = Link {
            width: LinkWidth::Zero,
            is_signed: false,
            whence: OffsetWhence::Head,
            bias: 0,
            position: 0,
            objidx: ObjIdx(0),
        };
        let links = vec![in heap; blank; cell_count]?;
        let chains = vec![in heap; Chain::EMPTY; list_count]?;
        let nexts = in_one_row(heap, cell_count)?;
        let free = Chain {
            first: 0,
            last: cell_count.saturating_sub(1),
            count: cell_count,
        };
        Ok(Links {
            links,
            nexts,
            free,
            chains,
        })
    }

    // No list and no cell. Nothing is allocated.
    pub fn none(heap: Global) -> Links
        ensures answer { (lists result ≡ []) × (cells result ≡ 0) }
    {
        Links {
            links: Vec::new(heap),
            nexts: Vec::new(heap),
            free: Chain::EMPTY,
            chains: Vec::new(heap),
        }
    }

    // Puts a link at the end of the list: false where there is no such list, or no cell is free.
    pub fn append(&mut self, list: usize, link: Link) -> bool
        ensures answer { result ≡ (is_list self.old list && nat_lt (used self.old) (cells self.old)) }
        ensures state { lists self.new ≡ (if result then slice_set (lists self.old) list (list_at self.old list ++ link ∷ []) else lists self.old) }
        ensures same { cells self.new ≡ cells self.old }
    {
        if self.free.count == 0 {
            return false;
        }
        let Some(chain) = self.chains.get_mut(list) else {
            return false;
        };
        let (one, rest) = self.free.split(&self.nexts, 1);
        self.links[one.first] = link;
        *chain = chain.join(&mut self.nexts, one);
        self.free = rest;
        true
    }

    // Keeps the first n links of the list, and frees the cells of the others: false where there is no such
    // list. It takes n steps.
    pub fn cut(&mut self, list: usize, n: usize) -> bool
        ensures answer { result ≡ is_list self.old list }
        ensures state { lists self.new ≡ slice_set (lists self.old) list (take n (list_at self.old list)) }
        ensures same { cells self.new ≡ cells self.old }
    {
        let Some(chain) = self.chains.get_mut(list) else {
            return false;
        };
        if n >= chain.count {
            return true;
        }
        let (keep, rest) = chain.split(&self.nexts, n);
        self.free = self.free.join(&mut self.nexts, rest);
        *chain = keep;
        true
    }

    // Empties the list: false where there is no such list. The whole chain joins the free ones, with no walk.
    pub fn clear(&mut self, list: usize) -> bool
        ensures answer { result ≡ is_list self.old list }
        ensures state { lists self.new ≡ slice_set (lists self.old) list [] }
        ensures same { cells self.new ≡ cells self.old }
    {
        self.cut(list, 0)
    }

    // Empties every list, so that all cells are free. It takes a step a list.
    pub fn clear_all(&mut self)
        ensures state { lists self.new ≡ replicate (length (lists self.old)) [] }
        ensures same { cells self.new ≡ cells self.old }
    {
        // By number, since all chains are in order after each `clear`, and one that is being walked is lent.
        for list in 0..self.chains.len() {
            let _ = self.clear(list);
        }
    }

    // Puts the links of the list `from` at the end of the list `to`, and leaves `from` empty: false where
    // they are not two lists.
    pub fn append_all(&mut self, to: usize, from: usize) -> bool
        ensures answer { result ≡ (is_list self.old to && (is_list self.old from && not (to == from))) }
        ensures state { lists self.new ≡ (if result then slice_set (slice_set (lists self.old) to (list_at self.old to ++ list_at self.old from)) from [] else lists self.old) }
        ensures same { cells self.new ≡ cells self.old }
    {
        // By number, since a slice lends one chain at a time to be changed, and both change here.
        if to >= self.chains.len() || from >= self.chains.len() || to == from {
            return false;
        }
        let front = self.chains[to];
        let back = self.chains[from];
        self.chains[to] = front.join(&mut self.nexts, back);
        self.chains[from] = Chain::EMPTY;
        true
    }
}

// What follows each of so many cells in one row: the next one, and after the last none that there is. The memory for all of
// them is taken first: `collect` alone goes on with less where it is refused, and fills all there is before it gives up.
fn in_one_row(heap: Global, count: usize) -> Result<Vec<usize>, AllocError>
    ensures answer { IfOk result (λ v. v.items ≡ map (λ i. i + 1) (range_with_len 0 count)) }
{
    let mut nexts = Vec::with_capacity(heap, count)?;
    nexts.extend((0..count).map(|i| i + 1))?;
    Ok(nexts)
}
