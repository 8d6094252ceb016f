// Links added to an object and cut back, and an object shared. A bool says whether it was done, as for a list of links.
ghost use Rattle.std.specs.Prelude.{◌≡◌, ◌&&◌, is_some, if◌then◌else◌};
ghost use Rattle.model.specs.State.{numbered, cell_free};
ghost use Rattle.model.specs.Linking.{virtual_to};
ghost use Rattle.objects.specs.Contents.{contents};
ghost use Rattle.objects.specs.Change.{first, chosen, linked, linked_virtual, ordered, cuts, shares};
ghost use Rattle.objects.specs.Steps.{grows, shortens, hands_over};

use super::Objects;
use crate::extents::{Kind, Which};
use link::{Link, LinkWidth, ObjIdx, OffsetWhence};

// A link with no field, that only orders objects.
fn virtual_to(child: ObjIdx) -> Link
    ensures answer { result ≡ virtual_to child }
{
    Link {
        width: LinkWidth::Zero,
        is_signed: false,
        whence: OffsetWhence::Head,
        bias: 0,
        position: 0,
        objidx: child,
    }
}

impl Objects {
    // Puts a link at the end of an object's links of a kind: false where there is no such object, or no cell
    // is free. `is_some_and` would not say that the links stay where its closure is not called, here and below.
    fn append(&mut self, which: Which, kind: Kind, link: Link) -> bool
        ensures answer { result ≡ (is_some (chosen which (contents self.old)) && cell_free (contents self.old).pool) }
        ensures state { contents self.new ≡ (if result then grows which kind link (contents self.old) else contents self.old) }
    {
        let Some(list) = self.list_of(which, kind) else {
            return false;
        };
        self.links.append(list, link)
    }

    // Adds a real link to the innermost object: false where none is open, or no cell is free.
    pub fn add_real(&mut self, link: Link) -> bool
        ensures answer { result ≡ (is_some (first (contents self.old).opened) && cell_free (contents self.old).pool) }
        ensures state { contents self.new ≡ (if result then linked link (contents self.old) else contents self.old) }
    {
        self.append(Which::Innermost, Kind::Real, link)
    }

    // Adds a virtual link to the innermost object: false where none is open, or no cell is free.
    pub fn add_virtual(&mut self, child: ObjIdx) -> bool
        ensures answer { result ≡ (is_some (first (contents self.old).opened) && cell_free (contents self.old).pool) }
        ensures state { contents self.new ≡ (if result then linked_virtual child (contents self.old) else contents self.old) }
    {
        self.append(Which::Innermost, Kind::Virtual, virtual_to(child))
    }

    // Adds a virtual link to a packed object: false where there is none of that number, or no cell is free.
    #[tactic(auto, using(crate::proofs::Steps::grows_ordered))]
    pub fn add_virtual_to(&mut self, number: ObjIdx, child: ObjIdx) -> bool
        ensures answer { result ≡ (is_some (numbered (contents self.old).packed number.0) && cell_free (contents self.old).pool) }
        ensures state { contents self.new ≡ (if result then ordered child number.0 (contents self.old) else contents self.old) }
    {
        self.append(Which::Numbered(number), Kind::Virtual, virtual_to(child))
    }

    // Leaves so many of the innermost object's links of a kind, the first ones.
    fn shorten(&mut self, kind: Kind, count: usize)
        ensures state { contents self.new ≡ shortens kind count (contents self.old) }
    {
        if let Some(list) = self.list_of(Which::Innermost, kind) {
            let _ = self.links.cut(list, count);
        }
    }

    // Cuts the innermost object's links back to so many real and so many virtual ones, the first of each.
    pub fn cut(&mut self, reals: usize, virtuals: usize)
        ensures state { contents self.new ≡ cuts reals virtuals (contents self.old) }
    {
        self.shorten(Kind::Real, reals);
        self.shorten(Kind::Virtual, virtuals);
    }

    // The innermost object's virtual links join those of a packed object: false, and nothing changes, where
    // one of the two is missing.
    fn hand_over(&mut self, number: ObjIdx) -> bool
        ensures answer { result ≡ (is_some (first (contents self.old).opened) && is_some (numbered (contents self.old).packed number.0)) }
        ensures state { contents self.new ≡ (if result then hands_over number.0 (contents self.old) else contents self.old) }
    {
        let from = self.list_of(Which::Innermost, Kind::Virtual);
        let to = self.list_of(Which::Numbered(number), Kind::Virtual);
        let Some((from, to)) = from.zip(to) else {
            return false;
        };
        self.links.append_all(to, from)
    }

    // The innermost object is released, and its virtual links join those of a packed object: false, and
    // nothing changes, where one of the two is missing.
    pub fn share(&mut self, number: ObjIdx) -> bool
        ensures answer { result ≡ (is_some (first (contents self.old).opened) && is_some (numbered (contents self.old).packed number.0)) }
        ensures state { contents self.new ≡ (if result then shares number.0 (contents self.old) else contents self.old) }
    {
        let shared = self.hand_over(number);
        if shared {
            self.discard();
        }
        shared
    }
}
