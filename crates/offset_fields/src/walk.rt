// The links of all packed objects, one after another: the way that both passes go.
ghost use Rattle.std.specs.Prelude.{◌≡◌};
ghost use Rattle.std.specs.Iterator.{YieldsFirst, item_count};
ghost use Rattle.offset_fields.specs.Passes.{packed, placed_from};
ghost use Rattle.offset_fields.specs.Walk.{left, left_of, Begins};

use crate::measure::Measure;
use link::{Link, ObjIdx};
use links::LinkIter;
use objects::{Extent, Objects, Which};

// A link of a packed object, and where that object lies.
#[derive(Clone, Copy)]
pub(crate) struct Placed {
    pub(crate) parent: Extent,
    pub(crate) link: Link,
}

// The links of one object in their order.
#[derive(Drop)]
struct ObjectLinks<'a> {
    parent: Extent,
    links: LinkIter<'a>,
}

// The links of all objects, by the objects' numbers. It is no `flatten`, which asks at each turn that the
// links begun come to an end: both passes would have to prove that, where here `remaining` says it once.
#[derive(Drop)]
pub(crate) struct PackedLinks<'a> {
    objects: &'a Objects,
    // What is still to come of the last object that was begun.
    begun: Option<ObjectLinks<'a>>,
    // The number of the object that follows it.
    next: usize,
}

impl<'a> Measure<'a> {
    // The links of all packed objects, with every link still to come.
    pub(crate) fn links(&self) -> PackedLinks<'a>
        ensures answer { left result ≡ placed_from 0 (packed self.now) }
    {
        PackedLinks {
            objects: self.objects,
            begun: None,
            next: 0,
        }
    }
}

impl Iterator for ObjectLinks<'_> {
    type Item = Placed;

    ghost next_gives = { YieldsFirst left_of };

    ghost remaining = { item_count left_of };

    fn next(&mut self) -> Option<Placed> {
        let link = self.links.next()?;
        Some(Placed {
            parent: self.parent,
            link,
        })
    }
}

impl<'a> PackedLinks<'a> {
    // Goes on to the next object, if there is one, and answers its links.
    fn begin(&mut self) -> Option<ObjectLinks<'a>>
        ensures state { Begins self.old result self.new }
    {
        if self.next >= self.objects.packed_count() {
            return None;
        }
        let object = Which::Numbered(ObjIdx(self.next));
        let parent = self.objects.outline(object)?.extent;
        self.next += 1;
        Some(ObjectLinks {
            parent,
            links: self.objects.real_links(object),
        })
    }
}

impl Iterator for PackedLinks<'_> {
    type Item = Placed;

    ghost next_gives = { YieldsFirst left };

    ghost remaining = { item_count left };

    fn next(&mut self) -> Option<Placed> {
        loop {
            if let Some(links) = &mut self.begun
                && let Some(placed) = links.next()
            {
                return Some(placed);
            }
            self.begun = Some(self.begin()?);
        }
    }
}
