// What links feed to the hash of their object.
ghost use Rattle.std.specs.Prelude.{◌≡◌, List};
ghost use Rattle.fnv.specs.Fnv.{hashed_from};
ghost use Rattle.link.specs.Feed.{link_feed, links_feed};
ghost use Rattle.links.specs.Meaning.{list_at};

use super::Links;
use fnv::FnvHasher;
use link::Link;
use std::hash::Hasher;

impl Links {
    // Feeds the links of the list in their order, and nothing where there is no such list. A list of the same
    // links, here or elsewhere, feeds alike.
    pub fn feed(&self, list: usize, hasher: &mut FnvHasher)
        ensures state { hasher.new.0 ≡ hashed_from hasher.old.0 (links_feed (list_at self.now list)) }
        ensures alike { (links : List Link) → links ≡ list_at self.now list → hasher.new.0 ≡ hashed_from hasher.old.0 (links_feed links) }
    {
        for link in self.iter(list) {
            feed_link(hasher, link);
        }
    }
}

// Each field in a fixed number of bytes.
fn feed_link(hasher: &mut FnvHasher, link: Link)
    ensures state { hasher.new.0 ≡ hashed_from hasher.old.0 (link_feed link) }
{
    let width = link.width.size() as u8;
    let signed = u8::from(link.is_signed);
    let whence = u8::from(link.whence);
    let number = link.objidx.0 as u64;
    hasher.write(&[width, signed, whence]);
    hasher.write(&link.bias.to_be_bytes());
    hasher.write(&link.position.to_be_bytes());
    hasher.write(&number.to_be_bytes());
}
