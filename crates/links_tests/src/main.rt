// The lists of links on examples: filled to the last cell, freed in another order and filled again; list
// numbers that there are none of; cuts past the end; the hash of a list.
#![tactic(auto)]

use fnv::FnvHasher;
use link::{Link, LinkWidth, ObjIdx, OffsetWhence};
use links::Links;
use std::hash::Hasher;
use std::io;

// A call, with the numbers of its lists and, for `Append`, the object that the link leads to.
#[derive(Clone, Copy)]
enum Call {
    Append(usize, usize),
    Cut(usize, usize),
    Clear(usize),
    AppendAll(usize, usize),
    Same(usize, usize),
}

// Every cell is used, then freed in another order than it was taken, then used again.
const FILL_AND_FREE: [Call; 13] = [
    Call::Append(0, 1),
    Call::Append(1, 2),
    Call::Append(0, 3),
    Call::Append(2, 4),
    Call::Append(2, 5),
    Call::Clear(1),
    Call::Cut(0, 1),
    Call::Clear(2),
    Call::Append(2, 6),
    Call::Append(0, 7),
    Call::Append(2, 8),
    Call::Append(1, 9),
    Call::AppendAll(0, 2),
];

// What is declined, and what changes nothing.
const EDGES: [Call; 11] = [
    Call::Append(0, 1),
    Call::Append(0, 2),
    Call::Append(3, 3),
    Call::Cut(3, 0),
    Call::Clear(3),
    Call::AppendAll(3, 0),
    Call::AppendAll(0, 3),
    Call::AppendAll(0, 0),
    Call::Same(3, 3),
    Call::Cut(0, 9),
    Call::AppendAll(0, 1),
];

fn main(rt: HostRuntime) -> io::Result<()> {
    run(&rt, &FILL_AND_FREE)?;
    run(&rt, &EDGES)?;
    fields(&rt)?;
    hashes(&rt)
}

fn link_to(number: usize) -> Link {
    Link {
        width: LinkWidth::Two,
        is_signed: false,
        whence: OffsetWhence::Head,
        bias: 0,
        position: 4,
        objidx: ObjIdx(number),
    }
}

// The calls one after another on three lists with four cells, and then what stands in each list.
fn run(rt: &HostRuntime, calls: &[Call]) -> io::Result<()> {
    let mut links = Links::new(rt.alloc(), 3, 4)?;
    for call in calls {
        step(rt, &mut links, *call)?;
    }
    for list in 0..4 {
        show(rt, &links, list)?;
    }
    Ok(())
}

fn step(rt: &HostRuntime, links: &mut Links, call: Call) -> io::Result<()> {
    let answer = match call {
        Call::Append(list, number) => links.append(list, link_to(number)),
        Call::Cut(list, n) => links.cut(list, n),
        Call::Clear(list) => links.clear(list),
        Call::AppendAll(to, from) => links.append_all(to, from),
        Call::Same(a, b) => links.same(a, b),
    };
    println!(rt; "{answer}, {} of {}", links.used(), links.cells())
}

// The length of a list, its second and last link, and all of them, by the objects that they lead to.
fn show(rt: &HostRuntime, links: &Links, list: usize) -> io::Result<()> {
    let len = links.len(list);
    let second = links.get(list, 1).map(number);
    let last = links.last(list).map(number);
    print!(rt; "list {list}: len {len:?} second {second:?} last {last:?}:")?;
    for link in links.iter(list) {
        print!(rt; " {}", link.objidx)?;
    }
    println!(rt; ".")
}

fn number(link: Link) -> usize {
    link.objidx.0
}

// Lists of one link are the same if every field is: the first pair alone.
fn fields(rt: &HostRuntime) -> io::Result<()> {
    let base = link_to(1);
    let others = [
        base,
        Link {
            width: LinkWidth::Four,
            ..base
        },
        Link {
            is_signed: true,
            ..base
        },
        Link {
            whence: OffsetWhence::Tail,
            ..base
        },
        Link { bias: 1, ..base },
        Link {
            position: 5,
            ..base
        },
        link_to(2),
    ];
    for other in others {
        let mut links = Links::new(rt.alloc(), 2, 2)?;
        let _ = links.append(0, base);
        let _ = links.append(1, other);
        println!(rt; "same: {}", links.same(0, 1))?;
    }
    Ok(())
}

// The hash of no link, of one, of two, of which the second has every field set, and of a list that there is not.
fn hashes(rt: &HostRuntime) -> io::Result<()> {
    let full = Link {
        width: LinkWidth::Three,
        is_signed: true,
        whence: OffsetWhence::Absolute,
        bias: 0x01020304,
        position: 0x05060708,
        objidx: ObjIdx(0x090a0b0c0d0e0f10),
    };
    let mut links = Links::new(rt.alloc(), 3, 3)?;
    let _ = links.append(1, link_to(1));
    let _ = links.append(2, link_to(1));
    let _ = links.append(2, full);
    for list in 0..4 {
        let mut hasher = FnvHasher::new();
        links.feed(list, &mut hasher);
        println!(rt; "hash of list {list}: {:016x}", hasher.finish())?;
    }
    Ok(())
}
