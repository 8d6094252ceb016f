// Parts of the serializer's memory: looked at, compared, hashed, written, cleared and moved over themselves.
// What changes them answers a bool: all that declines is a range that is not within the memory, which the caller can tell.
#![tactic(auto)]

ghost use Rattle.std.specs.Prelude.{◌≡◌, length, take, replicate, if◌then◌else◌};
ghost use Rattle.fnv.specs.Fnv.{offset_basis, hashed_from};
ghost use Rattle.scalar.specs.Place.{room, write, part};
ghost use Rattle.model.specs.Closing.{same_bytes};
ghost use Rattle.memory.specs.Move.{movable};

use fnv::FnvHasher;
use scalar::has_room;
use std::hash::Hasher;

// How many bytes of an object are hashed.
const HASHED: usize = 128;

// The bytes from one place up to another, as far as they are there.
pub fn part_of(memory: &[u8], from: usize, to: usize) -> &[u8]
    ensures answer { result.now ≡ part memory.now from to }
{
    memory.get(from..to.min(memory.len())).unwrap_or(&[])
}

// Whether two parts have the same bytes.
pub fn same_parts(a: &[u8], b: &[u8]) -> bool
    ensures answer { result ≡ same_bytes a.now b.now }
{
    a == b
}

// A hasher that was fed the first bytes of a part, 128 at most.
pub fn hash_of(bytes: &[u8]) -> FnvHasher
    ensures answer { result.0 ≡ hashed_from offset_basis (take 128 bytes.now) }
{
    let mut hasher = FnvHasher::new();
    hasher.write(part_of(bytes, 0, HASHED));
    hasher
}

// Writes bytes from a place on, exactly if they have room there.
pub fn put_bytes(memory: &mut [u8], at: usize, bytes: &[u8]) -> bool
    ensures answer { result ≡ room memory.old at (length bytes.now) }
    ensures state { memory.new ≡ (if result then write memory.old at bytes.now else memory.old) }
{
    let size = bytes.len();
    let fits = has_room(memory.len(), at, size);
    if fits {
        memory[at..at + size].copy_from_slice(bytes);
    }
    fits
}

// Clears bytes from a place on, exactly if they lie within the memory.
pub fn clear(memory: &mut [u8], at: usize, size: usize) -> bool
    ensures answer { result ≡ room memory.old at size }
    ensures state { memory.new ≡ (if result then write memory.old at (replicate size 0) else memory.old) }
{
    let fits = has_room(memory.len(), at, size);
    if fits {
        memory[at..at + size].fill(0);
    }
    fits
}

// Copies the bytes from one place up to another to a third place, over themselves where they overlap, exactly
// if both lie within the memory.
pub fn move_part(memory: &mut [u8], from: usize, to: usize, at: usize) -> bool
    ensures answer { result ≡ movable memory.old from to at }
    ensures state { memory.new ≡ (if result then write memory.old at (part memory.old from to) else memory.old) }
{
    let len = memory.len();
    let fits = from <= to && to <= len && has_room(len, at, to - from);
    if fits {
        memory.copy_within(from..to, at);
    }
    fits
}
