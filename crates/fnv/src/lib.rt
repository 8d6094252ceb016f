// FNV-1a at 64 bits, as its public description has it: from the offset basis on, for each byte an exclusive
// or with the byte, then a multiplication by the FNV prime, kept to 64 bits.
#![tactic(auto)]

ghost use Rattle.std.specs.Prelude.{◌≡◌};
ghost use Rattle.fnv.specs.Fnv.{offset_basis, fed, hashed_from, hashed};

use std::hash::Hasher;

const OFFSET_BASIS: u64 = 0xcbf2_9ce4_8422_2325;

const FNV_PRIME: u64 = 0x0100_0000_01b3;

// The hash of the bytes that were written so far.
#[derive(Clone, Copy, PartialEq, Eq, Debug)]
pub struct FnvHasher(pub u64);

impl FnvHasher {
    // Before any byte.
    pub fn new() -> FnvHasher
        ensures answer { result.0 ≡ offset_basis }
    {
        FnvHasher(OFFSET_BASIS)
    }
}

impl Hasher for FnvHasher {
    ghost write = { λ hasher bytes. record { 0 = hashed_from hasher.0 bytes } };

    ghost finish = { λ hasher. hasher.0 };

    // Feeds bytes, in their order.
    fn write(&mut self, bytes: &[u8])
        ensures state { self.new.0 ≡ hashed_from self.old.0 bytes.now }
    {
        *self = FnvHasher(feed(self.0, bytes));
    }

    // The hash of all that was fed.
    fn finish(&self) -> u64
        ensures answer { result ≡ self.now.0 }
    {
        self.0
    }
}

// One byte more.
fn mix(hash: u64, byte: u8) -> u64
    ensures answer { result ≡ fed hash byte }
{
    (hash ^ u64::from(byte)).wrapping_mul(FNV_PRIME)
}

// The bytes one after another, from a hash on. It stays a loop over them and no fold: so the public description
// of the hash has it, for each byte an exclusive or and then a multiplication.
fn feed(mut hash: u64, bytes: &[u8]) -> u64
    ensures answer { result ≡ hashed_from hash bytes.now }
{
    for byte in bytes {
        hash = mix(hash, *byte);
    }
    hash
}

// The hash of some bytes.
pub fn fnv1a(bytes: &[u8]) -> u64
    ensures answer { result ≡ hashed bytes.now }
{
    let mut hasher = FnvHasher::new();
    hasher.write(bytes);
    hasher.finish()
}
