// The published test vectors of FNV-1a at 64 bits, each hashed and compared.
#![tactic(auto)]

use anyhow::anyhow;
use fnv::fnv1a;

// A text and its hash as published.
#[derive(Clone, Copy)]
struct Vector<'a>(&'a [u8], u64);

static VECTORS: [Vector<'static>; 16] = [
    Vector(b"", 0xcbf29ce484222325),
    Vector(b"a", 0xaf63dc4c8601ec8c),
    Vector(b"b", 0xaf63df4c8601f1a5),
    Vector(b"c", 0xaf63de4c8601eff2),
    Vector(b"d", 0xaf63d94c8601e773),
    Vector(b"e", 0xaf63d84c8601e5c0),
    Vector(b"f", 0xaf63db4c8601ead9),
    Vector(b"fo", 0x08985907b541d342),
    Vector(b"foo", 0xdcb27518fed9d577),
    Vector(b"foob", 0xdd120e790c2512af),
    Vector(b"fooba", 0xcac165afa2fef40a),
    Vector(b"foobar", 0x85944171f73967e8),
    Vector(b"\0", 0xaf63bd4c8601b7df),
    Vector(b"a\0", 0x089be207b544f1e4),
    Vector(b"foobar\0", 0x34531ca7168b8f38),
    Vector(b"chongo was here!\n", 0x46810940eff5f915),
];

fn main(rt: HostRuntime) -> anyhow::Result<()> {
    // A loop: `find` would name the vector that differs, and its hash would be taken a second time to print it.
    for Vector(text, published) in &VECTORS {
        let hash = fnv1a(text);
        if hash != *published {
            println!(rt; "hashed {hash:016x}, published {published:016x}")?;
            return Err(anyhow!("a published vector of FNV-1a differs"));
        }
    }
    println!(rt; "{} published vectors of FNV-1a agree", VECTORS.len())?;
    Ok(())
}
