// Numbers and tags that stand in a font file as one to four bytes, the most significant first.
#![tactic(auto)]

ghost use Rattle.std.specs.Prelude.{◌≡◌, ℕ, Bool, List, take, if◌then◌else◌, Some, None, nat_le};
ghost use Rattle.scalar.specs.BigEndian.{Notation};
ghost use Rattle.scalar.specs.Place.{in_four};
ghost use Rattle.scalar.specs.Scalars.{ScalarLaws, CountLaws};

pub mod buffer;
pub mod kinds;
pub mod numbers;

pub use buffer::{has_room, read_at, write_at, write_read};
pub use kinds::{Tag, Uint24, Uint24Overflow};

// A value that stands in a file as a few bytes. Its raw form is an array of four, of which the first are used.
pub trait Scalar: Sized {
    // How many bytes it takes, which ones stand for a value, and which value bytes stand for.
    ghost width: { ℕ };

    ghost bytes: { Self → List ℕ };

    ghost reads: { List ℕ → Self };

    // What the type guarantees of a value.
    ghost fits: { Self → Type 0 };

    // How many bytes it takes.
    fn size() -> usize
        ensures { result ≡ width };

    // Its bytes, first in the array, and zeros after them.
    fn raw(self) -> [u8; 4]
        ensures answer { result ≡ in_four (bytes self) }
        ensures fits { fits self };

    // The value that the first bytes of the array stand for.
    fn from_raw(raw: [u8; 4]) -> Self
        ensures answer { result ≡ reads (take width raw) }
        ensures fits { fits result };

    // It takes one to four bytes, which are read back as the value, and any bytes are those of the value that they
    // stand for.
    ghost laws: { ScalarLaws width bytes reads fits };
}

// A scalar that can hold a count.
pub trait CountScalar: Scalar {
    // Whether half of its values are negative.
    ghost signed: { Bool };

    // The largest count, and the value that stands for a count.
    ghost most: { ℕ };

    ghost counting: { ℕ → Self };

    // The value that stands for a count, exactly if there is one.
    fn from_count(n: usize) -> Option<Self>
        ensures { result ≡ (if nat_le n most then Some (counting n) else None) };

    // Its bytes hold every number that has room beside a sign, if there is one, and the bytes of a count show it.
    ghost laws: { CountLaws Self.Scalar.width Self.Scalar.bytes Self.Scalar.fits signed most counting };
}

// Big-endian bytes are a notation for numbers, at every width: each number has its bytes, and bytes have one number.
pub fn big_endian_holds()
    ensures { Notation }
{}
