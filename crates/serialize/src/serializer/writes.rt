// Bytes taken and written at head, and bytes assigned and read at a place.
ghost use Rattle.std.specs.Prelude.{◌≡◌, IfSome, if◌then◌else◌, Some, None, nat_le};
ghost use Rattle.std.specs.Option.{option_map};
ghost use Rattle.model.specs.Writing.{allocate_size, pad as padded, embed_bytes, embed as embedded, copy_assign_from_bytes, copy_assign, check_assign};
ghost use Rattle.model.specs.Reading.{value_at};

use super::Serializer;
use cursor::flags::SerializeErrorFlags;
use scalar::{CountScalar, Scalar};

impl Serializer {
    // Takes so many bytes at head, cleared if told, and answers where they start.
    pub fn allocate_size(&mut self, size: usize, clear: bool) -> Result<usize, SerializeErrorFlags>
        ensures answer { result ≡ (allocate_size size clear self.old).1 }
        ensures state { self.new ≡ (allocate_size size clear self.old).0 }
    {
        serializer_write::allocate_size(&mut self.state, size, clear)
    }

    // Takes so many bytes at head as they are, and answers where they start.
    pub fn pad(&mut self, count: usize) -> Result<usize, SerializeErrorFlags>
        ensures answer { result ≡ (padded count self.old).1 }
        ensures state { self.new ≡ (padded count self.old).0 }
    {
        serializer_write::pad(&mut self.state, count)
    }

    // Writes a scalar at head, and answers where it starts.
    pub fn embed<S: Scalar>(&mut self, obj: S) -> Result<usize, SerializeErrorFlags>
        ensures answer { result ≡ (embedded (S.Scalar.bytes obj) self.old).1 }
        ensures state { self.new ≡ (embedded (S.Scalar.bytes obj) self.old).0 }
        ensures fits { S.Scalar.fits obj }
    {
        serializer_write::embed(&mut self.state, obj)
    }

    // Writes bytes at head, and answers where they start.
    pub fn embed_bytes(&mut self, bytes: &[u8]) -> Result<usize, SerializeErrorFlags>
        ensures answer { result ≡ (embed_bytes bytes.now self.old).1 }
        ensures state { self.new ≡ (embed_bytes bytes.now self.old).0 }
    {
        serializer_write::embed_bytes(&mut self.state, bytes)
    }

    // Assigns a scalar from a place on, which must end at or before tail.
    pub fn copy_assign<S: Scalar>(&mut self, pos: usize, obj: S)
        ensures state { self.new ≡ copy_assign pos (S.Scalar.bytes obj) self.old }
        ensures fits { S.Scalar.fits obj }
    {
        serializer_write::copy_assign(&mut self.state, pos, obj)
    }

    // Assigns bytes from a place on, which must end at or before tail.
    pub fn copy_assign_from_bytes(&mut self, pos: usize, from_bytes: &[u8])
        ensures state { self.new ≡ copy_assign_from_bytes pos from_bytes.now self.old }
    {
        serializer_write::copy_assign_from_bytes(&mut self.state, pos, from_bytes)
    }

    // Assigns a count from a place on; one that the scalar cannot hold sets the flags that the caller names. The
    // parameters are those of the Rust crate's method.
    pub fn check_assign<S: CountScalar>(
        &mut self,
        pos: usize,
        obj: usize,
        err_type: SerializeErrorFlags,
    ) -> Result<(), SerializeErrorFlags>
        ensures answer { result ≡ (check_assign pos (option_map S.Scalar.bytes (if nat_le obj S.CountScalar.most then Some (S.CountScalar.counting obj) else None)) err_type self.old).1 }
        ensures state { self.new ≡ (check_assign pos (option_map S.Scalar.bytes (if nat_le obj S.CountScalar.most then Some (S.CountScalar.counting obj) else None)) err_type self.old).0 }
    {
        serializer_write::check_assign::<S>(&mut self.state, pos, obj, err_type)
    }

    // Reads a scalar from a place on, wherever it lies in the memory.
    pub fn get_value_at<S: Scalar>(&self, pos: usize) -> Option<S>
        ensures answer { result ≡ value_at S.Scalar.reads S.Scalar.width pos self.now }
        ensures bytes { option_map S.Scalar.bytes result ≡ value_at (λ bs. bs) S.Scalar.width pos self.now }
        ensures fits { IfSome result S.Scalar.fits }
    {
        serializer_write::get_value_at(&self.state, pos)
    }
}
