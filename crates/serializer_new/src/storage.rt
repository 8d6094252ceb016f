// The memory of a serializer: bytes, object slots and link cells, made once and used for one serializer after
// another.
use objects::Objects;

pub mod makes;

#[derive(Drop)]
pub struct Memory {
    pub(crate) bytes: Vec<u8>,
    pub(crate) objects: Objects,
}
