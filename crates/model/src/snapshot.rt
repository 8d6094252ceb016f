// What a snapshot records, so that the serializer can be taken back to it.
use cursor::flags::SerializeErrorFlags;
use link::PoolIdx;

#[derive(Drop)]
pub struct Snapshot {
    pub head: usize,
    pub tail: usize,
    // The slot of the object that was open, if any, and how many links it had.
    pub current: Option<PoolIdx>,
    pub num_real_links: usize,
    pub num_virtual_links: usize,
    pub errors: SerializeErrorFlags,
}
