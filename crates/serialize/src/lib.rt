// The serializer: OpenType subtables packed into one memory from both ends, with their offsets resolved at
// the end. All calls are methods of one type.
#![tactic(auto)]

pub mod serializer;

pub use cursor::flags::SerializeErrorFlags;
pub use link::{Link, LinkWidth, ObjIdx, OffsetWhence};
pub use model::limit::Limit;
pub use model::snapshot::Snapshot;
pub use serializer::Serializer;
pub use serializer_new::Memory;
pub use serializer_read::ObjectView;
