// What a call of a list answered, as a value of its own.
use calls::ScalarValue;
use cursor::flags::SerializeErrorFlags;
use link::{Link, ObjIdx};
use model::snapshot::Snapshot;
use serialize::ObjectView;

// A packed object as it was read, with a copy of its bytes.
pub type SeenObject = ObjectView<Vec<u8>>;

#[derive(Drop)]
pub enum Answer {
    Nothing,
    Done(Result<(), SerializeErrorFlags>),
    // Where the bytes that were taken start.
    Place(Result<usize, SerializeErrorFlags>),
    Number(Option<ObjIdx>),
    Flags(SerializeErrorFlags),
    Whether(bool),
    Amount(usize),
    Value(Option<ScalarValue>),
    Bytes(Option<Vec<u8>>),
    Object(Option<SeenObject>),
    Linked(Option<Link>),
    Taken(Snapshot),
}
