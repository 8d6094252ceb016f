// A call with its arguments.
use crate::scalar_value::{CountKind, ScalarKind, ScalarValue};
use cursor::flags::SerializeErrorFlags;
use link::{ObjIdx, OffsetWhence};

// A call that only reads.
#[derive(Clone, Copy, PartialEq, Eq, Debug)]
pub enum Reading {
    Error,
    InError,
    Successful,
    RanOutOfRoom,
    OffsetOverflow,
    OnlyOffsetOverflow,
    OnlyOverflow,
    Head,
    Tail,
    Allocated,
    PackedCount,
    Length,
    LastAddedChildIndex,
    GetValueAt(ScalarKind, usize),
    // Into memory of so many bytes.
    CopyBytes(usize),
    Object(ObjIdx),
    RealLink(ObjIdx, usize),
    VirtualLink(ObjIdx, usize),
}

#[derive(Clone, Copy, PartialEq, Eq, Debug)]
pub enum Call<'a> {
    SetErr(SerializeErrorFlags),
    StartSerialize,
    Push,
    AllocateSize(usize, bool),
    Pad(usize),
    Embed(ScalarValue),
    EmbedBytes(&'a [u8]),
    CopyAssign(usize, ScalarValue),
    CopyAssignFromBytes(usize, &'a [u8]),
    CheckAssign {
        pos: usize,
        kind: CountKind,
        count: usize,
        flags: SerializeErrorFlags,
    },
    AddLink {
        from: usize,
        to: usize,
        number: ObjIdx,
        whence: OffsetWhence,
        bias: u32,
        is_signed: bool,
    },
    AddVirtualLink(ObjIdx),
    RepackLast(ObjIdx),
    PopPack(bool),
    PopDiscard,
    Snapshot,
    // To the snapshot that the n-th call of the list took, counted from 0.
    RevertSnapshot(usize),
    EndSerialize,
    Read(Reading),
    // The register's owner enters or strikes a pair.
    Enter(u64, ObjIdx),
    Strike(u64, ObjIdx),
}
