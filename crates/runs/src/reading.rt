// The calls that only read.
ghost use Rattle.std.specs.Prelude.{◌≡◌, IfOk, length, vec_items};
ghost use Rattle.std.specs.Option.{option_map};
ghost use Rattle.model.specs.Reading.{copied, object as object_seen};
ghost use Rattle.model.specs.Run.{reading};
ghost use Rattle.calls.specs.Meaning.{reading_of};
ghost use Rattle.serializer_read.specs.Reads.{seen_in};
ghost use Rattle.runs.specs.Told.{answer_of, seen_as};

use crate::answer::{Answer, SeenObject};
use crate::scalars::get_value_at;
use calls::Reading;
use link::ObjIdx;
use serialize::{ObjectView, Serializer};
use std::alloc::{AllocError, Global};

// The output, over the start of a vector that is cut to it, if it has room there.
fn copied_over(mut out: Vec<u8>, s: &Serializer) -> Option<Vec<u8>>
    ensures answer { option_map vec_items result ≡ copied (length out.items) s.now }
{
    let count = s.copy_bytes(&mut out)?;
    out.truncate(count);
    Some(out)
}

// The output, in a vector of its own, if it has at most so many bytes.
fn copy_bytes(heap: Global, s: &Serializer, room: usize) -> Result<Option<Vec<u8>>, AllocError>
    ensures answer { IfOk result (λ o. option_map vec_items o ≡ copied room s.now) }
{
    Ok(copied_over(vec![in heap; 0u8; room]?, s))
}

// The object that was handed out, with a copy of its bytes.
fn keep(heap: Global, object: ObjectView<&[u8]>) -> Result<SeenObject, AllocError>
    ensures answer { IfOk result (λ o. seen_as o ≡ seen_in object.entry) }
{
    Ok(ObjectView {
        head: object.head,
        tail: object.tail,
        num_real_links: object.num_real_links,
        num_virtual_links: object.num_virtual_links,
        bytes: object.bytes.to_vec(heap)?,
    })
}

// A packed object, with a copy of its bytes.
fn object(heap: Global, s: &Serializer, number: ObjIdx) -> Result<Option<SeenObject>, AllocError>
    ensures answer { IfOk result (λ o. option_map seen_as o ≡ object_seen number s.now) }
{
    s.object(number)
        .map(|object| keep(heap, object))
        .transpose()
}

// Makes a call that only reads. Only the bytes that it answers take memory.
pub(crate) fn read(heap: Global, s: &Serializer, what: Reading) -> Result<Answer, AllocError>
    ensures answer { IfOk result (λ a. answer_of a ≡ reading (reading_of what) s.now) }
{
    match what {
        Reading::Error => Ok(Answer::Flags(s.error())),
        Reading::InError => Ok(Answer::Whether(s.in_error())),
        Reading::Successful => Ok(Answer::Whether(s.successful())),
        Reading::RanOutOfRoom => Ok(Answer::Whether(s.ran_out_of_room())),
        Reading::OffsetOverflow => Ok(Answer::Whether(s.offset_overflow())),
        Reading::OnlyOffsetOverflow => Ok(Answer::Whether(s.only_offset_overflow())),
        Reading::OnlyOverflow => Ok(Answer::Whether(s.only_overflow())),
        Reading::Head => Ok(Answer::Amount(s.head())),
        Reading::Tail => Ok(Answer::Amount(s.tail())),
        Reading::Allocated => Ok(Answer::Amount(s.allocated())),
        Reading::PackedCount => Ok(Answer::Amount(s.packed_count())),
        Reading::Length => Ok(Answer::Amount(s.length())),
        Reading::LastAddedChildIndex => Ok(Answer::Number(s.last_added_child_index())),
        Reading::GetValueAt(kind, pos) => Ok(Answer::Value(get_value_at(s, kind, pos))),
        Reading::CopyBytes(room) => Ok(Answer::Bytes(copy_bytes(heap, s, room)?)),
        Reading::Object(number) => Ok(Answer::Object(object(heap, s, number)?)),
        Reading::RealLink(number, i) => Ok(Answer::Linked(s.real_link(number, i))),
        Reading::VirtualLink(number, i) => Ok(Answer::Linked(s.virtual_link(number, i))),
    }
}
