// Calls as readable lines.
use crate::call::{Call, Reading};
use crate::scalar_value::{CountKind, ScalarKind, ScalarValue};
use std::fmt;

// Bytes as hexadecimal pairs, or a dash where there are none.
#[derive(Clone, Copy)]
pub struct Hex<'a>(pub &'a [u8]);

impl fmt::Display for Hex<'_> {
    fn fmt<W: fmt::Write>(&self, f: &mut fmt::Formatter<W>) -> fmt::Result {
        if self.0.is_empty() {
            return f.write_str("-");
        }
        for byte in self.0 {
            write!(f, "{byte:02x}")?;
        }
        Ok(())
    }
}

// The words of the three flags of calls: a bool shows itself as true or false, which would not say of what.
fn sign_name(is_signed: bool) -> &'static str {
    if is_signed { "signed" } else { "unsigned" }
}

fn share_name(share: bool) -> &'static str {
    if share { "share" } else { "keep" }
}

fn clear_name(clear: bool) -> &'static str {
    if clear { "clear" } else { "dirty" }
}

impl fmt::Display for ScalarKind {
    fn fmt<W: fmt::Write>(&self, f: &mut fmt::Formatter<W>) -> fmt::Result {
        f.write_str(match self {
            ScalarKind::U8 => "u8",
            ScalarKind::U16 => "u16",
            ScalarKind::I16 => "i16",
            ScalarKind::U32 => "u32",
            ScalarKind::U24 => "u24",
            ScalarKind::Tag => "tag",
        })
    }
}

impl fmt::Display for CountKind {
    fn fmt<W: fmt::Write>(&self, f: &mut fmt::Formatter<W>) -> fmt::Result {
        ScalarKind::from(*self).fmt(f)
    }
}

// The kind and the number.
impl fmt::Display for ScalarValue {
    fn fmt<W: fmt::Write>(&self, f: &mut fmt::Formatter<W>) -> fmt::Result {
        let kind = ScalarKind::from(*self);
        match *self {
            ScalarValue::U8(x) => write!(f, "{kind} {x}"),
            ScalarValue::U16(x) => write!(f, "{kind} {x}"),
            ScalarValue::I16(x) => write!(f, "{kind} {x}"),
            ScalarValue::U32(x) | ScalarValue::U24(x) => write!(f, "{kind} {x}"),
            ScalarValue::Tag(tag) => write!(f, "{kind} {}", u32::from_be_bytes(tag.0)),
        }
    }
}

impl fmt::Display for Reading {
    fn fmt<W: fmt::Write>(&self, f: &mut fmt::Formatter<W>) -> fmt::Result {
        match *self {
            Reading::Error => f.write_str("error"),
            Reading::InError => f.write_str("in_error"),
            Reading::Successful => f.write_str("successful"),
            Reading::RanOutOfRoom => f.write_str("ran_out_of_room"),
            Reading::OffsetOverflow => f.write_str("offset_overflow"),
            Reading::OnlyOffsetOverflow => f.write_str("only_offset_overflow"),
            Reading::OnlyOverflow => f.write_str("only_overflow"),
            Reading::Head => f.write_str("head"),
            Reading::Tail => f.write_str("tail"),
            Reading::Allocated => f.write_str("allocated"),
            Reading::PackedCount => f.write_str("packed_count"),
            Reading::Length => f.write_str("length"),
            Reading::LastAddedChildIndex => f.write_str("last_added_child_index"),
            Reading::GetValueAt(kind, pos) => write!(f, "get_value_at {kind} {pos}"),
            Reading::CopyBytes(room) => write!(f, "copy_bytes {room}"),
            Reading::Object(number) => write!(f, "object {number}"),
            Reading::RealLink(number, i) => write!(f, "real_link {number} {i}"),
            Reading::VirtualLink(number, i) => write!(f, "virtual_link {number} {i}"),
        }
    }
}

impl fmt::Display for Call<'_> {
    fn fmt<W: fmt::Write>(&self, f: &mut fmt::Formatter<W>) -> fmt::Result {
        match *self {
            Call::SetErr(flags) => write!(f, "set_err {flags}"),
            Call::StartSerialize => f.write_str("start_serialize"),
            Call::Push => f.write_str("push"),
            Call::AllocateSize(size, clear) => {
                write!(f, "allocate_size {size} {}", clear_name(clear))
            }
            Call::Pad(size) => write!(f, "pad {size}"),
            Call::Embed(value) => write!(f, "embed {value}"),
            Call::EmbedBytes(bytes) => write!(f, "embed_bytes {}", Hex(bytes)),
            Call::CopyAssign(pos, value) => write!(f, "copy_assign {pos} {value}"),
            Call::CopyAssignFromBytes(pos, bytes) => {
                write!(f, "copy_assign_from_bytes {pos} {}", Hex(bytes))
            }
            Call::CheckAssign {
                pos,
                kind,
                count,
                flags,
            } => write!(f, "check_assign {pos} {kind} {count} {flags}"),
            Call::AddLink {
                from,
                to,
                number,
                whence,
                bias,
                is_signed,
            } => {
                let sign = sign_name(is_signed);
                write!(f, "add_link {from} {to} {number} {whence} {bias} {sign}")
            }
            Call::AddVirtualLink(number) => write!(f, "add_virtual_link {number}"),
            Call::RepackLast(number) => write!(f, "repack_last {number}"),
            Call::PopPack(share) => write!(f, "pop_pack {}", share_name(share)),
            Call::PopDiscard => f.write_str("pop_discard"),
            Call::Snapshot => f.write_str("snapshot"),
            Call::RevertSnapshot(call) => write!(f, "revert_snapshot {call}"),
            Call::EndSerialize => f.write_str("end_serialize"),
            Call::Read(reading) => write!(f, "{reading}"),
            Call::Enter(hash, number) => write!(f, "enter {hash} {number}"),
            Call::Strike(hash, number) => write!(f, "strike {hash} {number}"),
        }
    }
}
