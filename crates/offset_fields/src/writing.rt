// One offset written into its field, or the flag that says why it is not.
ghost use Rattle.std.specs.Prelude.{◌≡◌, ◌^◌, ◌<◌, if◌then◌else◌};
ghost use Rattle.cursor.specs.declared.cursor.Cursor.{Cursor};
ghost use Rattle.link.specs.Width.{bytes_of_width};
ghost use Rattle.model.specs.Ending.{largest, put_field};
ghost use Rattle.objects.specs.Contents.{Contents};
ghost use Rattle.scalar.specs.BigEndian.{big_endian};
ghost use Rattle.scalar.specs.Place.{room, write};
ghost use Rattle.offset_fields.specs.Passes.{ending, field_at};

use crate::walk::Placed;
use cursor::flags::SerializeErrorFlags;
use link::LinkWidth;
use memory::{part_of, put_bytes};
use scalar::Scalar;

// The largest offset that a field holds.
fn largest_of(width: LinkWidth, is_signed: bool) -> usize
    ensures answer { result ≡ largest (bytes_of_width width) is_signed }
    ensures small { result < 2 ^ 32 }
{
    let unsigned = match width {
        LinkWidth::Zero => 0,
        LinkWidth::Two => 0xFFFF,
        LinkWidth::Three => 0xFF_FFFF,
        LinkWidth::Four => 0xFFFF_FFFF,
    };
    if is_signed { unsigned / 2 } else { unsigned }
}

// Writes a number in as many bytes as the width has, exactly if they have room there. There is one way to fail, so
// that a bool says it, as for `put_bytes`.
fn write_number(memory: &mut [u8], at: usize, width: LinkWidth, number: u32) -> bool
    ensures answer { result ≡ room memory.old at (bytes_of_width width) }
    ensures state { memory.new ≡ (if result then write memory.old at (big_endian (bytes_of_width width) number) else memory.old) }
{
    let raw = number.raw();
    put_bytes(memory, at, part_of(&raw, 4 - width.size(), 4))
}

// Writes an offset into the field of a placed link. One above the largest that the field holds sets
// OFFSET_OVERFLOW; a field past the end of the memory sets OTHER.
pub(crate) fn put_offset(
    memory: &mut [u8],
    flags: &mut SerializeErrorFlags,
    placed: Placed,
    offset: usize,
)
    ensures state { (k : Cursor) (c : Contents) → ending memory.new flags.new k c ≡ put_field (field_at placed offset) (ending memory.old flags.old k c) }
{
    let Placed { parent, link } = placed;
    if link.width == LinkWidth::Zero {
        return;
    }
    if offset > largest_of(link.width, link.is_signed) {
        flags.set_err(SerializeErrorFlags::SERIALIZE_ERROR_OFFSET_OVERFLOW);
        return;
    }
    let at = parent.head.saturating_add(link.position as usize);
    if !write_number(memory, at, link.width, offset as u32) {
        flags.set_err(SerializeErrorFlags::SERIALIZE_ERROR_OTHER);
    }
}
