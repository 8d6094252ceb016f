// What is asked of the flags that stand, of the open object's length, and of the memory's size. They are functions
// of the state by which this crate can be used alone; the methods of the type `Serializer` hand on to them.
ghost use Rattle.std.specs.Prelude.{◌≡◌};
ghost use Rattle.model.specs.Reading.{error as flags_of, in_error, successful as is_successful, ran_out_of_room, has_offset_overflow, only_offset_overflow, only_overflow, open_length, allocated as allocated_of};
ghost use Rattle.serializer_state.specs.View.{view};

use cursor::flags::SerializeErrorFlags;
use objects::Which;
use serializer_state::SerializerState;

// The flags that stand.
pub fn error(s: &SerializerState) -> SerializeErrorFlags
    ensures answer { result ≡ flags_of (view s.now) }
{
    s.flags
}

// Whether a flag stands.
pub fn in_error(s: &SerializerState) -> bool
    ensures answer { result ≡ in_error (view s.now) }
{
    s.flags.in_error()
}

// Whether no flag stands.
pub fn successful(s: &SerializerState) -> bool
    ensures answer { result ≡ is_successful (view s.now) }
{
    s.flags.successful()
}

pub fn ran_out_of_room(s: &SerializerState) -> bool
    ensures answer { result ≡ ran_out_of_room (view s.now) }
{
    s.flags.ran_out_of_room()
}

pub fn offset_overflow(s: &SerializerState) -> bool
    ensures answer { result ≡ has_offset_overflow (view s.now) }
{
    s.flags.offset_overflow()
}

pub fn only_offset_overflow(s: &SerializerState) -> bool
    ensures answer { result ≡ only_offset_overflow (view s.now) }
{
    s.flags.only_offset_overflow()
}

// Whether exactly one overflow stands.
pub fn only_overflow(s: &SerializerState) -> bool
    ensures answer { result ≡ only_overflow (view s.now) }
{
    s.flags.only_overflow()
}

// How many bytes the memory has.
pub fn allocated(s: &SerializerState) -> usize
    ensures answer { result ≡ allocated_of (view s.now) }
{
    s.memory.len()
}

// How many bytes were taken since the open object was opened: 0 if head lies before its start, or none is open.
pub fn length(s: &SerializerState) -> usize
    ensures answer { result ≡ open_length (view s.now) }
{
    s.objects.outline(Which::Innermost).map_or(
        0,
        |object| s.cursor.head.saturating_sub(object.extent.head),
    )
}
