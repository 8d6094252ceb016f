// What follows the last object: the serializer is ended, and the fields of links are written.
ghost use Rattle.std.specs.Prelude.{◌≡◌};
ghost use Rattle.model.specs.Ending.{resolve, end_flagged};
ghost use Rattle.model.specs.State.{with_ended};
ghost use Rattle.serializer_state.specs.View.{view};

use offset_fields::write_fields;
use serializer_state::SerializerState;

// Adds OTHER to an offset overflow.
pub(crate) fn end_flagged(s: &mut SerializerState)
    ensures state { view s.new ≡ end_flagged (view s.old) }
{
    if !s.flags.offset_overflow() {
        return;
    }
    let _ = s.other();
}

// Ends the serializer and writes the fields of all links, unless a flag stands. An object that is still open
// sets OTHER.
pub(crate) fn finish(s: &mut SerializerState)
    ensures state { view s.new ≡ resolve (with_ended (view s.old)) }
{
    s.ended = true;
    if s.flags.in_error() {
        return;
    }
    if !s.nothing_open() {
        let _ = s.other();
        return;
    }
    write_fields(&s.objects, s.cursor, &mut s.memory, &mut s.flags);
}
