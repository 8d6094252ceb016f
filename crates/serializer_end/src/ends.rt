// The call that ends a serializer.
ghost use Rattle.std.specs.Prelude.{◌≡◌, false};
ghost use Rattle.model.specs.Closing.{pop_pack};
ghost use Rattle.model.specs.Ending.{finish as finished, end_serialize};
ghost use Rattle.serializer_state.specs.View.{view};

use crate::resolving::{end_flagged, finish};
use register::Register;
use serializer_close::pop_pack;
use serializer_state::SerializerState;

// Closes the innermost object, without sharing, and ends the serializer.
fn end_packed<R: Register>(s: &mut SerializerState, register: &mut R)
    ensures state { view s.new ≡ (finished (pop_pack false (view s.old) (R.Register.holds register.old))).state }
    ensures register { R.Register.holds register.new ≡ (pop_pack false (view s.old) (R.Register.holds register.old)).register }
{
    let _ = pop_pack(s, false, register);
    finish(s);
}

// Closes the last object, without sharing, and writes the fields of all links. It does nothing once ended or
// with nothing open, and with nothing packed the object stays open; under a flag it only adds OTHER to an
// offset overflow.
pub fn end_serialize<R: Register>(s: &mut SerializerState, register: &mut R)
    ensures state { view s.new ≡ (end_serialize (view s.old) (R.Register.holds register.old)).state }
    ensures register { R.Register.holds register.new ≡ (end_serialize (view s.old) (R.Register.holds register.old)).register }
{
    if s.ended {
        return;
    }
    if s.nothing_open() {
        return;
    }
    if s.flags.in_error() {
        end_flagged(s);
        return;
    }
    if s.objects.packed_count() == 0 {
        return;
    }
    end_packed(s, register);
}
