// The open object discarded.
ghost use Rattle.std.specs.Prelude.{◌≡◌};
ghost use Rattle.model.specs.Rewinding.{pop_discard};
ghost use Rattle.serializer_state.specs.View.{view};
ghost use Rattle.serializer_rewind.specs.Left.{released};

use crate::rewinds::rewind;
use objects::Which;
use register::Register;
use serializer_state::SerializerState;

// Releases the innermost object.
fn release(s: &mut SerializerState)
    ensures state { view s.new ≡ released (view s.old) }
{
    s.objects.discard();
}

// Lets go of the innermost object, and of what was packed since it was opened. Its slot is released last.
pub fn pop_discard<R: Register>(s: &mut SerializerState, register: &mut R)
    ensures state { view s.new ≡ (pop_discard (view s.old) (R.Register.holds register.old)).state }
    ensures register { R.Register.holds register.new ≡ (pop_discard (view s.old) (R.Register.holds register.old)).register }
{
    if s.idle() {
        return;
    }
    if let Some(object) = s.objects.outline(Which::Innermost) {
        rewind(s, object.extent, register);
        release(s);
    }
}
