// Opening an object: inside the open one, or as the first.
ghost use Rattle.std.specs.Prelude.{◌≡◌};
ghost use Rattle.model.specs.Opening.{push as pushed, start_serialize};
ghost use Rattle.serializer_state.specs.View.{view};

use cursor::flags::SerializeErrorFlags;
use objects::Extent;
use serializer_state::SerializerState;

// Opens an object inside the open one, if any. It records head and tail.
pub fn push(s: &mut SerializerState) -> Result<(), SerializeErrorFlags>
    ensures answer { result ≡ (pushed (view s.old)).1 }
    ensures state { view s.new ≡ (pushed (view s.old)).0 }
{
    s.ready()?;
    let opened = s.objects.open(Extent {
        head: s.cursor.head,
        tail: s.cursor.tail,
    });
    s.required(opened)
}

// Opens the first object: declined while one is open.
pub fn start_serialize(s: &mut SerializerState) -> Result<(), SerializeErrorFlags>
    ensures answer { result ≡ (start_serialize (view s.old)).1 }
    ensures state { view s.new ≡ (start_serialize (view s.old)).0 }
{
    s.changeable()?;
    s.required(s.nothing_open())?;
    push(s)
}
