// Opening objects.
ghost use Rattle.std.specs.Prelude.{◌≡◌};
ghost use Rattle.model.specs.Opening.{push as pushed, start_serialize};

use super::Serializer;
use cursor::flags::SerializeErrorFlags;

impl Serializer {
    // Opens the first object: declined while one is open.
    pub fn start_serialize(&mut self) -> Result<(), SerializeErrorFlags>
        ensures answer { result ≡ (start_serialize self.old).1 }
        ensures state { self.new ≡ (start_serialize self.old).0 }
    {
        serializer_write::start_serialize(&mut self.state)
    }

    // Opens an object inside the open one, if any.
    pub fn push(&mut self) -> Result<(), SerializeErrorFlags>
        ensures answer { result ≡ (pushed self.old).1 }
        ensures state { self.new ≡ (pushed self.old).0 }
    {
        serializer_write::push(&mut self.state)
    }
}
