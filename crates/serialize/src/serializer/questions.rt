// The flags: set by the caller, and what is asked of those that stand.
ghost use Rattle.std.specs.Prelude.{◌≡◌};
ghost use Rattle.model.specs.Declining.{set_err as joins};
ghost use Rattle.model.specs.Reading.{error as flags_of, in_error, successful as is_successful, ran_out_of_room, has_offset_overflow, only_offset_overflow, only_overflow};

use super::Serializer;
use cursor::flags::SerializeErrorFlags;

impl Serializer {
    // Joins flags to those that stand, and answers all of them.
    pub fn set_err(&mut self, error_type: SerializeErrorFlags) -> SerializeErrorFlags
        ensures answer { result ≡ (joins error_type self.old).1 }
        ensures state { self.new ≡ (joins error_type self.old).0 }
    {
        self.state.set_err(error_type)
    }

    // The flags that stand.
    pub fn error(&self) -> SerializeErrorFlags
        ensures answer { result ≡ flags_of self.now }
    {
        serializer_write::error(&self.state)
    }

    // Whether a flag stands.
    pub fn in_error(&self) -> bool
        ensures answer { result ≡ in_error self.now }
    {
        serializer_write::in_error(&self.state)
    }

    // Whether no flag stands.
    pub fn successful(&self) -> bool
        ensures answer { result ≡ is_successful self.now }
    {
        serializer_write::successful(&self.state)
    }

    pub fn ran_out_of_room(&self) -> bool
        ensures answer { result ≡ ran_out_of_room self.now }
    {
        serializer_write::ran_out_of_room(&self.state)
    }

    pub fn offset_overflow(&self) -> bool
        ensures answer { result ≡ has_offset_overflow self.now }
    {
        serializer_write::offset_overflow(&self.state)
    }

    pub fn only_offset_overflow(&self) -> bool
        ensures answer { result ≡ only_offset_overflow self.now }
    {
        serializer_write::only_offset_overflow(&self.state)
    }

    // Whether exactly one overflow stands.
    pub fn only_overflow(&self) -> bool
        ensures answer { result ≡ only_overflow self.now }
    {
        serializer_write::only_overflow(&self.state)
    }
}
