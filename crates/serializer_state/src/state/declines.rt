// Flags joined, and the tests that calls begin with.
ghost use Rattle.std.specs.Prelude.{◌≡◌};
ghost use Rattle.cursor.specs.Flags.{joined, none, other};
ghost use Rattle.model.specs.Declining.{set_err as joins, idle as is_idle, nothing_open};
ghost use Rattle.model.specs.State.{flag};
ghost use Rattle.serializer_state.specs.Declines.{changeable, ready, required, found};
ghost use Rattle.serializer_state.specs.View.{view};

use super::SerializerState;
use cursor::flags::SerializeErrorFlags;
use objects::Which;

impl SerializerState {
    // Joins flags to those that stand, and answers all of them.
    pub fn flag(&mut self, flags: SerializeErrorFlags) -> SerializeErrorFlags
        ensures answer { result ≡ joined (view self.old).flags flags }
        ensures state { view self.new ≡ flag (view self.old) flags }
    {
        self.flags.set_err(flags)
    }

    // Joins OTHER to the flags that stand, and answers all of them.
    pub fn other(&mut self) -> SerializeErrorFlags
        ensures answer { result ≡ joined (view self.old).flags other }
        ensures state { view self.new ≡ flag (view self.old) other }
    {
        self.flag(SerializeErrorFlags::SERIALIZE_ERROR_OTHER)
    }

    // What an ended serializer answers in place of changing: its flags with OTHER.
    pub fn refusal(&self) -> SerializeErrorFlags
        ensures answer { result ≡ joined (view self.now).flags other }
    {
        let mut flags = self.flags;
        flags.set_err(SerializeErrorFlags::SERIALIZE_ERROR_OTHER)
    }

    // What a call that a flag declines answers in place of changing: the flags, with none joined to them.
    #[tactic(auto, using(crate::proofs::Flag::joined_none))]
    pub fn standing(&self) -> SerializeErrorFlags
        ensures answer { result ≡ joined (view self.now).flags none }
        ensures same { view self.now ≡ flag (view self.now) none }
    {
        self.flags
    }

    // The test of each call that changes anything: an ended serializer is not changed.
    pub fn changeable(&self) -> Result<(), SerializeErrorFlags>
        ensures answer { result ≡ changeable (view self.now) }
    {
        if self.ended {
            return Err(self.refusal());
        }
        Ok(())
    }

    // The test of a call that builds: nor is one under a flag.
    #[tactic(auto, using(crate::proofs::Flag::joined_none))]
    pub fn ready(&self) -> Result<(), SerializeErrorFlags>
        ensures answer { result ≡ ready (view self.now) }
        ensures same { view self.now ≡ flag (view self.now) none }
    {
        self.changeable()?;
        if self.flags.in_error() {
            return Err(self.standing());
        }
        Ok(())
    }

    // The test of what a call needs: where it does not hold, OTHER stands and the call is declined.
    pub fn required(&mut self, holds: bool) -> Result<(), SerializeErrorFlags>
        ensures answer { result ≡ (required holds (view self.old)).1 }
        ensures state { view self.new ≡ (required holds (view self.old)).0 }
    {
        if holds { Ok(()) } else { Err(self.other()) }
    }

    // What a call looks for: where there is none, OTHER stands and the call is declined.
    pub fn found<T>(&mut self, part: Option<T>) -> Result<T, SerializeErrorFlags>
        ensures answer { result ≡ (found part (view self.old)).1 }
        ensures state { view self.new ≡ (found part (view self.old)).0 }
    {
        // A match and no ok_or_else, since no proof knows what a closure did to the state that it held.
        match part {
            Some(part) => Ok(part),
            None => Err(self.other()),
        }
    }

    // Whether nothing is closed, discarded or reverted: it is ended, or a hard flag stands.
    pub fn idle(&self) -> bool
        ensures answer { result ≡ is_idle (view self.now) }
    {
        self.ended || self.flags.is_hard()
    }

    // Whether no object is open.
    pub fn nothing_open(&self) -> bool
        ensures answer { result ≡ nothing_open (view self.now) }
    {
        self.objects.outline(Which::Innermost).is_none()
    }

    // Flags set by the caller.
    pub fn set_err(&mut self, flags: SerializeErrorFlags) -> SerializeErrorFlags
        ensures answer { result ≡ (joins flags (view self.old)).1 }
        ensures state { view self.new ≡ (joins flags (view self.old)).0 }
    {
        if self.ended {
            return self.refusal();
        }
        self.flag(flags)
    }
}
