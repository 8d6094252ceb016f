// Closing objects, going back, and ending. These calls are handed the register.
ghost use Rattle.std.specs.Prelude.{◌≡◌};
ghost use Rattle.model.specs.Closing.{pop_pack};
ghost use Rattle.model.specs.Rewinding.{pop_discard, snapshot as recorded, revert_snapshot};
ghost use Rattle.model.specs.Ending.{end_serialize};

use super::Serializer;
use link::ObjIdx;
use model::snapshot::Snapshot;
use register::Register;

impl Serializer {
    // Closes the innermost object: the number that it has then, if it has any bytes. With sharing this may be
    // the number of an equal object.
    pub fn pop_pack<R: Register>(&mut self, share: bool, register: &mut R) -> Option<ObjIdx>
        ensures answer { result ≡ (pop_pack share self.old (R.Register.holds register.old)).answer }
        ensures state { self.new ≡ (pop_pack share self.old (R.Register.holds register.old)).state }
        ensures register { R.Register.holds register.new ≡ (pop_pack share self.old (R.Register.holds register.old)).register }
    {
        serializer_close::pop_pack(&mut self.state, share, register)
    }

    // Lets go of the innermost object, and of what was packed since it was opened.
    pub fn pop_discard<R: Register>(&mut self, register: &mut R)
        ensures state { self.new ≡ (pop_discard self.old (R.Register.holds register.old)).state }
        ensures register { R.Register.holds register.new ≡ (pop_discard self.old (R.Register.holds register.old)).register }
    {
        serializer_rewind::pop_discard(&mut self.state, register)
    }

    // Records where the serializer stands.
    pub fn snapshot(&self) -> Snapshot
        ensures answer { result ≡ recorded self.now }
    {
        serializer_rewind::snapshot(&self.state)
    }

    // Goes back to where a snapshot was taken.
    pub fn revert_snapshot<R: Register>(&mut self, snapshot: Snapshot, register: &mut R)
        ensures state { self.new ≡ (revert_snapshot snapshot self.old (R.Register.holds register.old)).state }
        ensures register { R.Register.holds register.new ≡ (revert_snapshot snapshot self.old (R.Register.holds register.old)).register }
    {
        serializer_rewind::revert_snapshot(&mut self.state, snapshot, register)
    }

    // Closes the last object, without sharing, and writes the fields of all links.
    pub fn end_serialize<R: Register>(&mut self, register: &mut R)
        ensures state { self.new ≡ (end_serialize self.old (R.Register.holds register.old)).state }
        ensures register { R.Register.holds register.new ≡ (end_serialize self.old (R.Register.holds register.old)).register }
    {
        serializer_end::end_serialize(&mut self.state, register)
    }
}
