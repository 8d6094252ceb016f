// One call of a list made.
ghost use Rattle.std.specs.Prelude.{◌≡◌, IfOk};
ghost use Rattle.model.specs.Run.{call as call_made, taken, taken_at, revert_to};
ghost use Rattle.calls.specs.Meaning.{call_of};
ghost use Rattle.runs.specs.Told.{answer_of, told};

use crate::answer::Answer;
use crate::reading::read;
use crate::scalars::{check_assign, copy_assign, embed};
use calls::Call;
use model::snapshot::Snapshot;
use register::Register;
use serialize::Serializer;
use std::alloc::{AllocError, Global};

// A snapshot once more, field by field: as in the Rust crate a revert uses its snapshot up and a snapshot has no Clone,
// while the answer of a list keeps its own.
fn again(snapshot: &Snapshot) -> Snapshot
    ensures answer { result ≡ snapshot.now }
{
    Snapshot {
        head: snapshot.head,
        tail: snapshot.tail,
        current: snapshot.current,
        num_real_links: snapshot.num_real_links,
        num_virtual_links: snapshot.num_virtual_links,
        errors: snapshot.errors,
    }
}

// The snapshot that an answer is, if it is one.
fn taken_by(answer: &Answer) -> Option<Snapshot>
    ensures answer { result ≡ taken (answer_of answer.now) }
{
    match answer {
        Answer::Taken(snapshot) => Some(again(snapshot)),
        _ => None,
    }
}

// The snapshot that the n-th call of a list took, counted from 0, if it took one.
fn snapshot_at(answers: &[Answer], n: usize) -> Option<Snapshot>
    ensures answer { result ≡ taken_at (told answers.now) n }
{
    answers.get(n).and_then(taken_by)
}

// Goes back to a snapshot, if there is one.
fn revert<R: Register>(s: &mut Serializer, register: &mut R, snapshot: Option<Snapshot>)
    ensures state { s.new ≡ (revert_to snapshot s.old (R.Register.holds register.old)).state }
    ensures register { R.Register.holds register.new ≡ (revert_to snapshot s.old (R.Register.holds register.old)).register }
{
    if let Some(snapshot) = snapshot {
        s.revert_snapshot(snapshot, register);
    }
}

// Makes a call, after those that gave these answers. It fails only for want of memory for the bytes that a
// call answers. The serializer and the answers are two parameters and no outcome, since the answers are lent while the
// serializer changes.
pub(crate) fn step<R: Register>(
    heap: Global,
    s: &mut Serializer,
    register: &mut R,
    answers: &[Answer],
    next: Call<'_>,
) -> Result<Answer, AllocError>
    ensures answer { IfOk result (λ a. answer_of a ≡ (call_made (call_of next.entry) s.old (R.Register.holds register.old) (told answers.now)).answer) }
    ensures state { s.new ≡ (call_made (call_of next.entry) s.old (R.Register.holds register.old) (told answers.now)).state }
    ensures register { R.Register.holds register.new ≡ (call_made (call_of next.entry) s.old (R.Register.holds register.old) (told answers.now)).register }
{
    match next {
        Call::SetErr(flags) => Ok(Answer::Flags(s.set_err(flags))),
        Call::StartSerialize => Ok(Answer::Done(s.start_serialize())),
        Call::Push => Ok(Answer::Done(s.push())),
        Call::AllocateSize(size, clear) => Ok(Answer::Place(s.allocate_size(size, clear))),
        Call::Pad(count) => Ok(Answer::Place(s.pad(count))),
        Call::Embed(value) => Ok(Answer::Place(embed(s, value))),
        Call::EmbedBytes(bytes) => Ok(Answer::Place(s.embed_bytes(bytes))),
        Call::CopyAssign(pos, value) => {
            copy_assign(s, pos, value);
            Ok(Answer::Nothing)
        }
        Call::CopyAssignFromBytes(pos, bytes) => {
            s.copy_assign_from_bytes(pos, bytes);
            Ok(Answer::Nothing)
        }
        Call::CheckAssign {
            pos,
            kind,
            count,
            flags,
        } => Ok(Answer::Done(check_assign(s, pos, kind, count, flags))),
        Call::AddLink {
            from,
            to,
            number,
            whence,
            bias,
            is_signed,
        } => {
            let linked = s.add_link(from..to, number, whence, bias, is_signed);
            Ok(Answer::Done(linked))
        }
        Call::AddVirtualLink(number) => Ok(Answer::Done(s.add_virtual_link(number))),
        Call::RepackLast(number) => Ok(Answer::Done(s.repack_last(number))),
        Call::PopPack(share) => Ok(Answer::Number(s.pop_pack(share, register))),
        Call::PopDiscard => {
            s.pop_discard(register);
            Ok(Answer::Nothing)
        }
        Call::Snapshot => Ok(Answer::Taken(s.snapshot())),
        Call::RevertSnapshot(n) => {
            revert(s, register, snapshot_at(answers, n));
            Ok(Answer::Nothing)
        }
        Call::EndSerialize => {
            s.end_serialize(register);
            Ok(Answer::Nothing)
        }
        Call::Read(what) => read(heap, s, what),
        Call::Enter(hash, number) => Ok(Answer::Whether(register.enter(hash, number))),
        Call::Strike(hash, number) => {
            register.strike(hash, number);
            Ok(Answer::Nothing)
        }
    }
}
