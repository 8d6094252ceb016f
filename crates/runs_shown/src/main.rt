// Runs calls on a serializer over memory of its own, and prints each with its answer: two equal children are
// stored once, and the output is read at the end.
#![tactic(auto)]

use calls::{Call, Reading};
use link::{ObjIdx, OffsetWhence};
use register_table::TableRegister;
use runs::run;
use serialize::Memory;

const CHILD: Call<'static> = Call::EmbedBytes(&[0x0a, 0x0b]);

static CALLS: [Call<'static>; 15] = [
    Call::StartSerialize,
    Call::EmbedBytes(&[0, 0, 0, 0, 7]),
    Call::Push,
    CHILD,
    Call::PopPack(true),
    Call::AddLink {
        from: 0,
        to: 2,
        number: ObjIdx(0),
        whence: OffsetWhence::Head,
        bias: 0,
        is_signed: false,
    },
    Call::Push,
    CHILD,
    Call::PopPack(true),
    Call::AddLink {
        from: 2,
        to: 4,
        number: ObjIdx(0),
        whence: OffsetWhence::Tail,
        bias: 0,
        is_signed: false,
    },
    Call::Read(Reading::Object(ObjIdx(0))),
    Call::EndSerialize,
    Call::Read(Reading::RealLink(ObjIdx(1), 1)),
    Call::Read(Reading::Error),
    Call::Read(Reading::CopyBytes(16)),
];

fn main(rt: HostRuntime) -> anyhow::Result<()> {
    let heap = rt.alloc();
    let memory = Memory::new(heap, 16, 8, 8)?;
    let mut register = TableRegister::new(heap, 8, 16)?;
    let outcome = run(heap, memory, &mut register, &CALLS)?;
    for (call, answer) in CALLS.iter().zip(&outcome.answers) {
        println!(rt; "{call}: {answer}")?;
    }
    Ok(())
}
