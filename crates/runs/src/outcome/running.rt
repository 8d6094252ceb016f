// Running a list of calls.
ghost use Rattle.std.specs.Prelude.{◌≡◌, map, IfOk, OnOk};
ghost use Rattle.model.specs.Law.{Law};
ghost use Rattle.model.specs.Run.{run as run_of, step as step_of};
ghost use Rattle.calls.specs.Meaning.{call_of};
ghost use Rattle.runs.specs.Going.{gone, world_of};
ghost use Rattle.runs.specs.Ran.{Ran, calls_of, beginning};

use super::Outcome;
use crate::steps::step;
use calls::Call;
use model::law_stands;
use register::Register;
use serialize::{Memory, Serializer};
use std::alloc::{AllocError, Global};

impl Outcome {
    // Makes a call and keeps what it answers.
    fn make<R: Register>(
        &mut self,
        heap: Global,
        register: &mut R,
        next: Call<'_>,
    ) -> Result<(), AllocError>
        ensures went { OnOk result (world_of self.new (R.Register.holds register.new) ≡ step_of (call_of next.entry) (world_of self.old (R.Register.holds register.old))) }
    {
        let answer = step(heap, &mut self.serializer, register, &self.answers, next)?;
        self.answers.push(answer)?;
        Ok(())
    }

    // Makes calls one after another.
    fn make_all<R: Register>(
        &mut self,
        heap: Global,
        register: &mut R,
        list: &[Call<'_>],
    ) -> Result<(), AllocError>
        ensures went { OnOk result (world_of self.new (R.Register.holds register.new) ≡ gone (world_of self.old (R.Register.holds register.old)) (map call_of list.now)) }
    {
        for next in list {
            self.make(heap, register, *next)?;
        }
        Ok(())
    }
}

// Makes a serializer over a memory and runs a list of calls on it. It fails only for want of memory for the
// answers.
//
// The law of that run: at each of its moments packed objects lie stacked from the end of memory, unwritten but
// by the ending; a number names the bytes and links that were closed under it, and equal objects share the
// least entered one; and after an ending without flags the output is the loose bytes and every packed object,
// unchanged but for the fields of links, each of which leads to the object that its number named.
pub fn run<R: Register>(
    heap: Global,
    memory: Memory,
    register: &mut R,
    list: &[Call<'_>],
) -> Result<Outcome, AllocError>
    ensures answer { IfOk result (λ o. Ran (run_of (beginning memory (R.Register.holds register.old)) (calls_of list.now)) o) }
    ensures register { OnOk result (R.Register.holds register.new ≡ (run_of (beginning memory (R.Register.holds register.old)) (calls_of list.now)).register) }
    ensures law { Law (beginning memory (R.Register.holds register.old)) (calls_of list.now) }
{
    law_stands();
    let mut outcome = Outcome {
        serializer: Serializer::new(memory, register),
        answers: Vec::with_capacity(heap, list.len())?,
    };
    outcome.make_all(heap, register, list)?;
    Ok(outcome)
}
