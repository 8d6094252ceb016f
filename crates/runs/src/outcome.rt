// What is left of a list of calls.
use crate::answer::Answer;
use serialize::Serializer;

pub mod running;

// The serializer after the last call, and what each call answered, in their order.
#[derive(Drop)]
pub struct Outcome {
    pub serializer: Serializer,
    pub answers: Vec<Answer>,
}
