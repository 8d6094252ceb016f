// The struct: a serializer over its memory.
use serializer_state::SerializerState;
use std::marker::Model;

pub mod begins;
pub mod closes;
pub mod linking;
pub mod opens;
pub mod questions;
pub mod reads;
pub mod writes;

#[derive(Drop)]
pub struct Serializer {
    state: SerializerState,
}

// In a contract a serializer is the state of the model that it stands for.
impl Model for Serializer {
    ghost use Rattle.model.specs.State.{State};
    ghost use Rattle.serializer_state.specs.View.{view as state_of};

    ghost Value = { State };

    ghost view = { λ s. state_of s.state };
}
