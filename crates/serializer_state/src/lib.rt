// The state of a serializer, and the steps that several of its calls share.
#![tactic(auto)]

pub mod state;

pub use state::SerializerState;
