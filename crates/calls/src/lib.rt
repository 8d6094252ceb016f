// The calls of a serializer as values, so that lists of them can be kept, printed and run.
#![tactic(auto)]

pub mod call;
pub mod scalar_value;
pub mod shown;

pub use call::{Call, Reading};
pub use scalar_value::{CountKind, ScalarKind, ScalarValue};
pub use shown::Hex;
