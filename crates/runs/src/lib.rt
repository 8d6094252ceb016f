// Lists of calls run on a new serializer, with any register, and what each call answered.
#![tactic(auto)]

pub mod answer;
pub mod outcome;
mod reading;
mod scalars;
mod shown;
mod steps;

pub use answer::{Answer, SeenObject};
pub use calls::{Call, Reading};
pub use outcome::Outcome;
pub use outcome::running::run;
