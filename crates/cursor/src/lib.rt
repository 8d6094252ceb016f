// The serializer's error flags, and the cursor that hands out its memory from both ends.
#![tactic(auto)]

pub mod cursor;
pub mod flags;
