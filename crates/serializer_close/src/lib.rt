// Closing the innermost open object: its bytes move up to end at tail, and it is packed, or shared with an
// equal object that is entered in the register.
#![tactic(auto)]

mod packs;
mod twins;

pub use packs::pop_pack;
