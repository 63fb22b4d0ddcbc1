// A trial of a lane: the records of an image file go over it as I frames, and what comes out is counted.
#![tactic(auto)]

mod sending;
mod stack;
mod traffic;
mod trials;

pub use sending::transmit;
pub use stack::Stack;
pub use traffic::Traffic;
pub use trials::{Trials, over, over_losing, over_slots, over_two};
