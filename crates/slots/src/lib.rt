// The slot lane: a lane whose frames wait in a table of eight places.
#![tactic(auto)]

mod slot_lane;
mod table;

pub use slot_lane::SlotLane;
