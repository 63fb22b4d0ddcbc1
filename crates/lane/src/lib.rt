// Lanes: a cable in one direction, by the list of frames that wait in it.
#![tactic(auto)]

mod interface;
mod length;
mod losing;
mod passing;

pub use interface::Lane;
pub use length::{MAX_FRAME, carries, holds_frames};
pub use losing::Losing;
pub use passing::put_then_take;
