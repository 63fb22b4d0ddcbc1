ghost use Rattle.std.specs.Prelude.{◌≡◌, nat_le};
ghost use Rattle.lane.specs.Carried.{is_carried};

// The fewest and the most octets of a frame that a lane carries.
const MIN_FRAME: usize = 2;

pub const MAX_FRAME: usize = 269;

// Whether a lane carries frames of this length.
pub fn carries(length: usize) -> bool
    ensures { result ≡ is_carried length }
{
    (MIN_FRAME..=MAX_FRAME).contains(&length)
}

// Whether a buffer of this length holds every frame that a lane carries.
pub fn holds_frames(length: usize) -> bool
    ensures { result ≡ nat_le 269 length }
{
    length >= MAX_FRAME
}
