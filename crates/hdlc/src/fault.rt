ghost use Rattle.std.specs.Prelude.{◌≡◌};
ghost use Rattle.hdlc.specs.Encoding.{refusal_of};

use refusal::Refusal;

// Why a frame is not encoded, in the order of the checks.
#[derive(Clone, Copy, PartialEq, Eq, Debug)]
pub enum EncodeFault {
    // over 267 octets of information
    TooLong,
    // the buffer is shorter than the frame
    BufferTooShort,
}

impl From<EncodeFault> for Refusal {
    ghost from_gives = { λ f r. r ≡ refusal_of f };

    fn from(fault: EncodeFault) -> Refusal {
        match fault {
            EncodeFault::TooLong => Refusal::UnsoundFrame,
            EncodeFault::BufferTooShort => Refusal::BufferTooShort,
        }
    }
}
