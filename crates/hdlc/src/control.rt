// Control octets: the sort of a frame, and its number.

ghost use Rattle.std.specs.Prelude.{◌≡◌};
ghost use Rattle.hdlc.specs.Controls.{octet_of, Reads};

use crate::number::SequenceNumber;
use refusal::UnsoundFrame;

// What a control octet says.
#[derive(Clone, Copy)]
pub(crate) enum Control {
    // an I frame's is twice its number
    Information(SequenceNumber),
    // an RR frame's has its number in the three high bits, and ends in a 1
    ReceiveReady(SequenceNumber),
}

impl From<Control> for u8 {
    ghost from_gives = { λ c r. r ≡ octet_of c };

    fn from(control: Control) -> u8 {
        match control {
            Control::Information(number) => 2 * number.value(),
            Control::ReceiveReady(number) => 1 + 32 * number.value(),
        }
    }
}

impl TryFrom<u8> for Control {
    type Error = UnsoundFrame;

    ghost try_from_gives = { Reads };

    fn try_from(octet: u8) -> Result<Self, UnsoundFrame> {
        if octet % 2 == 0 && octet < 16 {
            return Ok(Control::Information(SequenceNumber::modulo(octet / 2)));
        }
        if octet % 32 == 1 {
            return Ok(Control::ReceiveReady(SequenceNumber::modulo(octet / 32)));
        }
        Err(UnsoundFrame)
    }
}
