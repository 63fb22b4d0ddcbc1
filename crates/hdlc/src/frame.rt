ghost use Rattle.std.specs.Prelude.{◌≡◌};
ghost use Rattle.hdlc.specs.Meaning.{message_of};
ghost use Rattle.hdlc.specs.Messages.{receive_ready};
ghost use Rattle.hdlc.specs.Numbers.{number_of};

use crate::number::SequenceNumber;

// A frame by what it says.
#[derive(Clone, Copy)]
pub enum Frame<'a> {
    // an I frame: its number N(S), and its information
    Information {
        number: SequenceNumber,
        information: &'a [u8],
    },
    // an RR frame: the number N(R) of the I frame that is awaited next
    ReceiveReady {
        number: SequenceNumber,
    },
}

impl Frame<'_> {
    // The first octet of every frame.
    pub(crate) const ADDRESS: u8 = 0xFF;
    // The octets before the information.
    pub(crate) const HEADER: usize = 2;
    // The most information that a frame has.
    pub(crate) const MAX_INFORMATION: usize = 267;
}

impl Frame<'static> {
    // The RR frame with this number, which borrows nothing.
    pub fn receive_ready(number: SequenceNumber) -> Self
        ensures { message_of result ≡ receive_ready (number_of number) }
    {
        Frame::ReceiveReady { number }
    }
}
