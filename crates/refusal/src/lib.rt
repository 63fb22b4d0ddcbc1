// Why a call is turned down, and the number that stands for each reason.
#![tactic(auto)]

ghost use Rattle.std.specs.Prelude.{◌≡◌, Some, decimal};
ghost use Rattle.refusal.specs.Number.{number_of};
ghost use Rattle.refusal.specs.declared.Refusal.TheVariants as reason;

use std::fmt;

// Every reason for which the product turns a call down. There is no other.
// A layer has a fault type of its own, which turns into one of these.
#[derive(Clone, Copy, PartialEq, Eq, Debug)]
pub enum Refusal {
    RecordTooShort = 1,
    NoColon = 2,
    NotADigit = 3,
    WrongCount = 4,
    WrongSum = 5,
    UnknownRecord = 6,
    NoSuchUnit = 7,
    IllegalSection = 8,
    EndTooEarly = 9,
    UnsoundFrame = 10,
    BufferTooShort = 11,
    RunTooLong = 12,
    BadInput = 13,
    KeysFull = 14,
    MayNotRun = 15,
    WrongPhase = 16,
    BadLine = 17,
    OutOfOrder = 18,
}

impl Refusal {
    // The number that users see.
    pub fn number(self) -> u8
        ensures { result ≡ number_of self }
    {
        self as u8
    }
}

// A refusal is printed as its number.
impl fmt::Display for Refusal {
    ghost output = { λ r. Some (decimal (number_of r)) };

    fn fmt<W: fmt::Write>(&self, f: &mut fmt::Formatter<W>) -> fmt::Result {
        let number = self.number();
        write!(f, "{number}")
    }
}

// Two types of one form: a signature names the one error that its call can answer. As one type with a parameter the name would be longer.

// A caller's buffer is shorter than what is to be written to it, so nothing is written.
#[derive(Clone, Copy, PartialEq, Eq, Debug)]
pub struct BufferTooShort;

impl From<BufferTooShort> for Refusal {
    ghost from_gives = { λ _ r. r ≡ reason.BufferTooShort };

    fn from(_fault: BufferTooShort) -> Refusal {
        Refusal::BufferTooShort
    }
}

// A frame is unsound, of a sort that is not expected here, or of a length that no lane carries.
#[derive(Clone, Copy, PartialEq, Eq, Debug)]
pub struct UnsoundFrame;

impl From<UnsoundFrame> for Refusal {
    ghost from_gives = { λ _ r. r ≡ reason.UnsoundFrame };

    fn from(_fault: UnsoundFrame) -> Refusal {
        Refusal::UnsoundFrame
    }
}
