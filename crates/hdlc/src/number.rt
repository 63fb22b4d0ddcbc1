ghost use Rattle.std.specs.Prelude.{◌≡◌, ◌%◌, ◌<◌};

use std::fmt;

// A send number N(S) or a receive number N(R): one of 0 to 7.
#[derive(Clone, Copy, PartialEq, Eq)]
pub struct SequenceNumber {
    value: u8,
    ghost small: { value < 8 },
}

impl SequenceNumber {
    ghost use Rattle.hdlc.specs.Numbers.{number_of, next_number};

    // The number that n is modulo 8.
    pub fn modulo(n: u8) -> Self
        ensures { number_of result ≡ n % 8 }
    {
        SequenceNumber { value: n % 8 }
    }

    pub fn value(self) -> u8
        ensures value { result ≡ number_of self }
        ensures small { result < 8 }
    {
        self.value
    }

    // The number after this one; after 7 comes 0.
    pub fn next(self) -> Self
        ensures { number_of result ≡ next_number (number_of self) }
    {
        SequenceNumber::modulo(self.value + 1)
    }
}

impl fmt::Debug for SequenceNumber {
    // N0 to N7.
    fn fmt<W: fmt::Write>(&self, f: &mut fmt::Formatter<W>) -> fmt::Result {
        write!(f, "N{}", self.value)
    }
}
