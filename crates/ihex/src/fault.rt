ghost use Rattle.std.specs.Prelude.{◌≡◌};
ghost use Rattle.ihex.specs.Meaning.{refusal_of};

use refusal::Refusal;

// Why a text or some data is no record, in the order of the checks.
#[derive(Clone, Copy, PartialEq, Eq, Debug)]
pub enum RecordFault {
    // under 11 characters
    Short,
    // the first character is no colon
    NoColon,
    // a later character is none of 0 to 9 and A to F
    NotADigit,
    // the count is over 128, or the characters are not 11 and two for each byte counted
    Count,
    // the bytes do not total 0 modulo 256
    Sum,
    // neither a data record of 1 to 128 bytes nor the end record
    Unknown,
}

impl From<RecordFault> for Refusal {
    ghost from_gives = { λ f r. r ≡ refusal_of f };

    fn from(fault: RecordFault) -> Refusal {
        match fault {
            RecordFault::Short => Refusal::RecordTooShort,
            RecordFault::NoColon => Refusal::NoColon,
            RecordFault::NotADigit => Refusal::NotADigit,
            RecordFault::Count => Refusal::WrongCount,
            RecordFault::Sum => Refusal::WrongSum,
            RecordFault::Unknown => Refusal::UnknownRecord,
        }
    }
}
