// Upper-case digits, and the two of a byte.

ghost use Rattle.std.specs.Prelude.{◌≡◌, ◌<◌, [], ◌∷◌};
ghost use Rattle.ihex.specs.Digits.{digit, digits, is_digit, all_digits};

// The character of a value below 16. By hand, here and where digits are read: std's `from_digit` and `to_digit` answer an `Option` of a lower-case
// `char` and of a `u32`, and with the steps back to an upper-case byte they are longer than these.
fn digit_of(n: u8) -> u8
    requires { n < 16 }
    ensures { result ≡ digit n }
{
    if n < 10 { b'0' + n } else { b'A' - 10 + n }
}

// A byte's two digits, the high one first.
pub fn digits_of(b: u8) -> [u8; 2]
    ensures { result ≡ digits (b ∷ []) }
{
    [digit_of(b / 16), digit_of(b % 16)]
}

// Whether a character is an upper-case digit.
fn is_upper_digit(c: u8) -> bool
    ensures { result ≡ is_digit c }
{
    c.is_ascii_digit() || (b'A'..=b'F').contains(&c)
}

// Whether all characters are upper-case digits.
pub(crate) fn are_digits(text: &[u8]) -> bool
    ensures { result ≡ all_digits text.now }
{
    text.iter().all(|c| is_upper_digit(*c))
}
