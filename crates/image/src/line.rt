ghost use Rattle.std.specs.Prelude.{◌≡◌, ◌≤◌, ◌∷◌, ◌++◌, length, IfOk};
ghost use Rattle.refusal.specs.Answers.{answer};
ghost use Rattle.image.specs.Lines.{first_line};
ghost use Rattle.image.specs.Views.{cut_of};

use crate::fault::ImageFault;

const CR: u8 = b'\r';

const LF: u8 = b'\n';

// The most characters before a line's CR LF: those of a record with the most data.
pub const MAX_LINE: usize = 267;

// A line without its CR LF, and what follows that.
#[derive(Clone, Copy, Debug)]
pub struct Line<'a> {
    pub text: &'a [u8],
    pub rest: &'a [u8],
}

// The first line of a text. A CR or an LF alone is a character of the line.
pub fn next_line(text: &[u8]) -> Result<Line<'_>, ImageFault>
    ensures answer { answer cut_of result ≡ first_line text.now }
    ensures whole { IfOk result (λ l. text.now ≡ l.text.now ++ 13 ∷ 10 ∷ l.rest.now) }
    ensures few { IfOk result (λ l. length l.text.now ≤ 267) }
{
    // By place: tried with `windows(2)` and `take`, which make two tests more at each character and take half as long again.
    let places = text.len().saturating_sub(1).min(MAX_LINE + 1);
    let Some(end) = (0..places).find(|&i| text[i] == CR && text[i + 1] == LF) else {
        return Err(ImageFault::Line);
    };
    Ok(Line {
        text: &text[..end],
        rest: &text[end + 2..],
    })
}
