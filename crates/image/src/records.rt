// The records at the front of a text.

ghost use Rattle.std.specs.Prelude.{◌≡◌, ◌+◌, length, IfOk};
ghost use Rattle.std.specs.Iterator.{at_most};
ghost use Rattle.std.specs.Option.{option_map};
ghost use Rattle.refusal.specs.Answers.{answer};
ghost use Rattle.image.specs.Files.{first_record, Begins, Comes};
ghost use Rattle.image.specs.Views.{entry_of};

use crate::entry::Entry;
use crate::fault::ImageFault;
use crate::line::next_line;
use ihex::Record;

// The record of the first line of a text.
pub fn next_record(text: &[u8]) -> Result<Entry<'_>, ImageFault>
    ensures answer { answer entry_of result ≡ first_record text.now }
    ensures whole { IfOk result (λ e. length e.line.now + 2 + length e.rest.now ≡ length text.now) }
    ensures canonical { Begins text.now (answer entry_of result) }
{
    let line = next_line(text)?;
    let record = Record::read(line.text)?;
    Ok(Entry {
        record,
        line: line.text,
        rest: line.rest,
    })
}

// The records of a text, line by line, up to the first line that is none.
#[derive(Drop)]
pub(crate) struct Records<'a>(pub(crate) &'a [u8]);

impl<'a> Iterator for Records<'a> {
    type Item = Result<Entry<'a>, ImageFault>;

    ghost next_gives = { λ s r t. Comes s.0.now (option_map (answer entry_of) r) t.0.now };

    ghost remaining = { λ s. at_most (length s.0.now) };

    fn next(&mut self) -> Option<Result<Entry<'a>, ImageFault>> {
        if self.0.is_empty() {
            return None;
        }
        match next_record(self.0) {
            Ok(entry) => {
                self.0 = entry.rest;
                Some(Ok(entry))
            }
            Err(fault) => {
                self.0 = &[];
                Some(Err(fault))
            }
        }
    }
}
