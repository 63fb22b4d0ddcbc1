ghost use Rattle.std.specs.Prelude.{◌≡◌, ◌+◌, ◌^◌, ◌<◌, Some};
ghost use Rattle.ihex.specs.Meaning.{content};
ghost use Rattle.image.specs.Prints.{offsets_text, survey_text};
ghost use Rattle.image.specs.Surveys.{added, Accepts, Surveyed, bytes_in};

use crate::offsets::Offsets;
use crate::records::Records;
use crate::refused::Refused;
use ihex::Record;
use std::fmt;

// What a file holds in all.
#[derive(Clone, Copy, PartialEq, Eq, Default)]
pub struct Survey {
    // data records, and the bytes in them
    pub records: usize,
    pub bytes: usize,
    pub offsets: Option<Offsets>,
    // whether an end record came
    pub ended: bool,
}

impl Survey {
    fn add(&mut self, record: &Record)
        requires records { self.old.records + 1 < 2 ^ 64 }
        requires bytes { self.old.bytes + bytes_in (content «record».now) < 2 ^ 64 }
        ensures { self.new ≡ added self.old (content «record».now) }
    {
        match record {
            Record::Data(data) => {
                self.records += 1;
                self.bytes += data.data().len();
                let offset = data.offset();
                self.offsets = Some(match self.offsets {
                    None => Offsets::from(offset),
                    Some(offsets) => offsets.with(offset),
                });
            }
            Record::End => self.ended = true,
        }
    }

    // What the file of this text holds, line by line, or the first line that is turned down.
    pub fn of(text: &[u8]) -> Result<Survey, Refused>
        ensures surveyed { Surveyed text.now result }
        ensures accepts { Accepts text.now result }
    {
        let mut survey = Survey::default();
        for (line, entry) in (1..).zip(Records(text)) {
            let entry = entry.map_err(|fault| Refused { line, fault })?;
            survey.add(&entry.record);
        }
        Ok(survey)
    }
}

// The offsets of a survey, printed also where there are none.
#[derive(Clone, Copy)]
struct Range(Option<Offsets>);

impl fmt::Display for Range {
    ghost output = { λ r. Some (offsets_text r.0) };

    fn fmt<W: fmt::Write>(&self, f: &mut fmt::Formatter<W>) -> fmt::Result {
        match self.0 {
            Some(offsets) => write!(f, "{offsets}"),
            None => write!(f, "offsets: none"),
        }
    }
}

impl fmt::Debug for Range {
    fn fmt<W: fmt::Write>(&self, f: &mut fmt::Formatter<W>) -> fmt::Result {
        match &self.0 {
            Some(offsets) => fmt::Debug::fmt(offsets, f),
            None => f.write_str("None"),
        }
    }
}

impl fmt::Debug for Survey {
    fn fmt<W: fmt::Write>(&self, f: &mut fmt::Formatter<W>) -> fmt::Result {
        f.debug_struct("Survey")
            .field("records", &self.records)
            .field("bytes", &self.bytes)
            .field("offsets", &Range(self.offsets))
            .field("ended", &self.ended)
            .finish()
    }
}

impl fmt::Display for Survey {
    ghost output = { λ s. Some (survey_text s) };

    fn fmt<W: fmt::Write>(&self, f: &mut fmt::Formatter<W>) -> fmt::Result {
        let Survey { records, bytes, .. } = *self;
        let offsets = Range(self.offsets);
        let ended = if self.ended { "yes" } else { "no" };
        write!(
            f,
            "data records: {records}\nbytes: {bytes}\n{offsets}\nend record: {ended}"
        )
    }
}
