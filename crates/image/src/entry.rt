ghost use Rattle.std.specs.Prelude.{◌≤◌, length};

use ihex::Record;

// The record of a line, the line without its CR LF, and what follows that.
#[derive(Clone, Copy)]
pub struct Entry<'a> {
    pub record: Record,
    pub line: &'a [u8],
    pub rest: &'a [u8],
    ghost few: { length line.now ≤ 267 },
}
