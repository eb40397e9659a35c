// Records read: one by its number, as typed values, and a field's columns as the caller's own bytes.
#![tactic(auto)]

pub mod lines;
pub mod values;
pub mod widths;

ghost use Rattle.std.specs.Prelude.{◌≡◌};
ghost use Rattle.rules.specs.Tests.{◌&◌, ◌≤?◌, within};
ghost use Rattle.rules.specs.Records.{read_line};
ghost use Rattle.rules.specs.Files.{begun};
ghost use Rattle.rules.specs.Calls.{read_as, width_asked};
ghost use Rattle.rules.specs.Chapter4.{chapter4};
ghost use Rattle.kinds.specs.Values.{reading_of};
ghost use Rattle.reading.specs.Widths.{width_in};
ghost use Rattle.reading.specs.Promise.{PromisedReading, PromisedPart};

use crate::lines::{count_begun, line};
use crate::values::{read_record, read_sequence};
use crate::widths::field_width;
use judging::codes::kind_at;
use judging::lines::judge_alone;
use kinds::{Fault, Record};

// 13 is for record 0, above 99,999, and past the last.
pub fn is_there(file: &[u8], record: usize) -> bool
    ensures { result ≡ within 1 99_999 «record» & «record» ≤? begun file.now }
{
    ((1 <= record) & (record <= 99_999)) & (record <= count_begun(file))
}

fn read_line(line: &[u8], record: usize) -> Result<(Option<u32>, Record), Fault>
    ensures { result ≡ reading_of (read_as «record» line.now (read_line chapter4 line.now)) }
{
    judge_alone(line).map_err(|flaw| flaw.in_record(record))?;
    // A line without a fault has a code.
    let kind = kind_at(line).unwrap();
    Ok((read_sequence(line), read_record(line, kind)))
}

// A record by its number, judged by itself: its sequence number and values, or the refusal.
pub fn read(file: &[u8], record: usize) -> Result<(Option<u32>, Record), Fault>
    ensures { PromisedReading file.now «record» result }
{
    if is_there(file, record) {
        let l = line(file, record - 1);
        return read_line(l, record);
    }
    Err(Fault::new(13, record, 0))
}

fn width_in(line: &[u8], column: usize) -> usize
    ensures { result ≡ width_in line.now column }
{
    if judge_alone(line).is_err() {
        return 0;
    }
    field_width(kind_at(line).unwrap(), column)
}

fn width_asked(file: &[u8], record: usize, column: usize) -> usize
    ensures { result ≡ width_asked file.now «record» column }
{
    if is_there(file, record) {
        let l = line(file, record - 1);
        return width_in(l, column);
    }
    0
}

// The columns of the field that starts at a column, as a part of the file itself; empty, at its start, if read refuses or none does.
pub fn field(file: &[u8], record: usize, column: usize) -> &[u8]
    ensures { PromisedPart file.now «record» column file.entry.ref_ptr.0 file.entry.ref_ptr.1 result.now result.ref_ptr.0 result.ref_ptr.1 }
{
    let w = width_asked(file, record, column);
    if w == 0 {
        return &file[0..0];
    }
    let at = 81 * (record - 1) + (column - 1);
    let end = at + w;
    &file[at..end]
}
