// The calls on one record: read, field and write.
use crate::cells::Spot;
use crate::faults::{lay_fault, lay_outcome};
use crate::text::{SPACE, Text, lay_quoted};
use crate::values::{Value, read_value};
use kinds::{Factor, Fault, Heights, Local, Network, Point, Record, Title};
use std::io;
use std::io::Write;

fn lay_value(out: &mut Text, v: Value) -> io::Result<()> {
    match v {
        Value::Missing => out.write_all(b"missing"),
        Value::Whole(n) => write!(out, "{n}"),
        Value::One(byte) => lay_quoted(out, &[byte]),
        Value::Two(t) => lay_quoted(out, &[t.0, t.1]),
        Value::Four(t) => lay_quoted(out, &[t.0, t.1, t.2, t.3]),
    }
}

pub(crate) fn lay_read(out: &mut Text, file: &[u8], spot: Spot) -> io::Result<()> {
    match read_value(file, spot.record, spot.column) {
        Ok(Some(v)) => lay_value(out, v),
        Ok(None) => out.write_all(b"no value"),
        Err(f) => lay_fault(out, f),
    }
}

pub(crate) fn lay_field(out: &mut Text, file: &[u8], spot: Spot) -> io::Result<()> {
    lay_quoted(out, reading::field(file, spot.record, spot.column))
}

// Where the texts of more than four columns of a record start. No example writes a *12*, a *70* or a *72*. Every other kind has one text from column 11 on, or none, and then write takes no notice.
// Kept beside that of records_tried, which has to know all kinds.
fn texts_of(what: Record) -> [Option<usize>; 2] {
    match what {
        Record::Point(_) => [Some(Point::NAME), None],
        Record::Heights(_) => [Some(Heights::ORGANIZATION), Some(Heights::COMMENT)],
        Record::Network(_) => [Some(Network::COMMENT), None],
        Record::Local(_) => [Some(Local::COMMENT), None],
        Record::Factor(_) => [Some(Factor::COMMENT), None],
        _ => [Some(Title::TITLE), None],
    }
}

fn text_at(file: &[u8], record: usize, start: Option<usize>) -> &[u8] {
    match start {
        Some(column) => reading::field(file, record, column),
        None => b"",
    }
}

// The values that were read, and the texts of their record, written into a line.
fn write_values(
    line: &mut [u8; SPACE],
    file: &[u8],
    record: usize,
    s: Option<u32>,
    what: Record,
) -> Result<(), Fault> {
    let [first, second] = texts_of(what);
    let first = text_at(file, record, first);
    let second = text_at(file, record, second);
    writing::write(line, s, what, first, second, b"")
}

fn write_back(line: &mut [u8; SPACE], file: &[u8], record: usize) -> Result<(), Fault> {
    let (s, what) = reading::read(file, record)?;
    write_values(line, file, record, s, what)
}

// The columns of the example as they are written from the values that were read.
pub(crate) fn lay_written(out: &mut Text, file: &[u8], spot: Spot) -> io::Result<()> {
    let mut line = [b'.'; SPACE];
    let outcome = write_back(&mut line, file, spot.record);
    lay_outcome(out, outcome, &line, spot.start % 81, spot.width)
}
