// A line of the list: seven cells parted by tabs.
use columns::numbers::value_of;

// What an example is about: a record of its file, a first column and how many columns from there on, and the byte where they start.
#[derive(Clone, Copy)]
pub(crate) struct Spot {
    pub(crate) record: usize,
    pub(crate) column: usize,
    pub(crate) width: usize,
    pub(crate) start: usize,
}

#[derive(Clone, Copy)]
pub(crate) struct Example<'a> {
    pub(crate) name: &'a [u8],
    pub(crate) call: &'a [u8],
    pub(crate) file: &'a [u8],
    pub(crate) spot: Spot,
    pub(crate) given: &'a [u8],
    pub(crate) should: &'a [u8],
}

// Cell k; an empty one where the line has fewer.
fn cell(line: &[u8], k: usize) -> &[u8] {
    line.split(|byte| *byte == b'\t').nth(k).unwrap_or(b"")
}

// Record r starts at byte 81 x (r - 1), and column c is its byte c - 1. The files have fewer than a hundred records; record 0 is for an example that changes nothing.
fn start_at(record: usize, column: usize) -> usize {
    match (record, column) {
        (1..=99, 1..=80) => 81 * (record - 1) + (column - 1),
        _ => 0,
    }
}

impl<'a> Example<'a> {
    pub(crate) fn of(line: &'a [u8]) -> Example<'a> {
        let record = value_of(cell(line, 3)) as usize;
        let column = value_of(cell(line, 4)) as usize;
        let given = cell(line, 5);
        Example {
            name: cell(line, 0),
            call: cell(line, 1),
            file: cell(line, 2),
            spot: Spot {
                record,
                column,
                width: given.len(),
                start: start_at(record, column),
            },
            given,
            should: cell(line, 6),
        }
    }
}
