// The calls for Rust and C, in words. An answer too short for its words means that the call touches nothing; words beyond them stay.
#![tactic(auto)]

mod counts;
mod given;
mod readings;
mod words;

ghost use Rattle.answers.specs.Promise.{Forms, Refers, Rewrites, Pads, Pulls, Reads, Finds, Writes};

use crate::counts::{fault_in, put_checked, put_fault, put_padded};
use crate::given::{give_record, give_sequence};
use crate::readings::put_reading;
use padding::pad;
use pulling::pull;
use reading::{field, read};
use rewriting::rewrite;
use walk::{form, references};
use writing::write;

// number, record, column, and the fourteen counts.
#[unsafe(no_mangle)]
pub extern "C" fn shelf_form(file: &[u8], answer: &mut [u32])
    ensures { Forms file.now answer.old answer.new }
{
    if answer.len() < 17 {
        return;
    }
    let v = form(file);
    put_checked(&mut answer[0..17], v);
}

// number, record, column.
#[unsafe(no_mangle)]
pub extern "C" fn shelf_references(file: &[u8], table: &mut [u32], answer: &mut [u32])
    ensures { Refers file.now table.old answer.old table.new answer.new }
{
    if answer.len() < 3 {
        return;
    }
    let w = references(file, table);
    put_fault(&mut answer[0..3], fault_in(w));
}

// number, record, column, and the fourteen counts.
#[unsafe(no_mangle)]
pub extern "C" fn shelf_rewrite(file: &[u8], table: &mut [u32], out: &mut [u8], answer: &mut [u32])
    ensures { Rewrites file.now table.old out.old answer.old table.new out.new answer.new }
{
    if answer.len() < 17 {
        return;
    }
    let v = rewrite(file, table, out);
    put_checked(&mut answer[0..17], v);
}

// number, record, column, and the number of lines.
#[unsafe(no_mangle)]
pub extern "C" fn shelf_pad(input: &[u8], out: &mut [u8], answer: &mut [u32])
    ensures { Pads input.now out.old answer.old out.new answer.new }
{
    if answer.len() < 4 {
        return;
    }
    let v = pad(input, out);
    put_padded(&mut answer[0..4], v);
}

// number, record, column; what became of each entry stands in the fault list.
#[unsafe(no_mangle)]
pub extern "C" fn shelf_pull(
    file: &[u8],
    records: &[u32],
    out: &mut [u8],
    faults: &mut [u32],
    answer: &mut [u32],
)
    ensures { Pulls file.now records.now out.old faults.old answer.old out.new faults.new answer.new }
{
    if answer.len() < 3 {
        return;
    }
    let v = pull(file, records, out, faults);
    put_fault(&mut answer[0..3], fault_in(v));
}

// Where a field starts in the file, and its width.
#[unsafe(no_mangle)]
pub extern "C" fn shelf_field(file: &[u8], record: u32, column: u32, answer: &mut [u64])
    ensures { Finds file.now «record» column answer.old answer.new }
{
    if answer.len() < 2 {
        return;
    }
    // Kept `as`: there is no `From` between usize and the others.
    let r = record as usize;
    let c = column as usize;
    let w = field(file, r, c).len();
    if w == 0 {
        answer[0] = 0;
        answer[1] = 0;
        return;
    }
    answer[0] = (81 * (r - 1) + (c - 1)) as u64;
    answer[1] = w as u64;
}

// number, record, column, kind, sequence number and values of one record.
#[unsafe(no_mangle)]
pub extern "C" fn shelf_read(file: &[u8], record: u32, answer: &mut [i64])
    ensures { Reads file.now «record» answer.old answer.new }
{
    if answer.len() < 32 {
        return;
    }
    let r = read(file, record as usize);
    put_reading(&mut answer[0..32], r);
}

// number, record, column of the writing of one record.
#[unsafe(no_mangle)]
pub extern "C" fn shelf_write(
    out: &mut [u8],
    values: &[i64],
    first: &[u8],
    second: &[u8],
    third: &[u8],
    answer: &mut [u32],
)
    ensures { Writes out.old values.now first.now second.now third.now answer.old out.new answer.new }
{
    if answer.len() < 3 {
        return;
    }
    let w = write(
        out,
        give_sequence(values),
        give_record(values),
        first,
        second,
        third,
    );
    put_fault(&mut answer[0..3], fault_in(w));
}
