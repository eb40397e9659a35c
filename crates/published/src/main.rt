// Runs every published example through the public calls and prints what came out beside what should.
#![tactic(auto)]

mod answers;
mod cells;
mod faults;
mod print;
mod records;
mod text;
mod values;
mod whole;

use answers::{Call, lay_answer};
use cells::Example;
use inputs::read_file;
use print::{Tally, show_example};
use std::io;
use std::rt::Files;
use text::{SPACE, Text};

// The columns given put into their place.
fn put_given(space: &mut [u8; SPACE], start: usize, given: &[u8]) {
    for (place, byte) in space.iter_mut().skip(start).zip(given) {
        *place = *byte;
    }
}

// What the call answers over the file of the example, with the columns given put into it. What has no room is left out, and then shows as a difference.
fn answer(rt: &(impl Files + Eprint), example: &Example<'_>, out: &mut Text) -> io::Result<()> {
    let mut space = [0u8; SPACE];
    let n = read_file(rt, example.file, &mut space)?;
    put_given(&mut space, example.spot.start, example.given);
    let _ = lay_answer(out, Call::named(example.call), &space[..n], example.spot);
    Ok(())
}

// Whether what came out is what should, byte by byte.
fn try_example(rt: &(impl Files + Print + Eprint), line: &[u8]) -> io::Result<bool> {
    let example = Example::of(line);
    let mut out = Text::new();
    answer(rt, &example, &mut out)?;
    let came = out.as_slice();
    let is_same = came == example.should;
    show_example(rt, &example, came, is_same)?;
    Ok(is_same)
}

// A line that starts with `#` is a heading, and is printed as it stands.
fn try_line(rt: &(impl Files + Print + Eprint), tally: &mut Tally, line: &[u8]) -> io::Result<()> {
    if line.starts_with(b"#") {
        rt.write_all(line)?;
        return println!(rt);
    }
    tally.count(try_example(rt, line)?);
    Ok(())
}

fn try_lines(rt: &(impl Files + Print + Eprint), list: &[u8]) -> io::Result<()> {
    let mut tally = Tally::default();
    for line in list.split_inclusive(|byte| *byte == b'\n') {
        try_line(rt, &mut tally, line.strip_suffix(b"\n").unwrap_or(line))?;
    }
    println!(rt; "{tally}")
}

fn main(rt: HostRuntime) -> io::Result<()> {
    let mut list = [0u8; 65536];
    let n = read_file(&rt, b"examples.txt", &mut list)?;
    try_lines(&rt, &list[..n])
}
