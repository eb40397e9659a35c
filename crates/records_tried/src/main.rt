// Runs read, field and write over the records on standard input, refused ones too; then write over values that it must refuse.
#![tactic(auto)]

mod print;
mod refusals;

use inputs::read_full;
use kinds::{
    Antenna, Comment, Continuation, Factor, Heights, Instrument, Job, Local, Network, Point,
    Project, Record, Title,
};
use print::{show_fault, show_record, show_sequence};
use refusals::write_refused;
use std::io;

// Where the texts of more than four columns of a record start.
fn texts_of(what: Record) -> [Option<usize>; 3] {
    match what {
        Record::Job(_) => [Some(Job::TEXT), None, None],
        Record::Title(_) => [Some(Title::TITLE), None, None],
        Record::Continuation(_) => [Some(Continuation::TITLE), None, None],
        Record::Project(_) => [Some(Project::NAME), Some(Project::SECOND_NAME), None],
        Record::Occupation(_) => [None, None, None],
        Record::Comment(_) => [Some(Comment::COMMENT), None, None],
        Record::Measurement(_) => [None, None, None],
        Record::Instrument(_) => [
            Some(Instrument::MANUFACTURER),
            Some(Instrument::MODEL),
            Some(Instrument::SERIAL),
        ],
        Record::Antenna(_) => [Some(Antenna::CODE), Some(Antenna::SERIAL), None],
        Record::Point(_) => [Some(Point::NAME), None, None],
        Record::Heights(_) => [Some(Heights::ORGANIZATION), Some(Heights::COMMENT), None],
        Record::Network(_) => [Some(Network::COMMENT), None, None],
        Record::Local(_) => [Some(Local::COMMENT), None, None],
        Record::Factor(_) => [Some(Factor::COMMENT), None, None],
    }
}

fn text_at(file: &[u8], r: usize, start: Option<usize>) -> &[u8] {
    match start {
        Some(c) => reading::field(file, r, c),
        None => b"",
    }
}

// The first column and the width of a field; nothing where none begins.
fn show_field(rt: &impl Print, file: &[u8], r: usize, c: usize) -> io::Result<()> {
    let w = reading::field(file, r, c).len();
    if 0 < w {
        print!(rt; "{c} + {w} ")?;
    }
    Ok(())
}

fn show_fields(rt: &impl Print, file: &[u8], r: usize) -> io::Result<()> {
    for c in 0..83 {
        show_field(rt, file, r, c)?;
    }
    println!(rt)
}

// Written from the values and texts that were read, the record is in house style.
fn write_back(
    rt: &impl Print,
    file: &[u8],
    r: usize,
    s: Option<u32>,
    what: Record,
) -> io::Result<()> {
    let [first, second, third] = texts_of(what);
    let mut out = [b'.'; 82];
    let w = writing::write(
        &mut out,
        s,
        what,
        text_at(file, r, first),
        text_at(file, r, second),
        text_at(file, r, third),
    );
    match w {
        Ok(()) => rt.write_all(&out)?,
        Err(f) => show_fault(rt, f)?,
    }
    println!(rt)
}

fn show(rt: &impl Print, file: &[u8], r: usize) -> io::Result<()> {
    print!(rt; "{r} ")?;
    match reading::read(file, r) {
        Err(f) => {
            show_fault(rt, f)?;
            show_fields(rt, file, r)
        }
        Ok((s, what)) => {
            show_sequence(rt, s)?;
            show_record(rt, what)?;
            println!(rt)?;
            show_fields(rt, file, r)?;
            write_back(rt, file, r, s, what)
        }
    }
}

// No file has a record 0 or a record 100000.
fn show_all(rt: &impl Print, file: &[u8]) -> io::Result<()> {
    show(rt, file, 0)?;
    let last = reading::lines::count_begun(file);
    for r in 1..=last {
        show(rt, file, r)?;
    }
    show(rt, file, 100_000)
}

fn main(rt: HostRuntime) -> io::Result<()> {
    let mut space = [0u8; 65536];
    let n = read_full(&mut rt.reader(), &mut space)?;
    show_all(&rt, &space[..n])?;
    write_refused(&rt)
}
