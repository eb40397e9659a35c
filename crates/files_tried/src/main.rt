// Runs form, references and rewrite over the whole files that its arguments name; then an accepted and a refused one with lengths that are too short; then compares files as rewritten; then pads inputs as editors leave them, and runs the three over the padded lines; then pulls records by their numbers, and compares all records of a file, pulled, with the file rewritten.
#![tactic(auto)]

mod compare;
mod dress;
mod lengths;
mod lent;
mod padded;
mod print;
mod pulled;
mod table;
mod whole;

use dress::compare_files;
use inputs::read_file;
use lengths::try_lengths;
use padded::{compare_inputs, try_inputs};
use pulled::{compare_pulls, try_pulls};
use std::env::FillError;
use std::io;
use std::rt::{Env, Files};
use whole::try_whole;

// A file of the data: 262,144 bytes have room for 3,236 records.
fn try_file(rt: &(impl Files + Print + Eprint), path: &[u8]) -> io::Result<()> {
    let mut space = [0u8; 262144];
    let n = read_file(rt, path, &mut space)?;
    try_whole(rt, path, &space[..n])
}

// Whether there is an argument i. One that is longer than a path can be counts as an empty one.
fn try_argument(rt: &(impl Env + Files + Print + Eprint), i: usize) -> io::Result<bool> {
    let mut path = [0u8; 4096];
    match rt.arg(i, &mut path) {
        Ok(n) => try_file(rt, &path[..n])?,
        Err(FillError::TooLong) => try_file(rt, b"")?,
        Err(FillError::NotPresent) => return Ok(false),
    }
    Ok(true)
}

// Argument 0 is the program's own name.
fn try_arguments(rt: &(impl Env + Files + Print + Eprint)) -> io::Result<()> {
    for i in 1..usize::MAX {
        if !try_argument(rt, i)? {
            break;
        }
    }
    Ok(())
}

fn main(rt: HostRuntime) -> io::Result<()> {
    try_arguments(&rt)?;
    try_lengths(&rt, b"accepted_all_kinds.bfile")?;
    try_lengths(&rt, b"fault_09_station_0.bfile")?;
    compare_files(&rt, b"dress_house.bfile", b"dress_other.bfile")?;
    compare_files(&rt, b"dress_house.bfile", b"dress_other_meaning.bfile")?;
    try_inputs(&rt)?;
    compare_inputs(&rt)?;
    try_pulls(&rt)?;
    compare_pulls(&rt)
}
