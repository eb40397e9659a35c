// Records pulled by their numbers from files that are accepted and from others; all records of a file pulled in order, and the file rewritten.
use crate::dress::rewrite_file;
use crate::lent::{BYTE, WORD, show_changed_bytes};
use crate::padded::{show_differing, show_lines};
use crate::print::{show_answer, show_numbers};
use inputs::read_file;
use kinds::Fault;
use reading::lines::count_begun;
use std::io;
use std::rt::Files;

// The most entries that are tried at once, and what is lent for them: a place and a line more.
const MOST: usize = 64;

const PLACES: usize = 65;

const ROOM: usize = 5265;

// Of a refused call nothing is to be seen but what was lent.
fn show_pulled(
    rt: &impl Print,
    answer: Result<(), Fault>,
    entries: usize,
    out: &[u8],
) -> io::Result<()> {
    if answer.is_ok() && entries <= MOST {
        show_lines(rt, &out[..out.len().min(81 * entries)])?;
    }
    Ok(())
}

fn try_lent(
    rt: &impl Print,
    file: &[u8],
    records: &[u32],
    out: &mut [u8],
    faults: &mut [u32],
) -> io::Result<()> {
    let answer = pulling::pull(file, records, out, faults);
    print!(rt; "pull ")?;
    show_answer(rt, answer)?;
    print!(rt; "fault list")?;
    show_numbers(rt, faults)?;
    print!(rt; "bytes of the output: ")?;
    show_changed_bytes(rt, out)?;
    show_pulled(rt, answer, records.len(), out)?;
    println!(rt)
}

// Lends so many bytes of a space and so many places of a list.
fn try_lengths(
    rt: &impl Print,
    file: &[u8],
    records: &[u32],
    room: usize,
    places: usize,
) -> io::Result<()> {
    let mut space = [BYTE; ROOM];
    let mut list = [WORD; PLACES];
    match (space.get_mut(..room), list.get_mut(..places)) {
        (Some(out), Some(faults)) => try_lent(rt, file, records, out, faults),
        _ => Ok(()),
    }
}

fn try_pull(
    rt: &(impl Files + Print + Eprint),
    path: &[u8],
    records: &[u32],
    room: usize,
    places: usize,
) -> io::Result<()> {
    let mut space = [0u8; 65536];
    let n = read_file(rt, path, &mut space)?;
    print!(rt; "pulled from ")?;
    rt.write_all(path)?;
    print!(rt; ", records")?;
    show_numbers(rt, records)?;
    try_lengths(rt, &space[..n], records, room, places)
}

// With three bytes and two places more than the entries need.
fn try_list(rt: &(impl Files + Print + Eprint), path: &[u8], records: &[u32]) -> io::Result<()> {
    let n = records.len();
    if n <= MOST {
        try_pull(rt, path, records, 81 * n + 3, n + 2)?;
    }
    Ok(())
}

// The same entries with exactly what they need, with a byte less and with a place less.
fn try_all_kinds(rt: &(impl Files + Print + Eprint)) -> io::Result<()> {
    let records = [24u32, 23, 1, 17, 24, 33, 34, 0, 100000, 31];
    try_list(rt, b"accepted_all_kinds.bfile", &records)?;
    try_pull(rt, b"accepted_all_kinds.bfile", &records, 810, 10)?;
    try_pull(rt, b"accepted_all_kinds.bfile", &records, 809, 10)?;
    try_pull(rt, b"accepted_all_kinds.bfile", &records, 810, 9)
}

// The faults of a whole file do not show.
fn try_refused_files(rt: &(impl Files + Print + Eprint)) -> io::Result<()> {
    let misplaced = [1u32, 10, 11, 12];
    try_list(rt, b"fault_07_no_first_job_code.bfile", &misplaced)?;
    let unended = [1u32, 2];
    try_list(rt, b"fault_08_first_job_code_only.bfile", &unended)?;
    let foreign = [6u32];
    try_list(rt, b"fault_10_27_of_other_station.bfile", &foreign)?;
    let again = [13u32, 14];
    try_list(rt, b"fault_11_station_defined_twice.bfile", &again)?;
    let undefined = [4u32];
    try_list(rt, b"fault_12_station.bfile", &undefined)
}

// Those of a record do.
fn try_refused_records(rt: &(impl Files + Print + Eprint)) -> io::Result<()> {
    let cut = [13u32, 12, 14];
    try_list(rt, b"fault_03_short_last_line.bfile", &cut)?;
    try_list(rt, b"fault_04_before_03.bfile", &cut)?;
    let three = [2u32, 3, 4];
    try_list(rt, b"fault_05_line_of_81_columns.bfile", &three)?;
    try_list(rt, b"fault_06_code_not_kept.bfile", &three)?;
    try_list(rt, b"fault_09_station_0.bfile", &three)?;
    try_list(rt, b"fault_10_end_before_beginning.bfile", &three)?;
    let one_station = [17u32, 18];
    try_list(rt, b"fault_10_92_of_one_station.bfile", &one_station)
}

fn try_empty(rt: &(impl Files + Print + Eprint)) -> io::Result<()> {
    let none = [0u32; 0];
    try_list(rt, b"accepted_all_kinds.bfile", &none)?;
    try_pull(rt, b"fault_08_empty.bfile", &none, 0, 0)?;
    let first = [1u32];
    try_list(rt, b"fault_08_empty.bfile", &first)
}

pub(crate) fn try_pulls(rt: &(impl Files + Print + Eprint)) -> io::Result<()> {
    println!(rt)?;
    try_all_kinds(rt)?;
    try_refused_files(rt)?;
    try_refused_records(rt)?;
    try_empty(rt)
}

// The numbers from 1 on.
fn number_all() -> [u32; MOST] {
    let mut list = [0u32; MOST];
    for (place, n) in list.iter_mut().zip(1..) {
        *place = n;
    }
    list
}

// All records of a file of so few.
fn pull_list(file: &[u8], out: &mut [u8; 65536]) {
    let list = number_all();
    if let Some(records) = list.get(..count_begun(file)) {
        let mut faults = [WORD; MOST];
        let _ = pulling::pull(file, records, out, &mut faults);
    }
}

fn pull_all(rt: &(impl Files + Eprint), path: &[u8], out: &mut [u8; 65536]) -> io::Result<()> {
    let mut space = [0u8; 65536];
    let n = read_file(rt, path, &mut space)?;
    pull_list(&space[..n], out);
    Ok(())
}

fn compare_pulled(rt: &(impl Files + Print + Eprint), path: &[u8]) -> io::Result<()> {
    let mut first = [BYTE; 65536];
    let mut second = [BYTE; 65536];
    pull_all(rt, path, &mut first)?;
    rewrite_file(rt, path, &mut second)?;
    rt.write_all(path)?;
    print!(rt; ", all records pulled and rewritten")?;
    show_differing(rt, &first, &second)
}

pub(crate) fn compare_pulls(rt: &(impl Files + Print + Eprint)) -> io::Result<()> {
    compare_pulled(rt, b"accepted_all_kinds.bfile")?;
    compare_pulled(rt, b"dress_other.bfile")?;
    compare_pulled(rt, b"accepted_accuracies_in_other_dress.bfile")?;
    compare_pulled(rt, b"accepted_70_three_in_other_dress.bfile")
}
