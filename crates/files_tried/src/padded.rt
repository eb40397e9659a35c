// Inputs as editors leave them through pad; form and references over the padded lines, and once rewrite.
use crate::compare::count_differing;
use crate::dress::rewrite_file;
use crate::lent::{BYTE, WORD, show_changed_bytes};
use crate::print::{show_answer, show_checked};
use inputs::read_file;
use kinds::Fault;
use std::io;
use std::rt::Files;

// The bytes lent to each input: 34 lines, one more than the longest of them has.
const ROOM: usize = 2754;

// The bytes of the 33 lines of accepted_all_kinds.bfile.
const ENOUGH: usize = 2673;

// A mark stands at the end of each line, so that its blanks are seen.
fn show_byte(rt: &impl Print, b: u8) -> io::Result<()> {
    match b {
        b'\r' => rt.write_all(b"\\r"),
        b'\n' => rt.write_all(b"|\n"),
        _ => rt.write_all(&[b]),
    }
}

pub(crate) fn show_lines(rt: &impl Print, part: &[u8]) -> io::Result<()> {
    for b in part {
        show_byte(rt, *b)?;
    }
    Ok(())
}

// Up to four lines are printed; whether more are the right ones is seen where they are compared.
fn show_part(rt: &impl Print, part: &[u8]) -> io::Result<()> {
    if part.len() <= 324 {
        show_lines(rt, part)?;
    }
    print!(rt; "form ")?;
    show_checked(rt, walk::form(part))?;
    let mut table = [WORD; 12000];
    print!(rt; "references ")?;
    show_answer(rt, walk::references(part, &mut table))
}

// The lines are the first bytes of the output.
fn show_padded(rt: &impl Print, lines: u32, out: &[u8]) -> io::Result<()> {
    match out.get(..81 * lines as usize) {
        Some(part) if lines <= 34 => show_part(rt, part),
        _ => Ok(()),
    }
}

fn show_pad(rt: &impl Print, answer: Result<u32, Fault>) -> io::Result<()> {
    print!(rt; "pad ")?;
    show_answer(rt, answer)?;
    println!(rt; "lines {}", answer.unwrap_or(0))
}

fn try_pad(rt: &impl Print, input: &[u8], out: &mut [u8]) -> io::Result<()> {
    let answer = padding::pad(input, out);
    show_pad(rt, answer)?;
    print!(rt; "bytes of the output: ")?;
    show_changed_bytes(rt, out)?;
    if let Ok(lines) = answer {
        show_padded(rt, lines, out)?;
    }
    println!(rt)
}

// Lends so many bytes of a space.
fn try_room(rt: &impl Print, input: &[u8], n: usize) -> io::Result<()> {
    let mut space = [BYTE; ROOM];
    match space.get_mut(..n) {
        Some(out) => try_pad(rt, input, out),
        None => Ok(()),
    }
}

fn try_input(rt: &(impl Files + Print + Eprint), path: &[u8], room: usize) -> io::Result<()> {
    let mut space = [0u8; 65536];
    let n = read_file(rt, path, &mut space)?;
    print!(rt; "input ")?;
    rt.write_all(path)?;
    println!(rt; ", bytes {n}, output {room}")?;
    try_room(rt, &space[..n], room)
}

pub(crate) fn try_inputs(rt: &(impl Files + Print + Eprint)) -> io::Result<()> {
    println!(rt)?;
    try_input(rt, b"padding_trimmed_lf.bfile", ROOM)?;
    try_input(rt, b"padding_trimmed_cr_lf.bfile", ROOM)?;
    try_input(rt, b"padding_trimmed_mixed.bfile", ROOM)?;
    try_input(rt, b"accepted_all_kinds.bfile", ROOM)?;
    try_input(rt, b"padding_line_of_81_bytes.bfile", ROOM)?;
    try_input(rt, b"padding_80_bytes_and_cr_lf.bfile", ROOM)?;
    try_input(rt, b"padding_80_bytes_and_cr.bfile", ROOM)?;
    try_input(rt, b"padding_cr_cr_lf.bfile", ROOM)?;
    try_input(rt, b"padding_lf_alone.bfile", ROOM)?;
    try_input(rt, b"fault_08_empty.bfile", ROOM)?;
    try_input(rt, b"padding_trimmed_month_13.bfile", ROOM)?;
    try_input(rt, b"padding_trimmed_cr_lf.bfile", ENOUGH - 1)?;
    try_input(rt, b"padding_trimmed_cr_lf.bfile", ENOUGH)
}

fn pad_file(rt: &(impl Files + Eprint), path: &[u8], out: &mut [u8; 65536]) -> io::Result<()> {
    let mut space = [0u8; 65536];
    let n = read_file(rt, path, &mut space)?;
    let _ = padding::pad(&space[..n], out);
    Ok(())
}

pub(crate) fn show_differing(rt: &impl Print, one: &[u8], other: &[u8]) -> io::Result<()> {
    println!(rt; ": bytes that differ {}", count_differing(one, other))
}

fn compare_padded(rt: &(impl Files + Print + Eprint), input: &[u8], file: &[u8]) -> io::Result<()> {
    let mut first = [BYTE; 65536];
    let mut second = [BYTE; 65536];
    pad_file(rt, input, &mut first)?;
    read_file(rt, file, &mut second)?;
    rt.write_all(input)?;
    print!(rt; " padded and ")?;
    rt.write_all(file)?;
    show_differing(rt, &first, &second)
}

fn rewrite_lines(rt: &impl Print, lines: &[u8; 65536], out: &mut [u8; 65536]) -> io::Result<()> {
    let mut table = [WORD; 12000];
    let checked = rewriting::rewrite(&lines[..ENOUGH], &mut table, out);
    show_checked(rt, checked)
}

fn rewrite_padded(
    rt: &(impl Files + Print + Eprint),
    input: &[u8],
    out: &mut [u8; 65536],
) -> io::Result<()> {
    let mut lines = [BYTE; 65536];
    pad_file(rt, input, &mut lines)?;
    rt.write_all(input)?;
    print!(rt; " padded, rewrite ")?;
    rewrite_lines(rt, &lines, out)
}

fn compare_rewritten(
    rt: &(impl Files + Print + Eprint),
    input: &[u8],
    file: &[u8],
) -> io::Result<()> {
    let mut first = [BYTE; 65536];
    let mut second = [BYTE; 65536];
    rewrite_padded(rt, input, &mut first)?;
    rewrite_file(rt, file, &mut second)?;
    print!(rt; "and ")?;
    rt.write_all(file)?;
    print!(rt; " rewritten")?;
    show_differing(rt, &first, &second)
}

pub(crate) fn compare_inputs(rt: &(impl Files + Print + Eprint)) -> io::Result<()> {
    compare_padded(rt, b"padding_trimmed_lf.bfile", b"accepted_all_kinds.bfile")?;
    compare_padded(
        rt,
        b"padding_trimmed_cr_lf.bfile",
        b"accepted_all_kinds.bfile",
    )?;
    compare_padded(
        rt,
        b"padding_trimmed_mixed.bfile",
        b"accepted_all_kinds.bfile",
    )?;
    compare_padded(rt, b"accepted_all_kinds.bfile", b"accepted_all_kinds.bfile")?;
    compare_rewritten(
        rt,
        b"padding_trimmed_cr_lf.bfile",
        b"accepted_all_kinds.bfile",
    )
}
