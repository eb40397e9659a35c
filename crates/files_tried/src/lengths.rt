// The shortest table and output that do, and one word or one byte less, which is fault 1 and touches nothing.
use crate::lent::{BYTE, WORD, show_kept};
use crate::print::{show_answer, show_checked};
use inputs::read_file;
use std::io;
use std::rt::Files;

fn show_table(rt: &impl Print, table: &[u32]) -> io::Result<()> {
    print!(rt; "words of the table: ")?;
    show_kept(rt, table, WORD)
}

fn try_rewrite(rt: &impl Print, file: &[u8], table: &mut [u32], out: &mut [u8]) -> io::Result<()> {
    print!(rt; "rewrite ")?;
    let checked = rewriting::rewrite(file, table, out);
    show_checked(rt, checked)?;
    show_table(rt, table)?;
    print!(rt; "bytes of the output: ")?;
    show_kept(rt, out, BYTE)?;
    println!(rt)
}

// Lends so many bytes of a space.
fn try_output(rt: &impl Print, file: &[u8], table: &mut [u32], n: usize) -> io::Result<()> {
    let mut space = [BYTE; 65536];
    match space.get_mut(..n) {
        Some(out) => try_rewrite(rt, file, table, out),
        None => Ok(()),
    }
}

fn short_table(rt: &impl Print, file: &[u8]) -> io::Result<()> {
    let mut table = [WORD; 11999];
    print!(rt; "a table of 11999 words\nreferences ")?;
    show_answer(rt, walk::references(file, &mut table))?;
    show_table(rt, &table)?;
    try_output(rt, file, &mut table, file.len())
}

fn short_output(rt: &impl Print, file: &[u8]) -> io::Result<()> {
    let mut table = [WORD; 12000];
    println!(rt; "an output of a byte less than the file")?;
    match file.len().checked_sub(1) {
        Some(n) => try_output(rt, file, &mut table, n),
        None => Ok(()),
    }
}

fn shortest(rt: &impl Print, file: &[u8]) -> io::Result<()> {
    let mut table = [WORD; 12000];
    println!(rt; "a table of 12000 words and an output as long as the file")?;
    try_output(rt, file, &mut table, file.len())
}

fn try_file(rt: &impl Print, file: &[u8]) -> io::Result<()> {
    short_table(rt, file)?;
    short_output(rt, file)?;
    shortest(rt, file)
}

pub(crate) fn try_lengths(rt: &(impl Files + Print + Eprint), path: &[u8]) -> io::Result<()> {
    let mut space = [0u8; 65536];
    let n = read_file(rt, path, &mut space)?;
    print!(rt; "lengths, ")?;
    rt.write_all(path)?;
    print!(rt; "\n\n")?;
    try_file(rt, &space[..n])
}
