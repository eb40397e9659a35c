// One file through form, references and rewrite, with a word more of table and a record more of output than they need.
use crate::compare::count_differing;
use crate::lent::{BYTE, WORD, show_kept};
use crate::print::{show_answer, show_checked};
use crate::table::show_table;
use kinds::Fault;
use std::io;

// The sum of the sums of the bytes up to each: another byte or another order gives another one.
fn sum_of_sums(part: &[u8]) -> u64 {
    let mut sum: u64 = 0;
    let mut sums: u64 = 0;
    for byte in part {
        sum = sum.wrapping_add(u64::from(*byte));
        sums = sums.wrapping_add(sum);
    }
    sums
}

// A file of up to fifty records is printed whole; of a longer one the sum has to do.
fn show_rewritten(rt: &impl Print, part: &[u8]) -> io::Result<()> {
    println!(rt;
        "rewritten bytes {}, sum of sums {}",
        part.len(),
        sum_of_sums(part)
    )?;
    if part.len() <= 4050 {
        rt.write_all(part)?;
    }
    Ok(())
}

// On acceptance the output starts with the rewritten file and stays beyond it.
fn show_written(rt: &impl Print, n: usize, out: &[u8]) -> io::Result<()> {
    if let Some((part, beyond)) = out.split_at_checked(n) {
        show_rewritten(rt, part)?;
        print!(rt; "bytes beyond: ")?;
        show_kept(rt, beyond, BYTE)?;
    }
    Ok(())
}

// A refusal leaves all of the output as it was.
fn show_output(
    rt: &impl Print,
    answer: Result<[u32; 14], Fault>,
    n: usize,
    out: &[u8],
) -> io::Result<()> {
    if answer.is_ok() {
        show_written(rt, n, out)
    } else {
        print!(rt; "bytes of the output: ")?;
        show_kept(rt, out, BYTE)
    }
}

fn try_form(rt: &impl Print, file: &[u8]) -> io::Result<()> {
    print!(rt; "form ")?;
    show_checked(rt, walk::form(file))
}

fn try_references(rt: &impl Print, file: &[u8], table: &mut [u32; 12001]) -> io::Result<()> {
    print!(rt; "references ")?;
    show_answer(rt, walk::references(file, table))?;
    show_table(rt, table)
}

fn try_rewrite(
    rt: &impl Print,
    file: &[u8],
    before: &[u32; 12001],
    out: &mut [u8],
) -> io::Result<()> {
    let mut table = [WORD; 12001];
    print!(rt; "rewrite ")?;
    let checked = rewriting::rewrite(file, &mut table, out);
    show_checked(rt, checked)?;
    println!(rt;
        "words other than after references: {}",
        count_differing(&table, before)
    )?;
    show_output(rt, checked, file.len(), out)
}

// The output has room for one record more than the file.
fn try_part(rt: &impl Print, file: &[u8], before: &[u32; 12001], out: &mut [u8]) -> io::Result<()> {
    if file.len() <= 262144 {
        if let Some(part) = out.get_mut(..file.len() + 81) {
            try_rewrite(rt, file, before, part)?;
        }
    }
    Ok(())
}

fn try_calls(rt: &impl Print, file: &[u8]) -> io::Result<()> {
    let mut table = [WORD; 12001];
    try_form(rt, file)?;
    try_references(rt, file, &mut table)?;
    let mut out = [BYTE; 262225];
    try_part(rt, file, &table, &mut out)
}

pub(crate) fn try_whole(rt: &impl Print, name: &[u8], file: &[u8]) -> io::Result<()> {
    print!(rt; "file ")?;
    rt.write_all(name)?;
    println!(rt; ", bytes {}", file.len())?;
    try_calls(rt, file)?;
    println!(rt)
}
