// The calls on a whole file: form, references, rewrite and the sheet's list.
use crate::cells::Spot;
use crate::faults::{lay_fault, lay_outcome};
use crate::text::{SPACE, Text};
use kinds::Fault;
use std::io;
use std::io::Write;

// In the order AA 10 11 12 25 26 27 70 72 80 86 91 92 93.
fn lay_counts(out: &mut Text, counts: &[u32; 14]) -> io::Result<()> {
    out.write_all(b"accepted, counts")?;
    for n in counts {
        write!(out, " {n}")?;
    }
    Ok(())
}

pub(crate) fn lay_formed(out: &mut Text, file: &[u8]) -> io::Result<()> {
    match walk::form(file) {
        Ok(counts) => lay_counts(out, &counts),
        Err(f) => lay_fault(out, f),
    }
}

pub(crate) fn lay_referred(out: &mut Text, file: &[u8]) -> io::Result<()> {
    let mut table = [0u32; 12000];
    match walk::references(file, &mut table) {
        Ok(()) => out.write_all(b"accepted"),
        Err(f) => lay_fault(out, f),
    }
}

fn rewrite_file(file: &[u8], space: &mut [u8; SPACE]) -> Result<(), Fault> {
    let mut table = [0u32; 12000];
    rewriting::rewrite(file, &mut table, space)?;
    Ok(())
}

// The columns of the example as they stand in the rewritten file.
pub(crate) fn lay_rewritten(out: &mut Text, file: &[u8], spot: Spot) -> io::Result<()> {
    let mut space = [b'.'; SPACE];
    let outcome = rewrite_file(file, &mut space);
    lay_outcome(out, outcome, &space, spot.start, spot.width)
}

// A tab is shown as the paper shows it, and a line feed in the same way.
fn lay_visible(out: &mut Text, byte: u8) -> io::Result<()> {
    match byte {
        b'\t' => out.write_all(b"<tab>"),
        b'\n' => out.write_all(b"<line feed>"),
        _ => out.write_all(&[byte]),
    }
}

pub(crate) fn lay_listed(out: &mut Text, file: &[u8]) -> io::Result<()> {
    let mut table = [0u32; 12000];
    let mut sheet = [0u8; SPACE];
    let n = listing::list(file, &mut table, &mut sheet);
    for byte in &sheet[..n.min(SPACE)] {
        lay_visible(out, *byte)?;
    }
    Ok(())
}
