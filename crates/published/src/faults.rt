// A refusal as an answer, or what was written where there is none.
use crate::text::{Text, lay_columns};
use kinds::Fault;
use std::io;
use std::io::Write;

pub(crate) fn lay_fault(out: &mut Text, f: Fault) -> io::Result<()> {
    write!(
        out,
        "fault {} record {} column {}",
        f.number, f.record, f.column
    )
}

pub(crate) fn lay_outcome(
    out: &mut Text,
    outcome: Result<(), Fault>,
    from: &[u8],
    start: usize,
    width: usize,
) -> io::Result<()> {
    match outcome {
        Ok(()) => lay_columns(out, from, start, width),
        Err(f) => lay_fault(out, f),
    }
}
