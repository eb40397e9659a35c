// Bytes laid one after another: what came out of a call, as it is printed.
use arrayvec::ArrayVec;
use std::io;
use std::io::Write;

// The files of the list have at most twenty records, and no answer is as long as a file.
pub(crate) const SPACE: usize = 2048;

// Each function that lays into it fails only where it is full, and then has laid what there was room for.
pub(crate) type Text = ArrayVec<u8, SPACE>;

// Columns stand between backquotes, so that their blanks are seen.
pub(crate) fn lay_quoted(out: &mut Text, part: &[u8]) -> io::Result<()> {
    out.write_all(b"`")?;
    out.write_all(part)?;
    out.write_all(b"`")
}

// So many columns from a byte on; none where they do not lie in the space.
pub(crate) fn lay_columns(
    out: &mut Text,
    from: &[u8],
    start: usize,
    width: usize,
) -> io::Result<()> {
    match from.get(start..) {
        Some(rest) => lay_quoted(out, &rest[..width.min(rest.len())]),
        None => Ok(()),
    }
}
