// What is lent to a call, and how much of it the call has left as it was.
ghost use Rattle.std.specs.Prelude.{◌≤◌, length};

use std::io;

// Every word of a table before a call: no record has this number.
pub(crate) const WORD: u32 = 7777777;

// Every byte of an output before a call: no rewritten file and no line padded here has it.
pub(crate) const BYTE: u8 = 255;

// How many words or bytes are as each was before the call.
fn count_kept<T: Copy + PartialEq>(lent: &[T], before: T) -> usize
    ensures { result ≤ length lent.now }
{
    lent.iter().filter(|held| **held == before).count()
}

pub(crate) fn show_kept<T: Copy + PartialEq>(
    rt: &impl Print,
    lent: &[T],
    before: T,
) -> io::Result<()> {
    println!(rt; "{} of {} unchanged", count_kept(lent, before), lent.len())
}

pub(crate) fn show_changed_bytes(rt: &impl Print, out: &[u8]) -> io::Result<()> {
    let kept = count_kept(out, BYTE);
    println!(rt;
        "{} changed, {} of {} unchanged",
        out.len() - kept,
        kept,
        out.len()
    )
}
